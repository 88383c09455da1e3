ghost use Rattle.std.specs.Prelude.{◌≡◌, IfOk};
ghost use Rattle.carol_reading.specs.Kept.{MayBeKept};

use carol_program::{AccordTable, Program};
use std::alloc::{AllocError, Global};
use std::marker::Model;

/// A program that is well formed and accepted, with its table of accords, which is right.
#[derive(Drop)]
pub struct Accepted {
    program: Program,
    accords: AccordTable,
}

impl Model for Accepted {
    ghost use Rattle.std.specs.Coded.{codes};
    ghost use Rattle.carol_formula.specs.contracts.formula.Formula as formula;
    ghost use Rattle.carol_program.specs.contracts.steps.Step as step;
    ghost use Rattle.carol_reading.specs.Kept.{Kept, MayBeKept};

    ghost Value = { Kept };

    ghost coded = { Prim.hlevel (codes, formula.the_row.coded, step.the_row.coded) };

    ghost view = { λ a. record { program = a.program; accords = a.accords } };

    ghost invariant = { λ a. MayBeKept a.program a.accords };
}

impl Accepted {
    /// The program with its table. It is well formed and accepted, and the table is right.
    pub fn new(program: Program, accords: AccordTable) -> Accepted
        requires { MayBeKept program accords }
        ensures { result ≡ record { program = program; accords = accords } }
    {
        Accepted { program, accords }
    }

    /// An equal program with an equal table.
    pub fn copy(&self, alloc: Global) -> Result<Accepted, AllocError>
        ensures { IfOk result (λ same. same ≡ self.now) }
    {
        Ok(Accepted {
            program: self.program.copy(alloc)?,
            accords: self.accords.copy(alloc)?,
        })
    }

    /// The program.
    pub fn program(&self) -> &Program
        ensures program { result.now ≡ self.now.program }
        ensures kept { MayBeKept self.now.program self.now.accords }
    {
        &self.program
    }

    /// The table of accords.
    pub fn accords(&self) -> &AccordTable
        ensures { result.now ≡ self.now.accords }
    {
        &self.accords
    }
}

//! The accords of a program's guards: for each guard and each step of a cell, whether the step
//! keeps the guard true, whatever the stores. That a guard is true of any two equal stores is
//! looked at before its steps are.
//!
//! Each question is a formula that is true of exactly the stores at which the answer is no. So a
//! refutation is a yes, and a valuation is a no that shows two stores.
//!
//! Layer: checker. Called by `carol_accept`.
#![tactic(auto)]

ghost use Rattle.std.specs.Prelude.{IfOk, IfErr};
ghost use Rattle.std.specs.List.{AllByRecursion};
ghost use Rattle.carol_accord.specs.Inferred.{HasWitnesses, FailsReflexive, StaysUndecided};
ghost use Rattle.carol_program.specs.Accords.{IsTable};
ghost use Rattle.carol_program.specs.Preserving.{IsRight};
ghost use Rattle.carol_program.specs.Rules.{rules_in};
ghost use Rattle.carol_program.specs.WellFormed.{IsWellFormed};
ghost use Rattle.carol_reading.specs.Good.{IsReflexive};

mod deciding;
mod entries;
mod error;
mod formulas;
mod names;
mod steps;

use crate::entries::all_entries;
use carol_program::{AccordTable, Program};
pub use error::AccordError;
use std::alloc::Global;

/// The accords of the program's guards. The guards are looked at in order: whether a guard is true
/// of any two equal stores, and then each step, by cell, up before down. `NotReflexive` and
/// `Undecided` name the first of these that isn't proved. The invariant isn't assumed. The program
/// is well formed. The table has an entry for each guard and step.
pub fn infer(alloc: Global, program: &Program) -> Result<AccordTable, AccordError>
    requires { IsWellFormed (rules_in program.now) program.now.names }
    ensures right { let p = rules_in program.now in IfOk result (IsRight p) }
    ensures reflexive { let p = rules_in program.now
        in IfOk result (λ _. AllByRecursion (IsReflexive p) p.guards) }
    ensures witnesses { let p = rules_in program.now
        in IfOk result (HasWitnesses p.shape p.guards) }
    ensures whole { IfOk result IsTable }
    ensures not_reflexive { IfErr result (FailsReflexive (rules_in program.now)) }
    ensures undecided { IfErr result (StaysUndecided (rules_in program.now)) }
{
    let entries = all_entries(alloc, program)?;
    let guards = program.guards.len() as u32;
    Ok(AccordTable::new(&program.shape, guards, entries))
}

ghost use Rattle.std.specs.Prelude.{◌≡◌, ◌++◌, OnOk};
ghost use Rattle.carol_syntax.specs.Files.{guard_tree, param_tree, op_tree, program_tree};
ghost use Rattle.carol_print.specs.Pieces.{Piece, text_of};
ghost use Rattle.carol_print.specs.Canonical as canon;

use crate::bodies::push_inside;
use crate::formulas::push_formula;
use crate::printed::{Printed, push_all, push_text, push_with_commas};
use carol_syntax::{GuardDecl, OpDecl, ParamDecl, ProgramDecl};
use std::alloc::AllocError;

impl Printed for GuardDecl {
    ghost pieces = { λ g. canon.guard (guard_tree g) };

    fn push_to(&self, out: &mut Vec<u8>) -> Result<(), AllocError> {
        push_text(out, "guard ")?;
        self.name.push_to(out)?;
        push_text(out, ": ")?;
        push_formula(out, &self.formula)?;
        push_text(out, ";\n")?;
        Ok(())
    }
}

impl Printed for ParamDecl {
    ghost pieces = { λ p. canon.param (param_tree p) };

    fn push_to(&self, out: &mut Vec<u8>) -> Result<(), AllocError> {
        self.name.push_to(out)?;
        push_text(out, ": ")?;
        push_formula(out, &self.formula)
    }
}

impl Printed for OpDecl {
    ghost pieces = { λ o. canon.op (op_tree o) };

    fn push_to(&self, out: &mut Vec<u8>) -> Result<(), AllocError> {
        push_text(out, "op ")?;
        self.name.push_to(out)?;
        push_text(out, "(")?;
        push_with_commas(out, self.params.as_slice())?;
        push_text(out, ") gives ")?;
        push_formula(out, &self.gives)?;
        push_text(out, " {\n")?;
        push_inside(out, &self.body)?;
        push_text(out, "}\n")?;
        Ok(())
    }
}

/// Appends the program part of a file.
pub fn push_program(out: &mut Vec<u8>, program: &ProgramDecl) -> Result<(), AllocError>
    ensures { OnOk result
        (out.new.items ≡ out.old.items ++ text_of (canon.program (program_tree program.now))) }
{
    push_text(out, "program\n")?;
    push_all(out, program.cells.as_slice())?;
    push_text(out, "invariant ")?;
    push_formula(out, &program.invariant)?;
    push_text(out, ";\n")?;
    push_all(out, program.guards.as_slice())?;
    push_all(out, program.ops.as_slice())?;
    push_text(out, "end\n")?;
    Ok(())
}

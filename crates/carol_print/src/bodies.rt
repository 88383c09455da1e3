ghost use Rattle.std.specs.Prelude.{◌≡◌, ◌++◌, OnOk};
ghost use Rattle.carol_syntax.specs.Bodies.{body_tree};
ghost use Rattle.carol_print.specs.Pieces.{Piece, text_of};
ghost use Rattle.carol_print.specs.Canonical as canon;

use crate::formulas::push_formula;
use crate::printed::{Printed, push_all, push_text, push_with_commas};
use crate::terms::{push_path, push_term};
use carol_syntax::{AtomDecl, Body, Change, Last, Statement};
use std::alloc::AllocError;

// Appends what an issue does to a cell.
fn push_change(out: &mut Vec<u8>, change: &Change) -> Result<(), AllocError>
    ensures { OnOk result (out.new.items ≡ out.old.items ++ text_of (canon.change change.now)) }
{
    match change {
        Change::Add(term) => {
            push_text(out, "+= ")?;
            push_term(out, term)
        }
        Change::Take(term) => {
            push_text(out, "-= ")?;
            push_term(out, term)
        }
        Change::Raise(term) => {
            push_text(out, "raise ")?;
            push_term(out, term)
        }
        Change::Set => push_text(out, "set"),
    }
}

impl Printed for AtomDecl {
    ghost pieces = { canon.atom };

    fn push_to(&self, out: &mut Vec<u8>) -> Result<(), AllocError> {
        push_path(out, self.path.parts.as_slice())?;
        push_text(out, " ")?;
        push_change(out, &self.change)?;
        Ok(())
    }
}

impl Printed for Statement {
    ghost pieces = { canon.statement };

    fn push_to(&self, out: &mut Vec<u8>) -> Result<(), AllocError> {
        match self {
            Statement::Query { name, guard } => {
                push_text(out, "query ")?;
                name.push_to(out)?;
                push_text(out, " under ")?;
                guard.push_to(out)?;
                push_text(out, ";\n")?;
                Ok(())
            }
            Statement::Release => push_text(out, "release;\n"),
            Statement::Let { name, term } => {
                push_text(out, "let ")?;
                name.push_to(out)?;
                push_text(out, " = ")?;
                push_term(out, term)?;
                push_text(out, ";\n")?;
                Ok(())
            }
            Statement::Issue(atoms) => {
                push_text(out, "issue ")?;
                push_with_commas(out, atoms.as_slice())?;
                push_text(out, ";\n")?;
                Ok(())
            }
        }
    }
}

/// Appends the lines between the braces of a body.
pub fn push_inside(out: &mut Vec<u8>, body: &Body) -> Result<(), AllocError>
    ensures { OnOk result
        (out.new.items ≡ out.old.items ++ text_of (canon.inside (body_tree body.now))) }
{
    push_all(out, body.plain.as_slice())?;
    match body.last.get() {
        Last::Return(term) => {
            push_text(out, "return ")?;
            push_term(out, term)?;
            push_text(out, ";\n")?;
            Ok(())
        }
        Last::If { test, yes, no } => {
            push_text(out, "if ")?;
            push_formula(out, test)?;
            push_text(out, " {\n")?;
            push_inside(out, yes)?;
            push_text(out, "} else {\n")?;
            push_inside(out, no)?;
            push_text(out, "}\n")?;
            Ok(())
        }
    }
}

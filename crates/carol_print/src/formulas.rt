ghost use Rattle.std.specs.Prelude.{◌≡◌, ◌++◌, OnOk, [], ◌∷◌, ◌||◌};
ghost use Rattle.carol_syntax.specs.Formulas.{formula_tree};
ghost use Rattle.carol_print.specs.Pieces.{Space, text_of};
ghost use Rattle.carol_print.specs.Canonical as canon;
ghost use Rattle.carol_print.specs.Enclosing.{opened, closed};

use crate::printed::push_text;
use crate::terms::push_term;
use carol_syntax::{FormulaDecl, Sign};
use std::alloc::AllocError;

// The formula is an `or`.
fn is_either(formula: &FormulaDecl) -> bool
    ensures { result ≡ canon.is_either (formula_tree formula.now) }
{
    match formula {
        FormulaDecl::Or(_, _) => true,
        _ => false,
    }
}

// The formula is an `or` or an `and`.
fn is_joined(formula: &FormulaDecl) -> bool
    ensures { result
        ≡ (canon.is_either (formula_tree formula.now) || canon.is_both (formula_tree formula.now)) }
{
    match formula {
        FormulaDecl::Or(_, _) | FormulaDecl::And(_, _) => true,
        _ => false,
    }
}

// Appends the parenthesis before a formula that needs it.
fn push_opening(out: &mut Vec<u8>, needed: bool) -> Result<(), AllocError>
    ensures { OnOk result (out.new.items ≡ out.old.items ++ opened needed) }
{
    if needed { push_text(out, "(") } else { Ok(()) }
}

// Appends the parenthesis behind a formula that needs it.
fn push_closing(out: &mut Vec<u8>, needed: bool) -> Result<(), AllocError>
    ensures { OnOk result (out.new.items ≡ out.old.items ++ closed needed) }
{
    if needed { push_text(out, ")") } else { Ok(()) }
}

// Appends the sign of a comparison, and a space on either side.
fn push_sign(out: &mut Vec<u8>, sign: Sign) -> Result<(), AllocError>
    ensures { OnOk result
        (out.new.items ≡ out.old.items ++ text_of (Space ∷ canon.sign sign ∷ Space ∷ [])) }
{
    match sign {
        Sign::AtMost => push_text(out, " <= "),
        Sign::Below => push_text(out, " < "),
        Sign::AtLeast => push_text(out, " >= "),
        Sign::Above => push_text(out, " > "),
        Sign::Same => push_text(out, " = "),
        Sign::Differs => push_text(out, " != "),
    }
}

/// Appends a formula, in parentheses only the parts that need them.
pub fn push_formula(out: &mut Vec<u8>, formula: &FormulaDecl) -> Result<(), AllocError>
    ensures { OnOk result
        (out.new.items ≡ out.old.items ++ text_of (canon.formula (formula_tree formula.now))) }
{
    match formula {
        FormulaDecl::True => push_text(out, "true"),
        FormulaDecl::False => push_text(out, "false"),
        FormulaDecl::Not(inner) => {
            let inner = inner.get();
            let needed = is_joined(inner);
            push_text(out, "not ")?;
            push_opening(out, needed)?;
            push_formula(out, inner)?;
            push_closing(out, needed)
        }
        FormulaDecl::And(left, right) => {
            let (left, right) = (left.get(), right.get());
            let (left_needed, right_needed) = (is_either(left), is_joined(right));
            push_opening(out, left_needed)?;
            push_formula(out, left)?;
            push_closing(out, left_needed)?;
            push_text(out, " and ")?;
            push_opening(out, right_needed)?;
            push_formula(out, right)?;
            push_closing(out, right_needed)
        }
        FormulaDecl::Or(left, right) => {
            let (left, right) = (left.get(), right.get());
            let needed = is_either(right);
            push_formula(out, left)?;
            push_text(out, " or ")?;
            push_opening(out, needed)?;
            push_formula(out, right)?;
            push_closing(out, needed)
        }
        FormulaDecl::Compare { left, sign, right } => {
            push_term(out, left)?;
            push_sign(out, *sign)?;
            push_term(out, right)
        }
    }
}

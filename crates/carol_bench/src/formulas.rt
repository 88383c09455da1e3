ghost use Rattle.std.specs.Prelude.{◌<◌};

use carol_formula::{Boxed, Formula, TERM_LIMIT, Term, Variable, is_below};
use std::alloc::Global;
use std::str;

/// The formula that the steps make, if it is one alone.
pub fn formula_of(alloc: Global, bytes: &[u8]) -> anyhow::Result<Option<Formula>> {
    let text = str::from_utf8(bytes)?;
    let mut found = Vec::new(alloc);
    for line in text.lines() {
        if !step(alloc, &mut found, line)? {
            return Ok(None);
        }
    }
    let last = found.pop();
    if found.is_empty() { Ok(last) } else { Ok(None) }
}

// Takes one step, if the line is one.
fn step(alloc: Global, found: &mut Vec<Formula>, line: &str) -> anyhow::Result<bool> {
    let mut words = line.split_whitespace();
    let Some(word) = words.next() else {
        return Ok(true);
    };
    if word == "and" || word == "or" {
        return join(alloc, found, word == "and");
    }
    let rest = line.strip_prefix(word).unwrap_or("");
    let Some(term) = term_of(alloc, rest)? else {
        return Ok(false);
    };
    let formula = match word {
        "le" => Formula::Le(term),
        "eq" => Formula::Eq(term),
        "ne" => Formula::Ne(term),
        _ => return Ok(false),
    };
    found.push(formula)?;
    Ok(true)
}

// Joins the last two formulas.
fn join(alloc: Global, found: &mut Vec<Formula>, both: bool) -> anyhow::Result<bool> {
    let (Some(right), Some(left)) = (found.pop(), found.pop()) else {
        return Ok(false);
    };
    let left = Boxed::new(alloc, left)?;
    let right = Boxed::new(alloc, right)?;
    found.push(if both {
        Formula::And(left, right)
    } else {
        Formula::Or(left, right)
    })?;
    Ok(true)
}

// A constant, and variables with their coefficients.
fn term_of(alloc: Global, text: &str) -> anyhow::Result<Option<Term>> {
    let mut words = text.split_whitespace();
    let Some(constant) = words.next() else {
        return Ok(None);
    };
    let constant = constant.parse::<i128>()?;
    if !is_below(constant, TERM_LIMIT) {
        return Ok(None);
    }
    let mut term = Term::constant(alloc, constant);
    while let Some(variable) = words.next() {
        let Some(coefficient) = words.next() else {
            return Ok(None);
        };
        let variable = Term::variable(alloc, Variable(variable.parse::<u32>()?))?;
        term = term.add(&variable.scale(coefficient.parse::<i128>()?)?)?;
    }
    Ok(Some(term))
}

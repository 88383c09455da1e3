//! Numbers that make a formula true, brought near to those that are wished for.

ghost use Rattle.std.specs.Prelude.{◌≤◌, IfOk};
ghost use Rattle.carol_formula.specs.Claim.{HasNoNot};
ghost use Rattle.carol_formula.specs.Numbers.{number_at};
ghost use Rattle.carol_formula.specs.Size.{nodes_of};
ghost use Rattle.carol_formula.specs.Tree.{claim_of};
ghost use Rattle.carol_decide.specs.Answer.{IsSat};

use crate::attempt::is_met;
use crate::wish::{Aim, Wish};
use carol_formula::{Formula, Valuation, Variable};
use std::alloc::AllocError;

// How often all wishes are gone through.
const PASSES: u32 = 3;

// How often the way to a number is halved.
const HALVES: u32 = 130;

// How many nodes of the formula are looked at in all, about.
const MOST_LOOKS: u32 = 1_000_000;

// The number in the middle, or the first where no number lies between them.
fn between(one: i128, other: i128) -> i128 {
    match other.checked_sub(one) {
        Some(gap) => one.saturating_add(gap / 2),
        None => one,
    }
}

// How often other numbers may be tried.
fn tries_for(formula: &Formula) -> u32
    requires { nodes_of (claim_of formula.now) ≤ 65536 }
{
    match MOST_LOOKS.checked_div(formula.nodes()) {
        Some(tries) => tries,
        None => 0,
    }
}

// The numbers with another one for the variable, and for each that moves with it. Wishes to be like
// a variable stand behind that variable's own.
fn moved(
    wishes: &[Wish],
    values: &Valuation,
    variable: Variable,
    number: i128,
) -> Result<Valuation, AllocError> {
    let own = values.get(variable);
    let mut other = values.copy()?;
    other.set(variable, number)?;
    for wish in wishes {
        if let Some(model) = wish.model() {
            let is_equal = values.get(model) == own && values.get(wish.variable) == own;
            if is_equal && other.get(model) == number {
                other.set(wish.variable, number)?;
            }
        }
    }
    Ok(other)
}

// The other numbers, where they make the formula true, too.
fn better(formula: &Formula, values: Valuation, other: Valuation) -> Valuation
    requires no_not { HasNoNot (claim_of formula.now) }
    requires sat { IsSat (claim_of formula.now) (number_at values) }
    ensures { IsSat (claim_of formula.now) (number_at result) }
{
    if is_met(formula, &other) {
        other
    } else {
        values
    }
}

// The numbers with this one for the variable, together with what moves with it, or else alone,
// where they make the formula true.
fn tried(
    formula: &Formula,
    wishes: &[Wish],
    values: Valuation,
    variable: Variable,
    number: i128,
) -> Result<Valuation, AllocError>
    requires no_not { HasNoNot (claim_of formula.now) }
    requires sat { IsSat (claim_of formula.now) (number_at values) }
    ensures { IfOk result (λ v. IsSat (claim_of formula.now) (number_at v)) }
{
    let other = moved(wishes, &values, variable, number)?;
    let values = better(formula, values, other);
    if values.get(variable) == number {
        return Ok(values);
    }
    let other = moved(&[], &values, variable, number)?;
    Ok(better(formula, values, other))
}

// The numbers with one for the variable that is as near to the wanted one as halving the way
// comes.
fn approached(
    formula: &Formula,
    wishes: &[Wish],
    values: Valuation,
    variable: Variable,
    wanted: i128,
    tries: &mut u32,
) -> Result<Valuation, AllocError>
    requires no_not { HasNoNot (claim_of formula.now) }
    requires sat { IsSat (claim_of formula.now) (number_at values) }
    ensures { IfOk result (λ v. IsSat (claim_of formula.now) (number_at v)) }
{
    let mut values = values;
    let mut beyond = wanted;
    let mut next = wanted;
    for _ in 0..HALVES {
        if values.get(variable) == wanted || *tries == 0 {
            break;
        }
        *tries = tries.saturating_sub(1);
        values = tried(formula, wishes, values, variable, next)?;
        let own = values.get(variable);
        if own != next {
            beyond = next;
        }
        next = between(own, beyond);
        if next == own {
            break;
        }
    }
    Ok(values)
}

// The numbers with the wish granted as far as may be.
fn granted(
    formula: &Formula,
    wishes: &[Wish],
    values: Valuation,
    wish: &Wish,
    tries: &mut u32,
) -> Result<Valuation, AllocError>
    requires no_not { HasNoNot (claim_of formula.now) }
    requires sat { IsSat (claim_of formula.now) (number_at values) }
    ensures { IfOk result (λ v. IsSat (claim_of formula.now) (number_at v)) }
{
    match wish.aim {
        Aim::Number(number) => {
            let values = tried(formula, wishes, values, wish.variable, number)?;
            if values.get(wish.variable) == number {
                return Ok(values);
            }
            approached(formula, wishes, values, wish.variable, 0, tries)
        }
        Aim::Like(other) => {
            let wanted = values.get(other);
            approached(formula, wishes, values, wish.variable, wanted, tries)
        }
        Aim::With(_) => Ok(values),
    }
}

// The numbers with each wish granted as far as may be, in order: those to be like another variable,
// or else the others.
fn gone_through(
    formula: &Formula,
    wishes: &[Wish],
    values: Valuation,
    is_like: bool,
    tries: &mut u32,
) -> Result<Valuation, AllocError>
    requires no_not { HasNoNot (claim_of formula.now) }
    requires sat { IsSat (claim_of formula.now) (number_at values) }
    ensures { IfOk result (λ v. IsSat (claim_of formula.now) (number_at v)) }
{
    let mut values = values;
    for wish in wishes {
        if *tries > 0 && wish.model().is_some() == is_like {
            *tries = tries.saturating_sub(1);
            values = granted(formula, wishes, values, wish, tries)?;
        }
    }
    Ok(values)
}

/// Numbers that make the formula true, where these do, and that come nearer to what is wished: the
/// wishes are gone through in order, first those to be like another variable, and what keeps the
/// formula true is kept. A wish to be like a variable stands behind that variable's own. The
/// formula has no `Not` and at most 65,536 nodes, and the work is bounded. The only error is want
/// of memory.
pub fn nearer(
    formula: &Formula,
    values: Valuation,
    wishes: &[Wish],
) -> Result<Valuation, AllocError>
    requires no_not { HasNoNot (claim_of formula.now) }
    requires small { nodes_of (claim_of formula.now) ≤ 65536 }
    requires sat { IsSat (claim_of formula.now) (number_at values) }
    ensures { IfOk result (λ v. IsSat (claim_of formula.now) (number_at v)) }
{
    let mut values = values;
    let mut tries = tries_for(formula);
    for _ in 0..PASSES {
        values = gone_through(formula, wishes, values, true, &mut tries)?;
        values = gone_through(formula, wishes, values, false, &mut tries)?;
    }
    Ok(values)
}

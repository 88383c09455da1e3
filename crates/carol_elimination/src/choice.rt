ghost use Rattle.std.specs.Prelude.{◌≡◌, ◌<◌, ◌^◌, List, length, IfOk, IfSome, IfNone};
ghost use Rattle.carol_formula.specs.Bounds.{term_limit};
ghost use Rattle.carol_formula.specs.Linear.{Linear};
ghost use Rattle.carol_formula.specs.Numbers.{number_at};
ghost use Rattle.carol_formula.specs.Value.{Fits, FitsWithin};
ghost use Rattle.carol_elimination.specs.Stage.{Among, variables as all_variables};
ghost use Rattle.carol_elimination.specs.Derived.{row_at, AreDerived};
ghost use Rattle.carol_elimination.specs.Entries.{terms_of, row_in};
ghost use Rattle.carol_elimination.specs.Outcome.{IsQuietOutcome};
ghost use Rattle.carol_elimination.specs.Choosing.{AreLastChosen, IsChoice};

use crate::reading::bounds_of;
use crate::{Arena, Elimination};
use carol_cert::{RowStep, StepList};
use carol_formula::{Row, TERM_LIMIT, Valuation, Variable};
use std::alloc::{AllocError, Global};

/// What comes of choosing a whole number for each variable, from the last to the first.
#[derive(Drop)]
pub enum Choice {
    /// The numbers make each given row true.
    Model(Valuation),
    /// A branch on the variable at k is due: its bounds allow a fraction, but no whole number.
    Stuck {
        variable: Variable,
        k: i128,
    },
    /// A product or a sum on the way to the row's value is not below 2^100 in absolute value. The
    /// steps make the row of the given rows, and the numbers are those that were chosen so far.
    Far {
        steps: StepList,
        row: Row,
        values: Valuation,
    },
}

// The place of the first row whose value has a product or a sum that is not below 2^100 in absolute
// value.
fn first_far(given: &[Row], values: &Valuation) -> Option<usize>
    ensures some { IfSome result (λ at. (at < length given.now)
        × ¬ FitsWithin term_limit (row_at (terms_of given.now) at) (number_at values.now)) }
    ensures none { IfNone result ((r : Linear) → Among r (terms_of given.now)
        → Fits r (number_at values.now)) }
{
    for at in 0..given.len() {
        if given[at].0.value_within(values, TERM_LIMIT).is_none() {
            return Some(at);
        }
    }
    None
}

// The given row at the place as one that is far.
fn given_far(
    alloc: Global,
    given: &[Row],
    at: usize,
    values: Valuation,
) -> Result<Choice, AllocError>
    requires count { length given.now < 2 ^ 32 }
    requires known { at < length given.now }
    requires far { ¬ FitsWithin term_limit (row_at (terms_of given.now) at) (number_at values) }
    requires chosen { AreLastChosen (terms_of given.now) (number_at values) }
    ensures { IfOk result (IsChoice (terms_of given.now)) }
{
    let mut steps = StepList::new(alloc);
    steps.push(RowStep::Given { at: at as u32 })?;
    let row = Row(given[at].0.copy()?);
    Ok(Choice::Far { steps, row, values })
}

// The row of the arena as one that is far.
fn derived_far(
    alloc: Global,
    arena: &Arena,
    at: u32,
    values: Valuation,
) -> Result<Choice, AllocError>
    requires known { at < length arena.now }
    requires far { ¬ FitsWithin term_limit (row_in arena.now at) (number_at values) }
    ensures { IfOk result (λ choice. (given : List Linear) → AreDerived given arena.now
        → AreLastChosen given (number_at values) → IsChoice given choice) }
{
    let steps = arena.steps_to(alloc, at)?;
    let row = Row(arena.row(at).copy()?);
    Ok(Choice::Far { steps, row, values })
}

/// Chooses a whole number for each variable, after the elimination of all variables was quiet.
pub fn choose(
    alloc: Global,
    given: &[Row],
    variables: &[u32],
    elimination: &Elimination,
) -> Result<Choice, AllocError>
    requires count { length given.now < 2 ^ 32 }
    requires quiet { IsQuietOutcome (terms_of given.now) variables.now elimination.now }
    requires variables { variables.now ≡ all_variables (terms_of given.now) }
    ensures { IfOk result (IsChoice (terms_of given.now)) }
{
    let mut values = Valuation::new(alloc);
    let mut left = variables;
    while let Some((number, before)) = left.split_last() {
        let x = Variable(*number);
        let rows = &elimination.stages[before.len()];
        match bounds_of(&elimination.arena, rows, x, &values) {
            Ok(bounds) => match bounds.nearest() {
                Ok(nearest) => values.set(x, nearest)?,
                Err(k) => return Ok(Choice::Stuck { variable: x, k }),
            },
            Err(at) => return derived_far(alloc, &elimination.arena, at, values),
        }
        left = before;
    }
    match first_far(given, &values) {
        Some(at) => given_far(alloc, given, at, values),
        None => Ok(Choice::Model(values)),
    }
}

ghost use Rattle.std.specs.Prelude.{◌≡◌, ◌+◌, ◌^◌, ◌<◌, ◌↔◌, ◌+ℤ◌, ◌*ℤ◌, unsigned_abs, length, slice_get, Some, IfSome, IsTrue, SomeIff};
ghost use Rattle.carol_formula.specs.Bounds.{IsBelow, value_limit};
ghost use Rattle.carol_cert.specs.Steps.{Closes, term_of};
ghost use Rattle.carol_cert.specs.Columns.{last_number, number_of, divided, number_made, AddsUp, Tightens, IsSound, numbers_made, AreSound, Vanishes, EachVanishes, cited, CitedVanish};
ghost use Rattle.carol_cert.specs.Numbers.{numbers_of, AreSmall};
ghost use Rattle.carol_cert.specs.Place.{claims_at, claim_of_item, IsPlace};

use crate::column::{
    Column, Numbers, item_entry, newest, number_at, quotient, reversed_entry, sum_of_multiples,
};
use crate::place::{Item, Place};
use crate::step::RowStep;
use carol_formula::{Formula, Variable};

/// Whether the steps close the list of formulas at the place. It takes no memory: the rows are
/// followed column by column, and a column is a chain of numbers on the stack. It stays a call,
/// since the check of a deep tree repeats its caller's frame.
#[inline(never)]
pub fn leaf_closes(place: &Place<'_>, steps: &[RowStep]) -> bool
    requires { IsPlace place.now }
    ensures { IsTrue result ↔ Closes (claims_at place.now) steps.now }
{
    match last(place, steps, &Column::Constant, &Numbers::Nil, 0) {
        Some(number) => {
            if number > 0 {
                cited_vanish(place, steps)
            } else {
                false
            }
        }
        None => false,
    }
}

// Whether each variable that the steps take from the formulas is gone in the last row.
fn cited_vanish(place: &Place<'_>, steps: &[RowStep]) -> bool
    requires { IsPlace place.now }
    ensures { IsTrue result ↔ CitedVanish (claims_at place.now) steps.now steps.now }
{
    let mut left = steps;
    while let [step, rest @ ..] = left {
        if !step_vanishes(place, steps, *step) {
            return false;
        }
        left = rest;
    }
    true
}

// Whether each variable that the step takes from the formulas is gone in the last row.
fn step_vanishes(place: &Place<'_>, steps: &[RowStep], step: RowStep) -> bool
    requires { IsPlace place.now }
    ensures { IsTrue result
        ↔ EachVanishes (claims_at place.now) steps.now (cited (claims_at place.now) step) }
{
    match step {
        RowStep::Given { at } => claim_vanishes(place, steps, at),
        RowStep::Reversed { at } => claim_vanishes(place, steps, at),
        _ => true,
    }
}

// Whether each variable of formula `at` is gone in the last row.
fn claim_vanishes(place: &Place<'_>, steps: &[RowStep], at: u32) -> bool
    requires { IsPlace place.now }
    ensures { IsTrue result
        ↔ EachVanishes (claims_at place.now) steps.now
        (term_of (slice_get (claims_at place.now) at)).pairs }
{
    match place.item(at) {
        Some(item) => item_vanishes(place, steps, &item),
        None => true,
    }
}

// Whether each variable of the item is gone in the last row.
fn item_vanishes(place: &Place<'_>, steps: &[RowStep], item: &Item<'_>) -> bool
    requires { IsPlace place.now }
    ensures { IsTrue result
        ↔ EachVanishes (claims_at place.now) steps.now
        (term_of (Some (claim_of_item item.now))).pairs }
{
    match item {
        Item::Whole(Formula::Le(term)) => each_vanishes(place, steps, term.pairs()),
        Item::Whole(Formula::Eq(term)) => each_vanishes(place, steps, term.pairs()),
        Item::Whole(_) => true,
        Item::Negative(term) => each_vanishes(place, steps, term.pairs()),
        Item::Positive(term) => each_vanishes(place, steps, term.pairs()),
        Item::AtMost(variable, _) => vanishes(place, steps, **variable),
        Item::AtLeast(variable, _) => vanishes(place, steps, **variable),
    }
}

// Whether each variable of the products is gone in the last row.
fn each_vanishes(place: &Place<'_>, steps: &[RowStep], pairs: &[(Variable, i128)]) -> bool
    requires { IsPlace place.now }
    ensures { IsTrue result ↔ EachVanishes (claims_at place.now) steps.now pairs.now }
{
    let mut left = pairs;
    while let [first, rest @ ..] = left {
        if !vanishes(place, steps, first.0) {
            return false;
        }
        left = rest;
    }
    true
}

// Whether the variable is gone in the last row.
fn vanishes(place: &Place<'_>, steps: &[RowStep], variable: Variable) -> bool
    requires { IsPlace place.now }
    ensures { IsTrue result ↔ Vanishes (claims_at place.now) steps.now variable }
{
    match last(
        place,
        steps,
        &Column::Coefficient(variable),
        &Numbers::Nil,
        0,
    ) {
        Some(number) => number == 0,
        None => false,
    }
}

// The number of the last row in the column, after more steps, where each of them is sound. `before`
// are the numbers of the rows so far, and `count` says how many they are.
fn last(
    place: &Place<'_>,
    steps: &[RowStep],
    column: &Column,
    before: &Numbers<'_>,
    count: usize,
) -> Option<i128>
    requires place { IsPlace place.now }
    requires count { count ≡ length (numbers_of before.now) }
    requires fits { count + length steps.now < 2 ^ 64 }
    requires small { AreSmall before.now }
    ensures { SomeIff result
        (AreSound column.now (claims_at place.now) (numbers_of before.now) steps.now)
        (last_number
        (numbers_made column.now (claims_at place.now) (numbers_of before.now) steps.now)) }
{
    match steps {
        [] => Some(newest(before)),
        [step, rest @ ..] => match made_number(place, *step, column, before, count) {
            Some(number) => last(
                place,
                rest,
                column,
                &Numbers::More(number, &*before),
                count + 1,
            ),
            None => None,
        },
    }
}

// The number that a step makes in the column, where it is sound.
fn made_number(
    place: &Place<'_>,
    step: RowStep,
    column: &Column,
    before: &Numbers<'_>,
    count: usize,
) -> Option<i128>
    requires place { IsPlace place.now }
    requires count { count ≡ length (numbers_of before.now) }
    requires small { AreSmall before.now }
    ensures value { SomeIff result
        (IsSound column.now (claims_at place.now) (numbers_of before.now) step)
        (number_made column.now (claims_at place.now) (numbers_of before.now) step) }
    ensures small { IfSome result (IsBelow value_limit) }
{
    match step {
        RowStep::Given { at } => match place.item(at) {
            Some(item) => item_entry(&item, column),
            None => None,
        },
        RowStep::Reversed { at } => match place.item(at) {
            Some(item) => reversed_entry(&item, column),
            None => None,
        },
        RowStep::Combine { a, m, b, n } => combined(before, count, a, m, b, n),
        RowStep::Tighten { a, d } => tightened(column, before, count, a, d),
    }
}

// The sum of two multiples, where it is sound.
fn combined(before: &Numbers<'_>, count: usize, a: u32, m: i128, b: u32, n: i128) -> Option<i128>
    requires count { count ≡ length (numbers_of before.now) }
    requires small { AreSmall before.now }
    ensures value { SomeIff result (AddsUp (numbers_of before.now) a m b n)
        ((m *ℤ number_of (numbers_of before.now) a)
        +ℤ (n *ℤ number_of (numbers_of before.now) b)) }
    ensures small { IfSome result (IsBelow value_limit) }
{
    if m < 0 || n < 0 {
        return None;
    }
    let first = number_at(before, count, a as usize)?;
    let second = number_at(before, count, b as usize)?;
    sum_of_multiples(m, first, n, second)
}

// The number divided, where that is sound.
fn tightened(column: &Column, before: &Numbers<'_>, count: usize, a: u32, d: i128) -> Option<i128>
    requires count { count ≡ length (numbers_of before.now) }
    requires small { AreSmall before.now }
    ensures value { SomeIff result (Tightens column.now (numbers_of before.now) a d)
        (divided column.now (unsigned_abs d) (number_of (numbers_of before.now) a)) }
    ensures small { IfSome result (IsBelow value_limit) }
{
    if d <= 0 {
        return None;
    }
    let number = number_at(before, count, a as usize)?;
    quotient(column, number, d)
}

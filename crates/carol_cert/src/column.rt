ghost use Rattle.std.specs.Prelude.{◌≡◌, ◌<◌, ◌<ℤ◌, ◌+ℤ◌, ◌*ℤ◌, pos, neg_ℤ, unsigned_abs, [], ◌∷◌, length, slice_get, Some, IfSome, SomeIff};
ghost use Rattle.carol_formula.specs.Bounds.{IsBelow, term_limit, value_limit};
ghost use Rattle.carol_cert.specs.PlainRow.{row_of};
ghost use Rattle.carol_cert.specs.Steps.{IsRow, IsEquation, term_of};
ghost use Rattle.carol_cert.specs.Columns.{entry_of, number_of, last_number, divided, CanDivide};
ghost use Rattle.carol_cert.specs.Numbers.{numbers_of, AreSmall};
ghost use Rattle.carol_cert.specs.Cases.{below_zero, above_zero};
ghost use Rattle.carol_cert.specs.Place.{claim_of_item, IsItem};

use crate::place::Item;
use carol_formula::{Formula, Term, VALUE_LIMIT, Variable, product_within, sum_within};

/// A column of the rows that steps make.
#[derive(Clone, Copy)]
pub enum Column {
    /// The coefficients of the variable.
    Coefficient(Variable),
    /// The constants.
    Constant,
}

/// The numbers of a column so far, as a chain that lies on the stack. The last comes first.
#[derive(Clone, Copy)]
pub enum Numbers<'a> {
    /// No numbers.
    Nil,
    /// The last number, and those before it.
    More(i128, &'a Numbers<'a>),
}

/// m times x plus n times y, where both products and the sum are below 2^126.
pub fn sum_of_multiples(m: i128, x: i128, n: i128, y: i128) -> Option<i128>
    ensures value { SomeIff result
        (IsBelow value_limit (m *ℤ x) × IsBelow value_limit (n *ℤ y)
        × IsBelow value_limit ((m *ℤ x) +ℤ (n *ℤ y)))
        ((m *ℤ x) +ℤ (n *ℤ y)) }
    ensures small { IfSome result (IsBelow value_limit) }
{
    let first = product_within(m, x, VALUE_LIMIT)?;
    let second = product_within(n, y, VALUE_LIMIT)?;
    sum_within(first, second, VALUE_LIMIT)
}

/// The number divided: a coefficient where nothing is left, and the constant rounded up, since on
/// the right of its row it is rounded down.
pub fn quotient(column: &Column, number: i128, divisor: i128) -> Option<i128>
    requires small { IsBelow value_limit number }
    requires positive { pos 0 <ℤ divisor }
    ensures value { SomeIff result (CanDivide column.now (unsigned_abs divisor) number)
        (divided column.now (unsigned_abs divisor) number) }
    ensures small { IfSome result (IsBelow value_limit) }
{
    match column {
        Column::Coefficient(_) => {
            if number.rem_euclid(divisor) == 0 {
                Some(number.div_euclid(divisor))
            } else {
                None
            }
        }
        Column::Constant => Some(-(-number).div_euclid(divisor)),
    }
}

/// The number of row `at`, where there are `count` rows so far.
pub fn number_at(numbers: &Numbers<'_>, count: usize, at: usize) -> Option<i128>
    requires count { count ≡ length (numbers_of numbers.now) }
    requires small { AreSmall numbers.now }
    ensures value { result ≡ slice_get (numbers_of numbers.now) at }
    ensures small { IfSome result (IsBelow value_limit) }
{
    let mut rest = numbers;
    let mut left = count;
    while let Numbers::More(number, before) = rest {
        left -= 1;
        if left == at {
            return Some(*number);
        }
        rest = before;
    }
    None
}

/// The last number, and 0 where there is none.
pub fn newest(numbers: &Numbers<'_>) -> i128
    ensures { result ≡ last_number (numbers_of numbers.now) }
{
    match numbers {
        Numbers::Nil => 0,
        Numbers::More(number, _) => *number,
    }
}

// The number of the term in the column.
fn term_entry(term: &Term, column: &Column) -> i128
    ensures value { result ≡ entry_of column.now (row_of term.now) }
    ensures below { IsBelow term_limit result }
{
    match column {
        Column::Coefficient(variable) => term.coefficient(*variable),
        Column::Constant => term.rest(),
    }
}

// The number of the term in the column with its sign turned.
fn turned_entry(term: &Term, column: &Column) -> i128
    ensures value { result ≡ neg_ℤ (entry_of column.now (row_of term.now)) }
    ensures small { IsBelow value_limit result }
{
    -term_entry(term, column)
}

/// The number of the item in the column, where the item is a row: a `Le` or an `Eq`.
pub fn item_entry(item: &Item<'_>, column: &Column) -> Option<i128>
    requires { IsItem item.now }
    ensures value { SomeIff result (IsRow (Some (claim_of_item item.now)))
        (entry_of column.now (row_of (term_of (Some (claim_of_item item.now))))) }
    ensures small { IfSome result (IsBelow value_limit) }
{
    match item {
        Item::Whole(Formula::Le(term)) => Some(term_entry(term, column)),
        Item::Whole(Formula::Eq(term)) => Some(term_entry(term, column)),
        Item::Whole(_) => None,
        Item::Negative(term) => Some(negative_entry(term, column)),
        Item::Positive(term) => Some(positive_entry(term, column)),
        Item::AtMost(variable, k) => Some(bound_entry(**variable, 1, -*k, column)),
        Item::AtLeast(variable, k) => Some(bound_entry(**variable, -1, *k, column)),
    }
}

// The number of `t + 1`.
fn negative_entry(term: &Term, column: &Column) -> i128
    ensures value { result ≡ entry_of column.now (row_of (term_of (Some (below_zero term.now)))) }
    ensures small { IsBelow value_limit result }
{
    match column {
        Column::Coefficient(_) => term_entry(term, column),
        Column::Constant => term.rest() + 1,
    }
}

// The number of `1 - t`.
fn positive_entry(term: &Term, column: &Column) -> i128
    ensures value { result ≡ entry_of column.now (row_of (term_of (Some (above_zero term.now)))) }
    ensures small { IsBelow value_limit result }
{
    match column {
        Column::Coefficient(_) => turned_entry(term, column),
        Column::Constant => 1 - term.rest(),
    }
}

// The number of a variable with a coefficient, and a constant.
fn bound_entry(variable: Variable, coefficient: i128, rest: i128, column: &Column) -> i128
    requires coefficient { IsBelow value_limit coefficient }
    requires rest { IsBelow value_limit rest }
    ensures value { result ≡ entry_of column.now
        (row_of (record { pairs = (variable, coefficient) ∷ []; rest = rest })) }
    ensures small { IsBelow value_limit result }
{
    match column {
        Column::Coefficient(other) => { if *other == variable { coefficient } else { 0 } }
        Column::Constant => rest,
    }
}

/// The number of the item in the column with its sign turned, where the item is an `Eq`.
pub fn reversed_entry(item: &Item<'_>, column: &Column) -> Option<i128>
    ensures value { SomeIff result (IsEquation (Some (claim_of_item item.now)))
        (neg_ℤ (entry_of column.now (row_of (term_of (Some (claim_of_item item.now)))))) }
    ensures small { IfSome result (IsBelow value_limit) }
{
    match item {
        Item::Whole(Formula::Eq(term)) => Some(turned_entry(term, column)),
        _ => None,
    }
}

ghost use Rattle.std.specs.Prelude.{ℤ, ◌≡◌, ◌↔◌, ◌<◌, ◌++◌, [], ◌∷◌, pos, ◌+ℤ◌, ◌*ℤ◌, ◌≤ℤ◌, ◌<ℤ◌, List, length, IfOk, IfErr, IfSome, IfNone};
ghost use Rattle.carol_formula.specs.Bounds.{IsBelow, term_limit};
ghost use Rattle.carol_formula.specs.Linear.{Linear};
ghost use Rattle.carol_formula.specs.Numbers.{number_at};
ghost use Rattle.carol_formula.specs.Value.{FitsWithin};
ghost use Rattle.carol_elimination.specs.Entries.{row_in, rows_in, AreInside};
ghost use Rattle.carol_elimination.specs.Limits.{AreBounds};

use crate::Arena;
use crate::bounds::{Bounds, greater, lesser};
use carol_formula::{TERM_LIMIT, Term, Valuation, Variable};

// The greatest z at which `rest + coefficient * z` is at most 0.
fn upper_bound(coefficient: i128, rest: i128) -> i128
    requires positive { pos 0 <ℤ coefficient }
    requires small { IsBelow term_limit rest }
    ensures exact { (z : ℤ) → ((rest +ℤ (coefficient *ℤ z)) ≤ℤ pos 0) ↔ (z ≤ℤ result) }
    ensures small { IsBelow term_limit result }
{
    (-rest).div_euclid(coefficient)
}

// The least z at which `rest + coefficient * z` is at most 0.
fn lower_bound(coefficient: i128, rest: i128) -> i128
    requires negative { coefficient <ℤ pos 0 }
    requires coefficient { IsBelow term_limit coefficient }
    requires small { IsBelow term_limit rest }
    ensures exact { (z : ℤ) → ((rest +ℤ (coefficient *ℤ z)) ≤ℤ pos 0) ↔ (result ≤ℤ z) }
    ensures small { IsBelow term_limit result }
{
    -upper_bound(-coefficient, rest)
}

// The bounds after one row more, whose other variables have the given values. None where the row's
// value has a product or a sum that is not below 2^100 in absolute value.
fn narrowed(bounds: Bounds, row: &Term, x: Variable, values: &Valuation) -> Option<Bounds>
    requires { number_at values.now x ≡ pos 0 }
    ensures some { IfSome result (λ b. (rows : List Linear)
        → AreBounds x rows (number_at values.now) bounds
        → AreBounds x (rows ++ row.now ∷ []) (number_at values.now) b) }
    ensures none { IfNone result (¬ FitsWithin term_limit row.now (number_at values.now)) }
{
    let coefficient = row.coefficient(x);
    if coefficient == 0 {
        return Some(bounds);
    }
    let rest = row.value_within(values, TERM_LIMIT)?;
    if coefficient > 0 {
        let bound = upper_bound(coefficient, rest);
        Some(Bounds {
            low: bounds.low,
            high: Some(lesser(bounds.high, bound)),
        })
    } else {
        let bound = lower_bound(coefficient, rest);
        Some(Bounds {
            low: Some(greater(bounds.low, bound)),
            high: bounds.high,
        })
    }
}

/// The bounds that the rows set to the variable, whose value is 0 so far. The error is the number
/// of a row whose value has a product or a sum that is not below 2^100 in absolute value.
pub fn bounds_of(
    arena: &Arena,
    rows: &[u32],
    x: Variable,
    values: &Valuation,
) -> Result<Bounds, u32>
    requires inside { AreInside arena.now rows.now }
    requires zero { number_at values.now x ≡ pos 0 }
    ensures ok { IfOk result
        (AreBounds x (rows_in arena.now rows.now) (number_at values.now)) }
    ensures err { IfErr result (λ at. (at < length arena.now)
        × ¬ FitsWithin term_limit (row_in arena.now at) (number_at values.now)) }
{
    let mut bounds = Bounds::new();
    for at in rows {
        match narrowed(bounds, arena.row(*at), x, values) {
            Some(more) => bounds = more,
            None => return Err(*at),
        }
    }
    Ok(bounds)
}

ghost use Rattle.std.specs.Prelude.{◌≡◌, ◌≢◌, ◌<◌, ◌^◌, true, pos, IfOk};
ghost use Rattle.carol_formula.specs.Bounds.{IsBelow, term_limit};
ghost use Rattle.carol_formula.specs.Linear.{IsTerm};
ghost use Rattle.carol_elimination.specs.Tightened.{content, divided};
ghost use Rattle.carol_elimination.specs.Stage.{is_upper, is_lower, multiplier};
ghost use Rattle.carol_elimination.specs.Reasons.{IsNarrowPair};
ghost use Rattle.carol_elimination.specs.Combination.{IsCombinationOf};

use crate::divisor;
use carol_formula::{Term, TermError, Variable};
use std::alloc::AllocError;

/// The least positive combination of two rows that cancels a variable: `m` times the one and `n`
/// times the other.
#[derive(Drop)]
pub struct Combination {
    pub m: i128,
    pub n: i128,
    pub row: Term,
}

// How often a row is taken whose variable has the coefficient `own`, so that it cancels with
// `other`.
fn multiplier(own: i128, other: i128) -> i128
    requires own { own ≢ pos 0 }
    requires other { IsBelow term_limit other }
    ensures { result ≡ multiplier own other }
{
    let size = other.unsigned_abs();
    (size / divisor(own.unsigned_abs(), size)) as i128
}

/// The least combination of a row that bounds the variable above and one that bounds it below.
/// `TooWide` comes where a product or a sum of it is not below 2^100 in absolute value.
pub fn combine(x: Variable, upper: &Term, lower: &Term) -> Result<Combination, TermError>
    requires above { is_upper x upper.now ≡ true }
    requires below { is_lower x lower.now ≡ true }
    ensures ok { IfOk result (λ c. IsCombinationOf x upper.now lower.now c) }
    ensures too_wide { result ≡ Err TermError.TooWide → ¬ IsNarrowPair x upper.now lower.now }
{
    let rise = upper.coefficient(x);
    let fall = lower.coefficient(x);
    let m = multiplier(rise, fall);
    let n = multiplier(fall, rise);
    let first = upper.scale(m)?;
    let second = lower.scale(n)?;
    let row = first.add(&second)?;
    Ok(Combination { m, n, row })
}

/// The greatest common divisor of the coefficients, and 0 where there is none.
pub fn content(term: &Term) -> u128
    ensures value { result ≡ content term.now.pairs }
    ensures small { result < 2 ^ 100 }
{
    let mut sofar = 0;
    let mut left = term.pairs();
    while let Some((pair, more)) = left.split_first() {
        sofar = divisor(sofar, pair.1.unsigned_abs());
        left = more;
    }
    sofar
}

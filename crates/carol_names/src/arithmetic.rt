ghost use Rattle.std.specs.Prelude.{◌≡◌, ◌≢◌, ℕ, ◌≤◌, ◌^◌, ◌+◌, ◌*◌, IfOk, IfSome, pos, unsigned_abs, ◌+ℤ◌, ◌<◌, length};
ghost use Rattle.carol_formula.specs.Linear.{constant_of, sum_of, scaled, difference_of};
ghost use Rattle.carol_names.specs.Bounded.{IsBounded, most_value, most_product, most_sum};

use carol_formula::{Term, TermError};
use std::alloc::AllocError;

/// A value times a factor.
pub(crate) fn multiply(term: &Term, by: i128) -> Result<Term, AllocError>
    requires term { IsBounded most_value term.now }
    requires factor { unsigned_abs by ≤ 10 ^ 12 }
    ensures product { IfOk result (λ t. t ≡ scaled by term.now) }
    ensures bounded { IfOk result (IsBounded most_product) }
{
    let _pairs = term.pairs();
    match term.scale(by) {
        Ok(product) => Ok(product),
        Err(TermError::NoMemory) => Err(AllocError),
        Err(TermError::TooWide) => unreachable!(),
    }
}

/// The sum of terms whose numbers are bounded.
pub fn plus(one: &Term, other: &Term) -> Result<Term, AllocError>
    requires one { IsBounded (most_sum + most_sum) one.now }
    requires other { IsBounded most_sum other.now }
    ensures { IfOk result (λ t. t ≡ sum_of one.now other.now) }
{
    let _pairs = one.pairs();
    match one.add(other) {
        Ok(sum) => Ok(sum),
        Err(TermError::NoMemory) => Err(AllocError),
        Err(TermError::TooWide) => unreachable!(),
    }
}

/// The difference of terms that are bounded.
pub(crate) fn minus(one: &Term, other: &Term) -> Result<Term, AllocError>
    requires one { IsBounded most_sum one.now }
    requires other { IsBounded most_sum other.now }
    ensures difference { IfOk result (λ t. t ≡ difference_of one.now other.now) }
    ensures bounded { IfOk result (IsBounded (most_sum + most_sum)) }
{
    let _pairs = one.pairs();
    match one.sub(other) {
        Ok(difference) => Ok(difference),
        Err(TermError::NoMemory) => Err(AllocError),
        Err(TermError::TooWide) => unreachable!(),
    }
}

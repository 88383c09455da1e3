ghost use Rattle.std.specs.Prelude.{◌≡◌, [], ◌++◌, ◌∷◌, ℤ, pos, ◌+ℤ◌, IfOk};
ghost use Rattle.carol_formula.specs.Bounds.{IsBelow, term_limit};
ghost use Rattle.carol_formula.specs.Linear.{constant_of, variable_of, sum_of, scaled};
ghost use Rattle.carol_cert.specs.Proof.{Branch, proof_of};

use crate::place::Covered;
use carol_cert::Refutation;
use carol_formula::{Boxed, Row, Term, TermError, Variable};
use std::alloc::{AllocError, Global};

/// A branch on the way to a place, where the variable is at most `k` on the low side and at least
/// `k + 1` on the high side.
#[derive(Drop)]
pub struct Frame {
    pub variable: Variable,
    pub k: i128,
    /// The tree of the low side, as soon as it is finished: then the way goes by the high side.
    pub low: Option<Refutation>,
    /// The row that the branch's row covers.
    pub covered: Option<Covered>,
    ghost small: { IsBelow term_limit k },
    ghost next_small: { IsBelow term_limit (k +ℤ pos 1) },
}

impl Frame {
    ghost use Rattle.carol_linear.specs.Path.{frame_row};

    /// The row of the side by which the way goes.
    pub fn row(&self, alloc: Global) -> Result<Row, AllocError>
        ensures { IfOk result (λ r. r.0 ≡ frame_row self.now) }
    {
        match &self.low {
            None => bound(alloc, self.variable, 1, -self.k),
            Some(_) => bound(alloc, self.variable, -1, self.k + 1),
        }
    }
}

// `by` times the variable and the constant, at most 0.
fn bound(alloc: Global, variable: Variable, by: i128, rest: i128) -> Result<Row, AllocError>
    requires { IsBelow term_limit rest }
    ensures { IfOk result (λ r. r.0
        ≡ sum_of (scaled by (variable_of variable)) (constant_of rest)) }
{
    let one = Term::variable(alloc, variable)?;
    match summed(&one, by, &Term::constant(alloc, rest)) {
        Ok(term) => Ok(Row(term)),
        Err(_) => Err(AllocError),
    }
}

// `by` times one term and the other.
fn summed(one: &Term, by: i128, other: &Term) -> Result<Term, TermError>
    ensures { IfOk result (λ t. t ≡ sum_of (scaled by one.now) other.now) }
{
    let scaled = one.scale(by)?;
    let sum = scaled.add(other)?;
    Ok(sum)
}

/// The tree of a branch whose sides are finished.
pub fn branch(
    alloc: Global,
    variable: Variable,
    k: i128,
    low: Refutation,
    high: Refutation,
) -> Result<Refutation, AllocError>
    ensures { IfOk result (λ tree. proof_of tree
        ≡ Branch variable k (proof_of low) (proof_of high)) }
{
    let low = Boxed::new(alloc, low)?;
    let high = Boxed::new(alloc, high)?;
    Ok(Refutation::Branch {
        variable,
        k,
        low,
        high,
    })
}

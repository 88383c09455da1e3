//! Renaming: a term or a formula with a term in place of each variable, all at once.
ghost use Rattle.std.specs.Prelude.{ℕ, ℤ, ◌≡◌, ◌+◌, ◌*◌, ◌<◌, ◌≤◌, IfOk, unsigned_abs};
ghost use Rattle.carol_formula.specs.Bounds.{term_limit};
ghost use Rattle.carol_formula.specs.Claim as claim;
ghost use Rattle.carol_formula.specs.Claim.{truth, EachTerm};
ghost use Rattle.carol_formula.specs.Linear.{sum_of, scaled};
ghost use Rattle.carol_formula.specs.Tree.{claim_of};
ghost use Rattle.carol_formula.specs.Value.{value_at};
ghost use Rattle.carol_formula.specs.Named.{IsNameable, IsNameableClaim, named_term, named_claim, named_weight, through};
ghost use Rattle.carol_formula.specs.Weight.{weight};

use crate::{Boxed, Formula, Term, TermError, Variable};
use std::alloc::{AllocError, Global};

/// What gives each variable a term that stands for it.
pub trait Naming {
    ghost use Rattle.std.specs.Prelude.{ℕ, ◌≡◌, IfOk};
    ghost use Rattle.carol_formula.specs.Linear.{Linear};

    ghost name_of: { Self → ℕ → Linear };

    ghost can_name: { Self → ℕ → Type 0 };

    /// The term that stands for the variable.
    fn name(&self, alloc: Global, v: Variable) -> Result<Term, AllocError>
        requires { can_name self.now v }
        ensures { IfOk result (λ t. t ≡ name_of self.now v) };
}

// `by` times the term.
fn times(term: &Term, by: i128) -> Result<Term, AllocError>
    requires { unsigned_abs by * weight term.now < term_limit }
    ensures { IfOk result (λ t. t ≡ scaled by term.now) }
{
    match term.scale(by) {
        Ok(product) => Ok(product),
        Err(TermError::NoMemory) => Err(AllocError),
        Err(TermError::TooWide) => unreachable!(),
    }
}

/// The sum of two terms that are light enough for a term.
pub fn plus(one: &Term, other: &Term) -> Result<Term, AllocError>
    requires { weight one.now + weight other.now < term_limit }
    ensures { IfOk result (λ t. t ≡ sum_of one.now other.now) }
{
    match one.add(other) {
        Ok(sum) => Ok(sum),
        Err(TermError::NoMemory) => Err(AllocError),
        Err(TermError::TooWide) => unreachable!(),
    }
}

// A sum and `by` times the variable's term.
fn plus_name<N: Naming>(
    alloc: Global,
    sum: &Term,
    v: Variable,
    by: i128,
    naming: &N,
) -> Result<Term, AllocError>
    requires named { N.can_name naming.now v }
    requires light { weight sum.now + (unsigned_abs by * weight (N.name_of naming.now v))
        < term_limit }
    ensures { IfOk result (λ t. t ≡ sum_of sum.now (scaled by (N.name_of naming.now v))) }
{
    let name = naming.name(alloc, v)?;
    let product = times(&name, by)?;
    plus(sum, &product)
}

/// The term with the term of each variable in its place.
pub fn renamed_term<N: Naming>(alloc: Global, term: &Term, naming: &N) -> Result<Term, AllocError>
    requires { IsNameable (N.can_name naming.now) (N.name_of naming.now) term.now }
    ensures term { IfOk result (λ t. t ≡ named_term (N.name_of naming.now) term.now) }
    ensures value { IfOk result (λ t. (at : ℕ → ℤ) →
        value_at t at ≡ value_at term.now (through (N.name_of naming.now) at)) }
    ensures weight { IfOk result (λ t. weight t ≤ named_weight (N.name_of naming.now) term.now) }
{
    let mut sum = Term::constant(alloc, term.rest());
    let mut left = term.pairs();
    while let Some((product, more)) = left.split_first() {
        sum = plus_name(alloc, &sum, product.0, product.1, naming)?;
        left = more;
    }
    Ok(sum)
}

/// The formula with the term of each variable in its place: true exactly where the formula is true
/// of the values of these terms.
pub fn renamed<N: Naming>(
    alloc: Global,
    formula: &Formula,
    naming: &N,
) -> Result<Formula, AllocError>
    requires { IsNameableClaim (N.can_name naming.now) (N.name_of naming.now)
        (claim_of formula.now) }
    ensures claim { IfOk result (λ f.
        claim_of f ≡ named_claim (N.name_of naming.now) (claim_of formula.now)) }
    ensures truth { IfOk result (λ f. (at : ℕ → ℤ) → truth (claim_of f) at
        ≡ truth (claim_of formula.now) (through (N.name_of naming.now) at)) }
    ensures weight { IfOk result (λ f. (most : ℕ) →
        EachTerm (λ t. named_weight (N.name_of naming.now) t ≤ most) (claim_of formula.now) →
        EachTerm (λ t. weight t ≤ most) (claim_of f)) }
{
    Ok(part(alloc, formula, naming)?.into_inner())
}

// The renamed formula. What makes a formula is a function of its own, so that a call that goes down
// a formula keeps a small frame for each level.
fn part<N: Naming>(
    alloc: Global,
    formula: &Formula,
    naming: &N,
) -> Result<Boxed<Formula>, AllocError>
    requires { IsNameableClaim (N.can_name naming.now) (N.name_of naming.now)
        (claim_of formula.now) }
    ensures { IfOk result (λ f.
        claim_of f ≡ named_claim (N.name_of naming.now) (claim_of formula.now)) }
{
    match formula {
        Formula::True => boxed(alloc, Formula::True),
        Formula::False => boxed(alloc, Formula::False),
        Formula::Le(term) => boxed(alloc, Formula::Le(renamed_term(alloc, term, naming)?)),
        Formula::Eq(term) => boxed(alloc, Formula::Eq(renamed_term(alloc, term, naming)?)),
        Formula::Ne(term) => boxed(alloc, Formula::Ne(renamed_term(alloc, term, naming)?)),
        Formula::And(left, right) => {
            let left = part(alloc, left.get(), naming)?;
            let right = part(alloc, right.get(), naming)?;
            boxed(alloc, Formula::And(left, right))
        }
        Formula::Or(left, right) => {
            let left = part(alloc, left.get(), naming)?;
            let right = part(alloc, right.get(), naming)?;
            boxed(alloc, Formula::Or(left, right))
        }
        Formula::Not(inner) => {
            let inner = part(alloc, inner.get(), naming)?;
            boxed(alloc, Formula::Not(inner))
        }
    }
}

#[inline(never)]
fn boxed(alloc: Global, formula: Formula) -> Result<Boxed<Formula>, AllocError>
    ensures { IfOk result (λ f. f ≡ formula) }
{
    Boxed::new(alloc, formula)
}

ghost use Rattle.std.specs.Prelude.{ℕ, ℤ, ◌≡◌, ◌≤◌, ◌<◌, ◌+◌, ◌*◌, ◌^◌, min, true, false, not, IsTrue, ◌↔◌, IfOk, pos, if◌then◌else◌};
ghost use Rattle.carol_formula.specs.Bounds.{term_limit, narrow_limit};
ghost use Rattle.carol_formula.specs.Claim as claim;
ghost use Rattle.carol_formula.specs.Claim.{truth, ClaimFits, ClaimWithin, HasNoNot, with_term, without_not, cases_of};
ghost use Rattle.carol_formula.specs.Linear.{IsWithin, constant_of, difference_of, replaced};
ghost use Rattle.carol_formula.specs.Size.{nodes_of};
ghost use Rattle.carol_formula.specs.Tree.{claim_of, comparing, rank_of};
ghost use Rattle.carol_formula.specs.Value.{value_at, set_at};

use crate::boxed::Boxed;
use crate::term::{Term, TermError};
use crate::variable::{Lookup, Variable};
use std::alloc::{AllocError, Global};

/// A formula. `Le`, `Eq` and `Ne` compare their term with 0.
#[derive(Debug)]
pub enum Formula {
    True,
    False,
    Le(Term),
    Eq(Term),
    Ne(Term),
    And(Boxed<Formula>, Boxed<Formula>),
    Or(Boxed<Formula>, Boxed<Formula>),
    Not(Boxed<Formula>),
}

// How a term is compared with 0.
#[derive(Clone, Copy, PartialEq, Eq)]
enum Comparison {
    Le,
    Eq,
    Ne,
}

// A loop, so that it takes no stack, however deep the formula is. Of two parts the left one is
// taken apart first: its own right part goes before the right one, in the box that it leaves.
impl Drop for Formula {
    fn drop(mut self) {
        loop {
            match self {
                Formula::True | Formula::False => return,
                Formula::Le(_) | Formula::Eq(_) | Formula::Ne(_) => return,
                Formula::Not(inner) => self = inner.into_inner(),
                Formula::And(mut left, right) | Formula::Or(mut left, right) => {
                    if left.get().has_parts() {
                        let first = left.replace(Formula::True);
                        let (next, _emptied) = first.turned(left, right);
                        self = next;
                    } else {
                        let _leaf = left.into_inner();
                        self = right.into_inner();
                    }
                }
            }
        }
    }
}

// What every larger number of cases is counted as.
const MOST_CASES: u32 = 1_000_001;

// The product of two numbers of cases.
fn product(a: u32, b: u32) -> u32
    requires a_most { a ≤ MOST_CASES }
    requires b_most { b ≤ MOST_CASES }
    ensures { result ≡ min (a * b) MOST_CASES }
{
    let cases = (u64::from(a) * u64::from(b)).min(u64::from(MOST_CASES));
    cases as u32
}

impl Formula {
    // The formula has formulas as its parts.
    fn has_parts(&self) -> bool
        ensures { IsTrue result ↔ (1 < rank_of self.now) }
    {
        match self {
            Formula::And(_, _) | Formula::Or(_, _) | Formula::Not(_) => true,
            _ => false,
        }
    }

    // What is left to be dropped of this left part, taken out of its box, and of the right part;
    // and what stood in the box.
    fn turned(self, mut emptied: Boxed<Formula>, right: Boxed<Formula>) -> (Formula, Formula)
        requires parts { 1 < rank_of self }
        ensures falls { rank_of result.0 ≤ rank_of self + rank_of self + rank_of right }
        ensures emptied { result.1 ≡ emptied }
    {
        match self {
            Formula::And(first, second) | Formula::Or(first, second) => {
                let was = emptied.replace(Formula::And(second, right));
                (Formula::And(first, emptied), was)
            }
            Formula::Not(inner) => (Formula::And(inner, right), emptied.into_inner()),
            _ => unreachable!(),
        }
    }

    /// The truth of the formula. The numbers are to fit each of its terms, as `fits` tells.
    pub fn holds<L: Lookup>(&self, at: &L) -> bool
        requires { ClaimFits (claim_of self.now) (L.numbers at.now) }
        ensures { result ≡ truth (claim_of self.now) (L.numbers at.now) }
    {
        match self {
            Formula::True => true,
            Formula::False => false,
            Formula::Le(term) => term.value(at) <= 0,
            Formula::Eq(term) => term.value(at) == 0,
            Formula::Ne(term) => term.value(at) != 0,
            Formula::And(left, right) => left.get().holds(at) && right.get().holds(at),
            Formula::Or(left, right) => left.get().holds(at) || right.get().holds(at),
            Formula::Not(inner) => !inner.get().holds(at),
        }
    }

    /// The numbers fit each term of the formula.
    pub fn fits<L: Lookup>(&self, at: &L) -> bool
        ensures { IsTrue result ↔ ClaimFits (claim_of self.now) (L.numbers at.now) }
    {
        match self {
            Formula::True | Formula::False => true,
            Formula::Le(term) | Formula::Eq(term) | Formula::Ne(term) => term.fits(at),
            Formula::And(left, right) | Formula::Or(left, right) => {
                left.get().fits(at) && right.get().fits(at)
            }
            Formula::Not(inner) => inner.get().fits(at),
        }
    }

    /// Whether each coefficient and constant of the formula is below the limit in absolute value.
    pub fn is_within(&self, limit: u128) -> bool
        ensures { IsTrue result ↔ ClaimWithin limit (claim_of self.now) }
    {
        match self {
            Formula::True | Formula::False => true,
            Formula::Le(term) | Formula::Eq(term) | Formula::Ne(term) => term.is_within(limit),
            Formula::And(left, right) | Formula::Or(left, right) => {
                left.get().is_within(limit) && right.get().is_within(limit)
            }
            Formula::Not(inner) => inner.get().is_within(limit),
        }
    }

    /// The formula with a term in place of a variable. `TooWide` comes where a coefficient or a
    /// constant of the true result is not below 2^100 in absolute value.
    pub fn substitute(&self, alloc: Global, v: Variable, by: &Term) -> Result<Formula, TermError>
        ensures ok { IfOk result (λ f. (claim_of f ≡ with_term v by.now (claim_of self.now))
            × ClaimWithin term_limit (claim_of f)) }
        ensures truth { IfOk result (λ f. (at : ℕ → ℤ)
            → truth (claim_of f) at
            ≡ truth (claim_of self.now) (set_at v (value_at by.now at) at)) }
        ensures too_wide { result ≡ Err TermError.TooWide
            → ¬ ClaimWithin term_limit (with_term v by.now (claim_of self.now)) }
    {
        Ok(self.replaced(alloc, v, by)?.into_inner())
    }

    fn replaced(&self, alloc: Global, v: Variable, by: &Term) -> Result<Boxed<Formula>, TermError>
        ensures ok { IfOk result (λ f. (claim_of f ≡ with_term v by.now (claim_of self.now))
            × ClaimWithin term_limit (claim_of f)) }
        ensures too_wide { result ≡ Err TermError.TooWide
            → ¬ ClaimWithin term_limit (with_term v by.now (claim_of self.now)) }
    {
        match self {
            Formula::True => Ok(truth_value(alloc, true)?),
            Formula::False => Ok(truth_value(alloc, false)?),
            Formula::Le(term) => replaced(alloc, Comparison::Le, term, v, by),
            Formula::Eq(term) => replaced(alloc, Comparison::Eq, term, v, by),
            Formula::Ne(term) => replaced(alloc, Comparison::Ne, term, v, by),
            Formula::And(left, right) => {
                let left = left.get().replaced(alloc, v, by)?;
                let right = right.get().replaced(alloc, v, by)?;
                Ok(and(alloc, left, right)?)
            }
            Formula::Or(left, right) => {
                let left = left.get().replaced(alloc, v, by)?;
                let right = right.get().replaced(alloc, v, by)?;
                Ok(or(alloc, left, right)?)
            }
            Formula::Not(inner) => {
                let inner = inner.get().replaced(alloc, v, by)?;
                Ok(not(alloc, inner)?)
            }
        }
    }

    /// The formula without `Not`, with the same truth. It is to be narrow: each coefficient and
    /// constant is below 2^90 in absolute value.
    pub fn negation_form(&self, alloc: Global) -> Result<Formula, AllocError>
        requires { ClaimWithin narrow_limit (claim_of self.now) }
        ensures form { IfOk result (λ f. claim_of f ≡ without_not true (claim_of self.now)) }
        ensures truth { IfOk result (λ f. (at : ℕ → ℤ)
            → truth (claim_of f) at ≡ truth (claim_of self.now) at) }
        ensures no_not { IfOk result (λ f. HasNoNot (claim_of f)) }
    {
        Ok(self.signed_form(alloc, true)?.into_inner())
    }

    /// The formula's denial without `Not`. The formula is to be narrow, as for `negation_form`.
    pub fn denial_form(&self, alloc: Global) -> Result<Formula, AllocError>
        requires { ClaimWithin narrow_limit (claim_of self.now) }
        ensures form { IfOk result (λ f. claim_of f ≡ without_not false (claim_of self.now)) }
        ensures truth { IfOk result (λ f. (at : ℕ → ℤ)
            → truth (claim_of f) at ≡ not (truth (claim_of self.now) at)) }
        ensures no_not { IfOk result (λ f. HasNoNot (claim_of f)) }
    {
        Ok(self.signed_form(alloc, false)?.into_inner())
    }

    // The formula, or its denial, without `Not`.
    fn signed_form(&self, alloc: Global, is_positive: bool) -> Result<Boxed<Formula>, AllocError>
        requires { ClaimWithin narrow_limit (claim_of self.now) }
        ensures { IfOk result (λ f. claim_of f ≡ without_not is_positive (claim_of self.now)) }
    {
        match self {
            Formula::True => truth_value(alloc, is_positive),
            Formula::False => truth_value(alloc, !is_positive),
            Formula::Le(term) => inequality(alloc, is_positive, term),
            Formula::Eq(term) => equation(alloc, is_positive, term),
            Formula::Ne(term) => equation(alloc, !is_positive, term),
            Formula::And(left, right) => {
                let left = left.get().signed_form(alloc, is_positive)?;
                let right = right.get().signed_form(alloc, is_positive)?;
                junction(alloc, is_positive, left, right)
            }
            Formula::Or(left, right) => {
                let left = left.get().signed_form(alloc, is_positive)?;
                let right = right.get().signed_form(alloc, is_positive)?;
                junction(alloc, !is_positive, left, right)
            }
            Formula::Not(inner) => inner.get().signed_form(alloc, !is_positive),
        }
    }

    /// Both formulas.
    pub fn and(alloc: Global, left: Formula, right: Formula) -> Result<Formula, AllocError>
        ensures { IfOk result (λ f. claim_of f ≡ claim.And (claim_of left) (claim_of right)) }
    {
        let left = Boxed::new(alloc, left)?;
        let right = Boxed::new(alloc, right)?;
        Ok(Formula::And(left, right))
    }

    /// One of the formulas.
    pub fn or(alloc: Global, left: Formula, right: Formula) -> Result<Formula, AllocError>
        ensures { IfOk result (λ f. claim_of f ≡ claim.Or (claim_of left) (claim_of right)) }
    {
        let left = Boxed::new(alloc, left)?;
        let right = Boxed::new(alloc, right)?;
        Ok(Formula::Or(left, right))
    }

    /// The denial of a formula.
    pub fn not(alloc: Global, formula: Formula) -> Result<Formula, AllocError>
        ensures { IfOk result (λ f. claim_of f ≡ claim.Not (claim_of formula)) }
    {
        let inner = Boxed::new(alloc, formula)?;
        Ok(Formula::Not(inner))
    }

    /// How many nodes the formula has, a comparison counted as one.
    pub fn nodes(&self) -> u32
        requires { nodes_of (claim_of self.now) < 2 ^ 32 }
        ensures { result ≡ nodes_of (claim_of self.now) }
    {
        match self {
            Formula::And(one, other) | Formula::Or(one, other) => one.get().nodes()
                + other.get().nodes()
                + 1,
            Formula::Not(inner) => inner.get().nodes() + 1,
            _ => 1,
        }
    }

    /// The number of cases of a formula without `Not`. A count above 1,000,000 is answered as
    /// 1,000,001.
    pub fn cases(&self) -> u32
        ensures { result ≡ min (cases_of (claim_of self.now)) 1000001 }
    {
        match self {
            Formula::And(left, right) => product(left.get().cases(), right.get().cases()),
            Formula::Or(left, right) => (left.get().cases() + right.get().cases()).min(MOST_CASES),
            Formula::Ne(_) => 2,
            _ => 1,
        }
    }

    /// An equal formula.
    pub fn copy(&self, alloc: Global) -> Result<Formula, AllocError>
        ensures { IfOk result (λ f. f ≡ self.now) }
    {
        Ok(self.copied(alloc)?.into_inner())
    }

    fn copied(&self, alloc: Global) -> Result<Boxed<Formula>, AllocError>
        ensures { IfOk result (λ f. f ≡ self.now) }
    {
        match self {
            Formula::True => truth_value(alloc, true),
            Formula::False => truth_value(alloc, false),
            Formula::Le(term) => copied(alloc, Comparison::Le, term),
            Formula::Eq(term) => copied(alloc, Comparison::Eq, term),
            Formula::Ne(term) => copied(alloc, Comparison::Ne, term),
            Formula::And(left, right) => {
                let left = left.get().copied(alloc)?;
                let right = right.get().copied(alloc)?;
                and(alloc, left, right)
            }
            Formula::Or(left, right) => {
                let left = left.get().copied(alloc)?;
                let right = right.get().copied(alloc)?;
                or(alloc, left, right)
            }
            Formula::Not(inner) => {
                let inner = inner.get().copied(alloc)?;
                not(alloc, inner)
            }
        }
    }
}

// A call that goes down a formula keeps a frame for each level. So the formulas that it makes stand
// behind a `Boxed`, and what makes one is a function of its own.

#[inline(never)]
fn truth_value(alloc: Global, is_true: bool) -> Result<Boxed<Formula>, AllocError>
    ensures { IfOk result (λ f. f ≡ (if is_true then Formula.True else Formula.False)) }
{
    if is_true {
        return Boxed::new(alloc, Formula::True);
    }
    Boxed::new(alloc, Formula::False)
}

// The comparison of the term with 0.
#[inline(never)]
fn compared(alloc: Global, comparison: Comparison, term: Term) -> Result<Boxed<Formula>, AllocError>
    ensures { IfOk result (λ f. f ≡ comparing comparison term) }
{
    match comparison {
        Comparison::Le => Boxed::new(alloc, Formula::Le(term)),
        Comparison::Eq => Boxed::new(alloc, Formula::Eq(term)),
        Comparison::Ne => Boxed::new(alloc, Formula::Ne(term)),
    }
}

// The comparison of an equal term with 0.
fn copied(alloc: Global, comparison: Comparison, term: &Term) -> Result<Boxed<Formula>, AllocError>
    ensures { IfOk result (λ f. f ≡ comparing comparison term.now) }
{
    compared(alloc, comparison, term.copy()?)
}

// The comparison of the term, with another in place of a variable, with 0.
#[inline(never)]
fn replaced(
    alloc: Global,
    comparison: Comparison,
    term: &Term,
    v: Variable,
    by: &Term,
) -> Result<Boxed<Formula>, TermError>
    ensures ok { IfOk result (λ f. (f ≡ comparing comparison (replaced v by.now term.now))
        × IsWithin term_limit (replaced v by.now term.now)) }
    ensures too_wide { result ≡ Err TermError.TooWide
        → ¬ IsWithin term_limit (replaced v by.now term.now) }
{
    let term = term.replace(v, by)?;
    Ok(compared(alloc, comparison, term)?)
}

#[inline(never)]
fn and(
    alloc: Global,
    left: Boxed<Formula>,
    right: Boxed<Formula>,
) -> Result<Boxed<Formula>, AllocError>
    ensures { IfOk result (λ f. f ≡ Formula.And left right) }
{
    Boxed::new(alloc, Formula::And(left, right))
}

#[inline(never)]
fn or(
    alloc: Global,
    left: Boxed<Formula>,
    right: Boxed<Formula>,
) -> Result<Boxed<Formula>, AllocError>
    ensures { IfOk result (λ f. f ≡ Formula.Or left right) }
{
    Boxed::new(alloc, Formula::Or(left, right))
}

#[inline(never)]
fn not(alloc: Global, inner: Boxed<Formula>) -> Result<Boxed<Formula>, AllocError>
    ensures { IfOk result (λ f. f ≡ Formula.Not inner) }
{
    Boxed::new(alloc, Formula::Not(inner))
}

// Both parts, or one of them where it is a denial.
fn junction(
    alloc: Global,
    is_and: bool,
    left: Boxed<Formula>,
    right: Boxed<Formula>,
) -> Result<Boxed<Formula>, AllocError>
    ensures { IfOk result (λ f. claim_of f
        ≡ (if is_and then claim.And (claim_of left) (claim_of right)
        else claim.Or (claim_of left) (claim_of right))) }
{
    if is_and {
        return and(alloc, left, right);
    }
    or(alloc, left, right)
}

// The term is 0, or it is not.
fn equation(alloc: Global, is_zero: bool, term: &Term) -> Result<Boxed<Formula>, AllocError>
    ensures { IfOk result (λ f. claim_of f
        ≡ (if is_zero then claim.Eq term.now else claim.Ne term.now)) }
{
    if is_zero {
        return copied(alloc, Comparison::Eq, term);
    }
    copied(alloc, Comparison::Ne, term)
}

// The term is at most 0, or it is not.
#[inline(never)]
fn inequality(alloc: Global, is_positive: bool, term: &Term) -> Result<Boxed<Formula>, AllocError>
    requires { IsWithin narrow_limit term.now }
    ensures { IfOk result (λ f. claim_of f ≡ (if is_positive then claim.Le term.now
        else claim.Le (difference_of (constant_of (pos 1)) term.now))) }
{
    if is_positive {
        return copied(alloc, Comparison::Le, term);
    }
    compared(alloc, Comparison::Le, term.denied()?)
}

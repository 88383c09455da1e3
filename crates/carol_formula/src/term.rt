ghost use Rattle.std.specs.Prelude.{ℕ, ℤ, ◌≤◌, ◌≤ℤ◌, ◌<ℤ◌, unsigned_abs, ◌-ℤ◌, ◌+ℤ◌, ◌*ℤ◌, IfOk, IsTrue, ◌↔◌, pos, ◌≢◌, ◌++◌, SomeIff, OnOk, [], ◌≡◌};
ghost use Rattle.carol_formula.specs.Bounds.{IsBelow, term_limit, value_limit, narrow_limit};
ghost use Rattle.carol_formula.specs.Linear.{IsWithin, IsTerm, AscendsFrom, NoneZero, AllBelow, kept, normal_of, times, plus_of, constant_of, variable_of, sum_of, difference_of, scaled, coefficient_of, without_of, replaced};
ghost use Rattle.carol_formula.specs.Division.{EachDivides, quotient_of};
ghost use Rattle.carol_formula.specs.Value.{value_at, Fits, FitsWithin};

use crate::number::{VALUE_LIMIT, ceiling, fused, is_below, product_within, quotient, sum_within};
use crate::variable::{Lookup, Variable, is_before, is_of};
use std::alloc::{AllocError, Global};
use std::marker::Model;
use thiserror::Error;

/// A linear term in normal form: its products by ascending variable, none with coefficient zero,
/// and a constant. Each coefficient and the constant are below 2^100 in absolute value.
#[derive(Debug, Drop)]
pub struct Term {
    pairs: Vec<(Variable, i128)>,
    rest: i128,
}

impl Model for Term {
    ghost use Rattle.carol_formula.specs.Linear.{Linear, IsTerm};

    ghost Value = { Linear };

    ghost view = { λ t. record { pairs = t.pairs.items; rest = t.rest } };

    ghost invariant = { λ t. IsTerm (record { pairs = t.pairs.items; rest = t.rest }) };
}

/// The claim that the term is at most 0.
#[derive(Debug, Drop)]
pub struct Row(pub Term);

/// Why a term was not made.
#[derive(Debug, Clone, Copy, PartialEq, Eq, Error)]
pub enum TermError {
    /// A coefficient or the constant of the true result is not below 2^100 in absolute value.
    #[error("a coefficient or the constant of a term is too wide")]
    TooWide,
    /// Memory ran out.
    #[error("out of memory")]
    NoMemory,
}

impl From<AllocError> for TermError {
    ghost use Rattle.std.specs.Prelude.{◌≡◌};
    ghost use Rattle.carol_formula.specs.declared.term.TermError.TheVariants.{NoMemory};

    ghost from_gives = { λ _ e. e ≡ NoMemory };

    fn from(_: AllocError) -> TermError {
        TermError::NoMemory
    }
}

/// Whether the products of variables and coefficients are equal.
pub fn is_same(one: &(Variable, i128), other: &(Variable, i128)) -> bool
    ensures { IsTrue result ↔ (one.now ≡ other.now) }
{
    one.0 == other.0 && one.1 == other.1
}

// Appends a product, unless its coefficient is zero.
fn keep(out: &mut Vec<(Variable, i128)>, product: (Variable, i128)) -> Result<(), AllocError>
    ensures { OnOk result (out.new.items ≡ out.old.items ++ kept product.0 product.1 []) }
{
    if product.1 != 0 {
        out.push(product)?;
    }
    Ok(())
}

// Appends the sum of one product and `by` times another of its variable.
fn keep_sum(
    out: &mut Vec<(Variable, i128)>,
    one: &(Variable, i128),
    by: i128,
    other: &(Variable, i128),
) -> Result<(), TermError>
    requires { IsBelow term_limit one.now.1 }
    ensures ok { OnOk result ((out.new.items
        ≡ out.old.items ++ kept other.now.0 (one.now.1 +ℤ (by *ℤ other.now.1)) [])
        × IsBelow term_limit (one.now.1 +ℤ (by *ℤ other.now.1))) }
    ensures too_wide { result ≡ Err TermError.TooWide
        → ¬ IsBelow term_limit (one.now.1 +ℤ (by *ℤ other.now.1)) }
{
    let Some(coefficient) = fused(one.1, by, other.1) else {
        return Err(TermError::TooWide);
    };
    keep(out, (other.0, coefficient))?;
    Ok(())
}

// Appends `by` times a product.
fn keep_product(
    out: &mut Vec<(Variable, i128)>,
    by: i128,
    other: &(Variable, i128),
) -> Result<(), TermError>
    ensures ok { OnOk result ((out.new.items
        ≡ out.old.items ++ kept other.now.0 (by *ℤ other.now.1) [])
        × IsBelow term_limit (by *ℤ other.now.1)) }
    ensures too_wide { result ≡ Err TermError.TooWide → ¬ IsBelow term_limit (by *ℤ other.now.1) }
{
    keep_sum(out, &(other.0, 0), by, other)
}

// The products of one term and `by` times those of another, in normal form.
fn merged(
    alloc: Global,
    ones: &[(Variable, i128)],
    by: i128,
    others: &[(Variable, i128)],
) -> Result<Vec<(Variable, i128)>, TermError>
    requires ones_ascend { AscendsFrom 0 ones.now }
    requires others_ascend { AscendsFrom 0 others.now }
    requires none_zero { NoneZero ones.now }
    requires below { AllBelow term_limit ones.now }
    ensures ok { IfOk result (λ v. (v.items ≡ normal_of (ones.now ++ times by others.now))
        × AllBelow term_limit v.items) }
    ensures too_wide { result ≡ Err TermError.TooWide
        → ¬ AllBelow term_limit (normal_of (ones.now ++ times by others.now)) }
{
    let mut out = Vec::new(alloc);
    let mut left = ones;
    let mut right = others;
    while let Some((other, more)) = right.split_first() {
        match left.split_first() {
            Some((one, rest)) if is_before(one, other.0) => {
                keep(&mut out, *one)?;
                left = rest;
            }
            Some((one, rest)) if is_of(one, other.0) => {
                keep_sum(&mut out, one, by, other)?;
                left = rest;
                right = more;
            }
            _ => {
                keep_product(&mut out, by, other)?;
                right = more;
            }
        }
    }
    out.extend_from_slice(left)?;
    Ok(out)
}

impl Term {
    /// The constant term.
    pub fn constant(alloc: Global, k: i128) -> Term
        requires { IsBelow term_limit k }
        ensures { result ≡ constant_of k }
    {
        Term {
            pairs: Vec::new(alloc),
            rest: k,
        }
    }

    /// The variable alone.
    pub fn variable(alloc: Global, v: Variable) -> Result<Term, AllocError>
        ensures { IfOk result (λ t. t ≡ variable_of v) }
    {
        let mut pairs = Vec::new(alloc);
        pairs.push((v, 1))?;
        Ok(Term { pairs, rest: 0 })
    }

    /// Its products, by ascending variable.
    pub fn pairs(&self) -> &[(Variable, i128)]
        ensures value { result.now ≡ self.now.pairs }
        ensures term { IsTerm self.now }
    {
        self.pairs.as_slice()
    }

    /// Its constant.
    pub fn rest(&self) -> i128
        ensures value { result ≡ self.now.rest }
        ensures term { IsTerm self.now }
    {
        self.rest
    }

    // The allocator that its list keeps.
    fn allocator(&self) -> Global {
        *self.pairs.allocator()
    }

    // The term and `by` times another.
    fn plus(&self, by: i128, other: &Term) -> Result<Term, TermError>
        ensures ok { IfOk result (λ t. (t ≡ plus_of self.now by other.now) × IsTerm t) }
        ensures too_wide { result ≡ Err TermError.TooWide
            → ¬ IsWithin term_limit (plus_of self.now by other.now) }
    {
        let Some(rest) = fused(self.rest, by, other.rest) else {
            return Err(TermError::TooWide);
        };
        let pairs = merged(self.allocator(), self.pairs(), by, other.pairs())?;
        Ok(Term { pairs, rest })
    }

    /// The sum. `TooWide` comes where a coefficient or the constant of the true sum is not below
    /// 2^100.
    pub fn add(&self, other: &Term) -> Result<Term, TermError>
        ensures ok { IfOk result (λ t. (t ≡ sum_of self.now other.now) × IsTerm t) }
        ensures value { IfOk result (λ t. (f : ℕ → ℤ)
            → value_at t f ≡ value_at self.now f +ℤ value_at other.now f) }
        ensures too_wide { result ≡ Err TermError.TooWide
            → ¬ IsWithin term_limit (sum_of self.now other.now) }
    {
        self.plus(1, other)
    }

    /// The difference. `TooWide` comes as in a sum.
    pub fn sub(&self, other: &Term) -> Result<Term, TermError>
        ensures ok { IfOk result (λ t. (t ≡ difference_of self.now other.now) × IsTerm t) }
        ensures value { IfOk result (λ t. (f : ℕ → ℤ)
            → value_at t f ≡ value_at self.now f -ℤ value_at other.now f) }
        ensures too_wide { result ≡ Err TermError.TooWide
            → ¬ IsWithin term_limit (difference_of self.now other.now) }
    {
        self.plus(-1, other)
    }

    /// The term `by` times. `TooWide` comes as in a sum.
    pub fn scale(&self, by: i128) -> Result<Term, TermError>
        ensures ok { IfOk result (λ t. (t ≡ scaled by self.now) × IsTerm t) }
        ensures value { IfOk result (λ t. (f : ℕ → ℤ) → value_at t f ≡ by *ℤ value_at self.now f) }
        ensures too_wide { result ≡ Err TermError.TooWide
            → ¬ IsWithin term_limit (scaled by self.now) }
    {
        Term::constant(self.allocator(), 0).plus(by, self)
    }

    /// The term divided by a number above 0 that divides each coefficient, and its constant rounded
    /// up. Of whole numbers it is at most 0 exactly where the term is.
    pub fn divide(&self, by: i128) -> Result<Term, AllocError>
        requires positive { pos 0 <ℤ by }
        requires exact { EachDivides (unsigned_abs by) self.now.pairs }
        ensures ok { IfOk result (λ t. (t ≡ quotient_of (unsigned_abs by) self.now) × IsTerm t) }
        ensures same { IfOk result (λ t. (f : ℕ → ℤ)
            → (value_at t f ≤ℤ pos 0) ↔ (value_at self.now f ≤ℤ pos 0)) }
    {
        let mut pairs = Vec::with_capacity(self.allocator(), self.pairs.len())?;
        let mut left = self.pairs();
        while let Some((pair, more)) = left.split_first() {
            pairs.push((pair.0, quotient(pair.1, by)))?;
            left = more;
        }
        Ok(Term {
            pairs,
            rest: ceiling(self.rest(), by),
        })
    }

    /// The term's value, where each product, and each sum on the way from the first variable to the
    /// constant, is below the limit in absolute value.
    pub fn value_within<L: Lookup>(&self, at: &L, limit: u128) -> Option<i128>
        requires { limit ≤ value_limit }
        ensures { SomeIff result (FitsWithin limit self.now (L.numbers at.now))
            (value_at self.now (L.numbers at.now)) }
    {
        let mut sum = 0;
        let mut left = self.pairs();
        while let Some((pair, more)) = left.split_first() {
            let product = product_within(pair.1, at.value_of(pair.0), limit)?;
            sum = sum_within(sum, product, limit)?;
            left = more;
        }
        sum_within(sum, self.rest(), limit)
    }

    /// The term's value. Each product, and each sum on the way from the first variable to the
    /// constant, is to be below 2^126 in absolute value, as `fits` tells.
    pub fn value<L: Lookup>(&self, at: &L) -> i128
        requires { Fits self.now (L.numbers at.now) }
        ensures { result ≡ value_at self.now (L.numbers at.now) }
    {
        self.value_within(at, VALUE_LIMIT).unwrap()
    }

    /// Each product and each sum on the way to the term's value is below 2^126 in absolute value.
    pub fn fits<L: Lookup>(&self, at: &L) -> bool
        ensures { IsTrue result ↔ Fits self.now (L.numbers at.now) }
    {
        self.value_within(at, VALUE_LIMIT).is_some()
    }

    /// Whether each coefficient and the constant are below the limit in absolute value.
    pub fn is_within(&self, limit: u128) -> bool
        ensures { IsTrue result ↔ IsWithin limit self.now }
    {
        let mut left = self.pairs();
        while let Some((pair, more)) = left.split_first() {
            if !is_below(pair.1, limit) {
                return false;
            }
            left = more;
        }
        is_below(self.rest(), limit)
    }

    /// The coefficient of a variable, which is 0 where the term has none.
    pub fn coefficient(&self, v: Variable) -> i128
        ensures value { result ≡ coefficient_of v self.now.pairs }
        ensures small { IsBelow term_limit result }
    {
        let mut left = self.pairs();
        while let Some((pair, more)) = left.split_first() {
            if is_of(pair, v) {
                return pair.1;
            }
            left = more;
        }
        0
    }

    // The products of the other variables, and the constant.
    fn without(&self, v: Variable) -> Result<Term, AllocError>
        ensures { IfOk result (λ t. t ≡ without_of v self.now) }
    {
        let mut pairs = Vec::new(self.allocator());
        let mut left = self.pairs.as_slice();
        while let Some((pair, more)) = left.split_first() {
            if !is_of(pair, v) {
                pairs.push(*pair)?;
            }
            left = more;
        }
        Ok(Term {
            pairs,
            rest: self.rest,
        })
    }

    /// The term with another in place of a variable.
    pub(crate) fn replace(&self, v: Variable, by: &Term) -> Result<Term, TermError>
        ensures ok { IfOk result (λ t. (t ≡ replaced v by.now self.now) × IsTerm t) }
        ensures too_wide { result ≡ Err TermError.TooWide
            → ¬ IsWithin term_limit (replaced v by.now self.now) }
    {
        let others = self.without(v)?;
        others.plus(self.coefficient(v), by)
    }

    /// 1 - t, at most 0 exactly where t is not.
    pub(crate) fn denied(&self) -> Result<Term, AllocError>
        requires { IsWithin narrow_limit self.now }
        ensures { IfOk result (λ t. t ≡ difference_of (constant_of (pos 1)) self.now) }
    {
        let _ = &self.pairs;
        let one = Term::constant(self.allocator(), 1);
        match one.sub(self) {
            Ok(term) => Ok(term),
            Err(TermError::NoMemory) => Err(AllocError),
            Err(TermError::TooWide) => unreachable!(),
        }
    }

    /// An equal term.
    pub fn copy(&self) -> Result<Term, AllocError>
        ensures { IfOk result (λ t. (t ≡ self.now) × IsTerm t) }
    {
        Ok(Term {
            pairs: Vec::from_slice(self.allocator(), self.pairs())?,
            rest: self.rest,
        })
    }
}

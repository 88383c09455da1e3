ghost use Rattle.std.specs.Prelude.{◌≡◌, ◌≤◌, ◌^◌, ◌*◌, ◌<◌, ◌+◌, ℕ, OnOk, IfOk, IfSome, None, Some, pos, length, unsigned_abs, IsTrue};
ghost use Rattle.std.specs.List.{AllByRecursion, flat_map};
ghost use Rattle.carol_formula.specs.Linear.{constant_of};
ghost use Rattle.carol_syntax.specs.Shape as shape;
ghost use Rattle.carol_meaning.specs.Sizes.{IsShortTerm};
ghost use Rattle.carol_meaning.specs.Faults.{earliest};
ghost use Rattle.carol_meaning.specs.Terms.{signed_factor, product_worth, product_faults, added, sum_after, term_worth, values_faults, are_small, is_small, width_faults, term_faults};
ghost use Rattle.carol_names.specs.Bounded.{IsBounded, most_value, most_product, most_sum};

use crate::Finder;
use crate::arithmetic::{multiply, plus};
use crate::ground::Ground;
use carol_formula::{Term, Variable};
use carol_meaning::NameKind;
use carol_syntax::{ProductDecl, Span, TermDecl};
use std::alloc::{AllocError, Global};

// The largest coefficient of a term, in absolute value.
const LARGEST_COEFFICIENT: u128 = 1_000_000_000;

// The largest constant of a term, in absolute value.
const LARGEST_CONSTANT: u128 = 1_000_000_000_000_000;

// A factor with its sign, 1 where there is none.
fn signed_factor(minus: bool, factor: Option<u64>) -> i128
    requires { IfSome factor shape.IsLiteral }
    ensures value { result ≡ signed_factor minus factor }
    ensures small { unsigned_abs result ≤ 10 ^ 12 }
{
    let size = match factor {
        Some(size) => i128::from(size),
        None => 1,
    };
    if minus { -size } else { size }
}

// What a product is worth.
fn product<G: Ground>(
    place: &G,
    alloc: Global,
    finder: &mut Finder,
    product: &ProductDecl,
) -> Result<Option<Term>, AllocError>
    requires { shape.IsProduct product.now }
    ensures faults { OnOk result (finder.new
        ≡ earliest finder.old (product_faults (G.look place.now) product.now)) }
    ensures worth { IfOk result (λ t. t ≡ product_worth (G.look place.now) product.now) }
    ensures bounded { IfOk result (λ t. IfSome t (IsBounded most_product)) }
{
    let factor = signed_factor(product.minus, product.factor);
    let Some(value) = &product.value else {
        return Ok(Some(Term::constant(alloc, factor)));
    };
    let Some(term) = place.value(alloc, finder, value)? else {
        return Ok(None);
    };
    let product = multiply(&term, factor)?;
    Ok(Some(product))
}

// The sum, where both are worth something.
fn added(sum: Option<Term>, term: Option<Term>) -> Result<Option<Term>, AllocError>
    requires sum { IfSome sum (IsBounded most_sum) }
    requires term { IfSome term (IsBounded most_product) }
    ensures { IfOk result (λ t. t ≡ added sum term) }
{
    let Some(sum) = sum else {
        return Ok(None);
    };
    let Some(term) = term else {
        return Ok(None);
    };
    let whole = plus(&sum, &term)?;
    Ok(Some(whole))
}

// The sum of products. Notes their values' faults.
fn sum<G: Ground>(
    place: &G,
    alloc: Global,
    finder: &mut Finder,
    products: &[ProductDecl],
) -> Result<Option<Term>, AllocError>
    requires shape { AllByRecursion shape.IsProduct products.now }
    requires sized { length products.now ≤ 256 }
    ensures faults { OnOk result (finder.new
        ≡ earliest finder.old (flat_map (product_faults (G.look place.now)) products.now)) }
    ensures worth { IfOk result (λ t. t
        ≡ sum_after (G.look place.now) (Some (constant_of (pos 0))) products.now) }
    ensures bounded { IfOk result (λ t. IfSome t (IsBounded most_sum)) }
{
    let mut sum = Some(Term::constant(alloc, 0));
    for part in products {
        let worth = product(place, alloc, finder, part)?;
        sum = added(sum, worth)?;
    }
    Ok(sum)
}

/// What a term is worth: none where a value of it is at fault. Notes its values' faults.
pub fn values<G: Ground>(
    place: &G,
    alloc: Global,
    finder: &mut Finder,
    term: &TermDecl,
) -> Result<Option<Term>, AllocError>
    requires shape { shape.IsTerm term.now }
    requires sized { IsShortTerm term.now }
    ensures faults { OnOk result (finder.new
        ≡ earliest finder.old (values_faults (G.look place.now) term.now)) }
    ensures worth { IfOk result (λ t. t ≡ term_worth (G.look place.now) term.now) }
    ensures bounded { IfOk result (λ t. IfSome t (IsBounded most_sum)) }
{
    sum(place, alloc, finder, term.products.as_slice())
}

// Each coefficient is small.
fn are_small(pairs: &[(Variable, i128)]) -> bool
    ensures { result ≡ are_small pairs.now }
{
    let mut left = pairs;
    while let Some((pair, more)) = left.split_first() {
        if pair.1.unsigned_abs() > LARGEST_COEFFICIENT {
            return false;
        }
        left = more;
    }
    true
}

/// No coefficient is above 10^9, and the constant not above 10^15, in absolute value.
pub fn is_small(term: &Term) -> bool
    ensures { result ≡ is_small term.now }
{
    are_small(term.pairs()) && term.rest().unsigned_abs() <= LARGEST_CONSTANT
}

/// Notes a fault at the place, unless the term is small.
pub fn note_width(
    alloc: Global,
    finder: &mut Finder,
    span: Span,
    term: &Option<Term>,
) -> Result<(), AllocError>
    ensures { OnOk result (finder.new ≡ earliest finder.old (width_faults span term.now)) }
{
    let Some(term) = term else {
        return Ok(());
    };
    if is_small(term) {
        return Ok(());
    }
    finder.note(alloc, NameKind::TooWide, span, &[])
}

/// What a term by itself is worth. Notes its values' faults and its own.
pub fn term<G: Ground>(
    place: &G,
    alloc: Global,
    finder: &mut Finder,
    term: &TermDecl,
) -> Result<Option<Term>, AllocError>
    requires shape { shape.IsTerm term.now }
    requires sized { IsShortTerm term.now }
    ensures faults { OnOk result (finder.new
        ≡ earliest finder.old (term_faults (G.look place.now) term.now)) }
    ensures worth { IfOk result (λ t. t ≡ term_worth (G.look place.now) term.now) }
{
    let worth = values(place, alloc, finder, term)?;
    note_width(alloc, finder, term.span, &worth)?;
    Ok(worth)
}

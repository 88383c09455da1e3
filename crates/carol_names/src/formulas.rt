ghost use Rattle.std.specs.Prelude.{◌≡◌, OnOk, IfOk, IfSome, if◌then◌else◌, pos};
ghost use Rattle.carol_formula.specs.Linear.{constant_of, sum_of, difference_of};
ghost use Rattle.carol_formula.specs.Tree.{claim_of};
ghost use Rattle.carol_syntax.specs.Formulas as tree;
ghost use Rattle.carol_syntax.specs.Formulas.{formula_tree};
ghost use Rattle.carol_syntax.specs.Shape as shape;
ghost use Rattle.carol_meaning.specs.Sizes.{IsShortTerm, IsShortFormula};
ghost use Rattle.carol_meaning.specs.Faults.{earliest};
ghost use Rattle.carol_meaning.specs.Terms.{compared, comparison_worth, claim_or_false, formula_meaning, formula_faults};
ghost use Rattle.carol_names.specs.Bounded.{IsBounded, most_sum};

use crate::Finder;
use crate::arithmetic::{minus, plus};
use crate::ground::Ground;
use crate::terms::{note_width, values};
use carol_formula::{Boxed, Formula, Term};
use carol_syntax::{FormulaDecl, Sign, TermDecl};
use std::alloc::{AllocError, Global};

// The first less the second, with 1 more where the comparison is strict.
fn less(alloc: Global, one: &Term, other: &Term, strict: bool) -> Result<Term, AllocError>
    requires one { IsBounded most_sum one.now }
    requires other { IsBounded most_sum other.now }
    ensures { IfOk result (λ t. t
        ≡ (if strict then sum_of (difference_of one.now other.now) (constant_of (pos 1))
        else difference_of one.now other.now)) }
{
    let difference = minus(one, other)?;
    if !strict {
        return Ok(difference);
    }
    let strictly = plus(&difference, &Term::constant(alloc, 1))?;
    Ok(strictly)
}

// The term that a comparison of two terms compares with 0.
fn compared(alloc: Global, sign: Sign, left: &Term, right: &Term) -> Result<Term, AllocError>
    requires left { IsBounded most_sum left.now }
    requires right { IsBounded most_sum right.now }
    ensures { IfOk result (λ t. t ≡ compared sign left.now right.now) }
{
    match sign {
        Sign::AtMost | Sign::Same | Sign::Differs => less(alloc, left, right, false),
        Sign::Below => less(alloc, left, right, true),
        Sign::AtLeast => less(alloc, right, left, false),
        Sign::Above => less(alloc, right, left, true),
    }
}

// The same, where both are worth something.
fn comparison_worth(
    alloc: Global,
    sign: Sign,
    left: &Option<Term>,
    right: &Option<Term>,
) -> Result<Option<Term>, AllocError>
    requires left { IfSome left.now (IsBounded most_sum) }
    requires right { IfSome right.now (IsBounded most_sum) }
    ensures { IfOk result (λ t. t ≡ comparison_worth sign left.now right.now) }
{
    let Some(left) = left else {
        return Ok(None);
    };
    let Some(right) = right else {
        return Ok(None);
    };
    let term = compared(alloc, sign, left, right)?;
    Ok(Some(term))
}

// The claim of a comparison with 0.
fn claim(sign: Sign, term: Option<Term>) -> Formula
    ensures { claim_of result ≡ claim_or_false sign term }
{
    let Some(term) = term else {
        return Formula::False;
    };
    match sign {
        Sign::Same => Formula::Eq(term),
        Sign::Differs => Formula::Ne(term),
        Sign::AtMost | Sign::Below | Sign::AtLeast | Sign::Above => Formula::Le(term),
    }
}

// A comparison of two terms.
fn comparison<G: Ground>(
    place: &G,
    alloc: Global,
    finder: &mut Finder,
    left: &TermDecl,
    sign: Sign,
    right: &TermDecl,
) -> Result<Formula, AllocError>
    requires left { shape.IsTerm left.now }
    requires right { shape.IsTerm right.now }
    requires sized_left { IsShortTerm left.now }
    requires sized_right { IsShortTerm right.now }
    ensures faults { OnOk result (finder.new ≡ earliest finder.old
        (formula_faults (G.look place.now) (tree.Compare left.now sign right.now))) }
    ensures meaning { IfOk result (λ f. claim_of f
        ≡ formula_meaning (G.look place.now) (tree.Compare left.now sign right.now)) }
{
    let first = values(place, alloc, finder, left)?;
    let second = values(place, alloc, finder, right)?;
    let worth = comparison_worth(alloc, sign, &first, &second)?;
    note_width(alloc, finder, left.span, &worth)?;
    Ok(claim(sign, worth))
}

/// What a formula means. Notes its faults.
pub fn formula<G: Ground>(
    place: &G,
    alloc: Global,
    finder: &mut Finder,
    formula: &FormulaDecl,
) -> Result<Formula, AllocError>
    requires shape { shape.IsFormula (formula_tree formula.now) }
    requires sized { IsShortFormula (formula_tree formula.now) }
    ensures faults { OnOk result (finder.new ≡ earliest finder.old
        (formula_faults (G.look place.now) (formula_tree formula.now))) }
    ensures meaning { IfOk result (λ f. claim_of f
        ≡ formula_meaning (G.look place.now) (formula_tree formula.now)) }
{
    match formula {
        FormulaDecl::True => Ok(Formula::True),
        FormulaDecl::False => Ok(Formula::False),
        FormulaDecl::Not(inner) => {
            let inner = self::formula(place, alloc, finder, inner.get())?;
            let inner = Boxed::new(alloc, inner)?;
            Ok(Formula::Not(inner))
        }
        FormulaDecl::And(left, right) => {
            let left = self::formula(place, alloc, finder, left.get())?;
            let right = self::formula(place, alloc, finder, right.get())?;
            let left = Boxed::new(alloc, left)?;
            let right = Boxed::new(alloc, right)?;
            Ok(Formula::And(left, right))
        }
        FormulaDecl::Or(left, right) => {
            let left = self::formula(place, alloc, finder, left.get())?;
            let right = self::formula(place, alloc, finder, right.get())?;
            let left = Boxed::new(alloc, left)?;
            let right = Boxed::new(alloc, right)?;
            Ok(Formula::Or(left, right))
        }
        FormulaDecl::Compare { left, sign, right } => {
            comparison(place, alloc, finder, left, *sign, right)
        }
    }
}

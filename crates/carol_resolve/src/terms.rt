ghost use Rattle.std.specs.Prelude.{◌≡◌, OnOk, IfOk, IfSome, negsuc, false};
ghost use Rattle.carol_formula.specs.Linear.{scaled};
ghost use Rattle.carol_formula.specs.Tree.{claim_of};
ghost use Rattle.carol_syntax.specs.Formulas.{formula_tree};
ghost use Rattle.carol_syntax.specs.Shape as shape;
ghost use Rattle.carol_meaning.specs.Sizes.{IsShortTerm, IsShortFormula};
ghost use Rattle.carol_meaning.specs.Faults.{earliest};
ghost use Rattle.carol_meaning.specs.Terms.{term_worth, term_faults, term_meaning, formula_meaning, formula_faults};
ghost use Rattle.carol_meaning.specs.Bodies.{in_body, small_or_none};
ghost use Rattle.carol_names.specs.Bounded.{IsBounded, most_value};

use crate::InScope;
use crate::around::Around;
use crate::points::Point;
use carol_formula::{Formula, Term, TermError};
use carol_names::{Finder, is_small};
use carol_syntax::{FormulaDecl, TermDecl};
use std::alloc::{AllocError, Global};

// A point of a body as a place of values.
fn place_at<'a, 'c, 's>(around: &'a Around<'c>, at: &'a Point<'s>) -> InScope<'a, 'c, 's>
    ensures { result ≡ record {
      cells = around.entry.now.cells;
      outcome = false;
      scope = at.entry.now.scope;
    } }
{
    InScope::new(around.cells(), at.scope(), false)
}

/// What a term is worth at a point: none where a value of it is at fault. Notes its faults.
pub(crate) fn worth(
    alloc: Global,
    finder: &mut Finder,
    around: &Around<'_>,
    at: &Point<'_>,
    term: &TermDecl,
) -> Result<Option<Term>, AllocError>
    requires shape { shape.IsTerm term.now }
    requires sized { IsShortTerm term.now }
    ensures faults { OnOk result
        (finder.new ≡ earliest finder.old (term_faults (in_body around.now at.now) term.now)) }
    ensures worth { IfOk result (λ t. t ≡ term_worth (in_body around.now at.now) term.now) }
{
    let place = place_at(around, at);
    let worth = carol_names::term(&place, alloc, finder, term)?;
    Ok(worth)
}

/// The term that a term stands for at a point, 0 where a value of it is at fault. Notes its faults.
pub(crate) fn meaning(
    alloc: Global,
    finder: &mut Finder,
    around: &Around<'_>,
    at: &Point<'_>,
    term: &TermDecl,
) -> Result<Term, AllocError>
    requires shape { shape.IsTerm term.now }
    requires sized { IsShortTerm term.now }
    ensures faults { OnOk result
        (finder.new ≡ earliest finder.old (term_faults (in_body around.now at.now) term.now)) }
    ensures meaning { IfOk result (λ t. t ≡ term_meaning (in_body around.now at.now) term.now) }
{
    match worth(alloc, finder, around, at, term)? {
        Some(term) => Ok(term),
        None => Ok(Term::constant(alloc, 0)),
    }
}

/// The formula that a formula stands for at a point. Notes its faults.
pub(crate) fn test(
    alloc: Global,
    finder: &mut Finder,
    around: &Around<'_>,
    at: &Point<'_>,
    formula: &FormulaDecl,
) -> Result<Formula, AllocError>
    requires shape { shape.IsFormula (formula_tree formula.now) }
    requires sized { IsShortFormula (formula_tree formula.now) }
    ensures faults { OnOk result (finder.new ≡ earliest finder.old
        (formula_faults (in_body around.now at.now) (formula_tree formula.now))) }
    ensures meaning { IfOk result (λ f. claim_of f ≡
        formula_meaning (in_body around.now at.now) (formula_tree formula.now)) }
{
    let place = place_at(around, at);
    let test = carol_names::formula(&place, alloc, finder, formula)?;
    Ok(test)
}

/// The term where it is small, and else none.
pub(crate) fn small_or_none(term: Option<Term>) -> Option<Term>
    ensures value { result ≡ small_or_none term }
    ensures bounded { IfSome result (IsBounded most_value) }
{
    let Some(term) = term else {
        return None;
    };
    let _pairs = term.pairs();
    if is_small(&term) { Some(term) } else { None }
}

/// The term with each sign turned.
pub(crate) fn negated(term: &Term) -> Result<Term, AllocError>
    ensures { IfOk result (λ t. t ≡ scaled (negsuc 0) term.now) }
{
    let _pairs = term.pairs();
    match term.scale(-1) {
        Ok(negated) => Ok(negated),
        Err(TermError::NoMemory) => Err(AllocError),
        Err(TermError::TooWide) => unreachable!(),
    }
}

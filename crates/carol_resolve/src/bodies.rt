ghost use Rattle.std.specs.Prelude.{◌≡◌, ◌≤◌, ◌+◌, OnOk, IfOk};
ghost use Rattle.carol_syntax.specs.Bodies.{body_tree};
ghost use Rattle.carol_syntax.specs.Shape as shape;
ghost use Rattle.carol_syntax.specs.Size.{statement_count, most_items};
ghost use Rattle.carol_meaning.specs.Sizes.{IsShortBody, HasShortParts, IsShortTerm};
ghost use Rattle.carol_program.specs.Bodies as steps;
ghost use Rattle.carol_program.specs.Bodies.{body_of};
ghost use Rattle.carol_meaning.specs.Faults.{earliest};
ghost use Rattle.carol_meaning.specs.Terms.{term_faults, term_meaning};
ghost use Rattle.carol_meaning.specs.Bodies.{in_body, entered, body_faults, body_meaning};
ghost use Rattle.carol_resolve.specs.Points.{behind_body};
ghost use Rattle.carol_formula.specs.Tree.{claim_of};

use crate::Scope;
use crate::around::Around;
use crate::heads::with_heads;
use crate::points::Point;
use crate::statements::statements;
use crate::terms::{meaning, test};
use carol_formula::Formula;
use carol_names::Finder;
use carol_program::Step;
use carol_syntax::{Body, Last, TermDecl};
use sqlite_items::Boxed;
use std::alloc::{AllocError, Global};

// The step of a `return`. Notes the faults of its term.
fn returned(
    alloc: Global,
    finder: &mut Finder,
    around: &Around<'_>,
    at: &mut Point<'_>,
    value: &TermDecl,
) -> Result<Step, AllocError>
    requires shape { shape.IsTerm value.now }
    requires sized { IsShortTerm value.now }
    requires number { at.old.number ≤ most_items }
    ensures faults { OnOk result
        (finder.new ≡ earliest finder.old (term_faults (in_body around.now at.old) value.now)) }
    ensures meaning { IfOk result (λ s. body_of s ≡
        steps.Return at.old.number (term_meaning (in_body around.now at.old) value.now)) }
    ensures place { OnOk result (at.new ≡ entered at.old) }
{
    let number = at.number();
    let value = meaning(alloc, finder, around, at, value)?;
    at.pass();
    Ok(Step::Return { number, value })
}

// The step of an `if`.
fn branch(
    alloc: Global,
    number: u32,
    test: Formula,
    first: Step,
    second: Step,
) -> Result<Step, AllocError>
    ensures { IfOk result (λ s. body_of s ≡
        steps.Branch number (claim_of test) (body_of first) (body_of second)) }
{
    let yes = Boxed::new(alloc, first)?;
    let no = Boxed::new(alloc, second)?;
    Ok(Step::Branch {
        number,
        test,
        yes,
        no,
    })
}

// The steps of a body at a point, which goes behind the body: names that it declares are gone,
// and its slots and numbers are taken. Notes its faults.
fn body_at<'a>(
    alloc: Global,
    finder: &mut Finder,
    around: &Around<'_>,
    at: &mut Point<'a>,
    body: &'a Body,
) -> Result<Step, AllocError>
    requires shape { shape.IsBody (body_tree body.now) }
    requires sized { HasShortParts (body_tree body.now) }
    requires number { at.old.number + statement_count (body_tree body.now) ≤ most_items + 1 }
    ensures faults { OnOk result (finder.new ≡
        earliest finder.old (body_faults around.now at.old (body_tree body.entry.now))) }
    ensures meaning { IfOk result (λ s. body_of s ≡
        body_meaning around.now at.old (body_tree body.entry.now)) }
    ensures place { OnOk result (at.new ≡ behind_body (body_tree body.entry.now) at.old) }
{
    let names = at.names();
    let heads = statements(alloc, finder, around, at, body.plain.as_slice())?;
    match body.last.get() {
        Last::Return(value) => {
            let last = returned(alloc, finder, around, at, value)?;
            at.leave(names);
            let whole = with_heads(alloc, heads, last)?;
            Ok(whole)
        }
        Last::If {
            test: condition,
            yes,
            no,
        } => {
            let number = at.number();
            let test = test(alloc, finder, around, at, condition)?;
            at.pass();
            let first = body_at(alloc, finder, around, at, yes)?;
            let second = body_at(alloc, finder, around, at, no)?;
            at.leave(names);
            let last = branch(alloc, number, test, first, second)?;
            let whole = with_heads(alloc, heads, last)?;
            Ok(whole)
        }
    }
}

/// The steps that the body of an operation stands for, where these names can be used at its start.
/// Notes its faults.
///
/// With a fault the steps mean nothing: an unknown guard or cell is the one with number 0, a term
/// at fault is 0, and a comparison at fault is False.
pub fn body<'a>(
    alloc: Global,
    finder: &mut Finder,
    around: &Around<'_>,
    scope: Scope<'a>,
    body: &'a Body,
) -> Result<Step, AllocError>
    requires shape { shape.IsBody (body_tree body.now) }
    requires sized { IsShortBody (body_tree body.now) }
    ensures faults { OnOk result (finder.new ≡ earliest finder.old (body_faults around.now
        (record { scope = scope.entry; slot = 0; number = 1 }) (body_tree body.entry.now))) }
    ensures meaning { IfOk result (λ s. body_of s ≡ body_meaning around.now
        (record { scope = scope.entry; slot = 0; number = 1 }) (body_tree body.entry.now)) }
{
    let mut at = Point::new(scope);
    let step = body_at(alloc, finder, around, &mut at, body)?;
    Ok(step)
}

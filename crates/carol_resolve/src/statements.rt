ghost use Rattle.std.specs.Prelude.{◌≡◌, ◌≤◌, ◌+◌, OnOk, IfOk, length};
ghost use Rattle.std.specs.List.{AllByRecursion};
ghost use Rattle.carol_syntax.specs.Shape as shape;
ghost use Rattle.carol_syntax.specs.Size.{most_items};
ghost use Rattle.carol_meaning.specs.Sizes.{IsShortTerm, IsShortStatement};
ghost use Rattle.carol_program.specs.Bodies.{Body};
ghost use Rattle.carol_meaning.specs.Faults.{earliest};
ghost use Rattle.carol_meaning.specs.Declarations.{place_of};
ghost use Rattle.carol_meaning.specs.Bodies.{unknown_guard, guard_number, statement_faults, passed, before, behind, plain_faults, chain};
ghost use Rattle.carol_resolve.specs.Heads.{with_head, with_heads};

use crate::around::Around;
use crate::heads::{Head, push_head};
use crate::issues::issue;
use crate::points::Point;
use crate::terms::{small_or_none, worth};
use carol_meaning::NameKind;
use carol_names::Finder;
use carol_syntax::{Ident, Statement, TermDecl};
use std::alloc::{AllocError, Global};

// The number of a guard, 0 where there is none of this name. Notes that.
fn guard_number(
    alloc: Global,
    finder: &mut Finder,
    around: &Around<'_>,
    guard: &Ident,
) -> Result<u32, AllocError>
    ensures faults { OnOk result (finder.new ≡ earliest finder.old
        (unknown_guard guard.now (place_of guard.now.word around.now.guards))) }
    ensures number { IfOk result
        (λ n. n ≡ guard_number (place_of guard.now.word around.now.guards)) }
{
    if let Some(number) = around.guard(guard.word.bytes()) {
        return Ok(number);
    }
    finder.note_name(alloc, NameKind::Unknown, guard)?;
    Ok(0)
}

// Goes behind a query. Notes its fault.
fn query<'a>(
    alloc: Global,
    finder: &mut Finder,
    around: &Around<'_>,
    at: &mut Point<'a>,
    name: &'a Ident,
    guard: &Ident,
) -> Result<Head, AllocError>
    requires { at.old.number ≤ most_items }
    ensures faults { OnOk result (finder.new ≡ earliest finder.old
        (statement_faults around.now at.old (Statement.Query name.entry.now guard.now))) }
    ensures head { IfOk result (λ h. (next : Body) → with_head h next ≡
        before around.now at.old (Statement.Query name.entry.now guard.now) next) }
    ensures place { OnOk result
        (at.new ≡ passed around.now at.old (Statement.Query name.entry.now guard.now)) }
{
    let number = at.number();
    let guard = guard_number(alloc, finder, around, guard)?;
    let slot = at.query(name)?;
    Ok(Head::Query {
        number,
        guard,
        slot,
    })
}

// Goes behind a `let`. Notes the faults of its term.
fn bind<'a>(
    alloc: Global,
    finder: &mut Finder,
    around: &Around<'_>,
    at: &mut Point<'a>,
    name: &'a Ident,
    term: &TermDecl,
) -> Result<(), AllocError>
    requires shape { shape.IsTerm term.now }
    requires sized { IsShortTerm term.now }
    requires number { at.old.number ≤ most_items }
    ensures faults { OnOk result (finder.new ≡ earliest finder.old
        (statement_faults around.now at.old (Statement.Let name.entry.now term.now))) }
    ensures place { OnOk result
        (at.new ≡ passed around.now at.old (Statement.Let name.entry.now term.now)) }
{
    let worth = worth(alloc, finder, around, at, term)?;
    at.bind(name, small_or_none(worth))?;
    Ok(())
}

// Goes behind a statement, and adds what it does to the heads. Notes its faults.
fn statement<'a>(
    alloc: Global,
    finder: &mut Finder,
    around: &Around<'_>,
    at: &mut Point<'a>,
    heads: &mut Vec<Head>,
    statement: &'a Statement,
) -> Result<(), AllocError>
    requires shape { shape.IsStatement statement.now }
    requires sized { IsShortStatement statement.now }
    requires number { at.old.number ≤ most_items }
    ensures faults { OnOk result (finder.new ≡
        earliest finder.old (statement_faults around.now at.old statement.entry.now)) }
    ensures heads { OnOk result ((next : Body) → with_heads heads.new.items next ≡
        with_heads heads.old.items (before around.now at.old statement.entry.now next)) }
    ensures place { OnOk result (at.new ≡ passed around.now at.old statement.entry.now) }
{
    match statement {
        Statement::Query { name, guard } => {
            let head = query(alloc, finder, around, at, name, guard)?;
            push_head(heads, head)?;
            Ok(())
        }
        Statement::Release => {
            let number = at.number();
            push_head(heads, Head::Release { number })?;
            at.pass();
            Ok(())
        }
        Statement::Let { name, term } => {
            bind(alloc, finder, around, at, name, term)?;
            Ok(())
        }
        Statement::Issue(atoms) => {
            let number = at.number();
            let parts = issue(alloc, finder, around, at, atoms.as_slice())?;
            push_head(heads, Head::Issue { number, parts })?;
            at.pass();
            Ok(())
        }
    }
}

/// Goes behind statements. The result is what they do. Notes their faults.
pub(crate) fn statements<'a>(
    alloc: Global,
    finder: &mut Finder,
    around: &Around<'_>,
    at: &mut Point<'a>,
    plain: &'a [Statement],
) -> Result<Vec<Head>, AllocError>
    requires shape { AllByRecursion shape.IsStatement plain.now }
    requires sized { AllByRecursion IsShortStatement plain.now }
    requires number { at.old.number + length plain.now ≤ most_items + 1 }
    ensures faults { OnOk result
        (finder.new ≡ earliest finder.old (plain_faults around.now at.old plain.entry.now)) }
    ensures heads { IfOk result (λ heads. (last : Body) →
        with_heads heads.items last ≡ chain around.now at.old plain.entry.now last) }
    ensures place { OnOk result (at.new ≡ behind around.now at.old plain.entry.now) }
{
    let mut heads = Vec::new(alloc);
    let mut left = plain;
    while let Some((statement, more)) = left.split_first() {
        self::statement(alloc, finder, around, at, &mut heads, statement)?;
        left = more;
    }
    Ok(heads)
}

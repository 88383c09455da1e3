ghost use Rattle.std.specs.Prelude.{◌≡◌, OnOk, IfOk, []};
ghost use Rattle.std.specs.List.{AllByRecursion};
ghost use Rattle.carol_syntax.specs.Shape as shape;
ghost use Rattle.carol_meaning.specs.Sizes.{IsShortChange, IsShortAtom};
ghost use Rattle.carol_meaning.specs.Faults.{earlier, earliest};
ghost use Rattle.carol_meaning.specs.Bodies.{in_body, path_fault, suits, change_faults, amount_faults, again_faults, seen_with, atom_faults, target, issue_faults, cell_number, amount_of, part_of, parts_of};
ghost use Rattle.carol_resolve.specs.Issues.{HasSame};

use crate::around::Around;
use crate::points::Point;
use crate::seen::Seen;
use crate::terms::{meaning, negated};
use carol_formula::Term;
use carol_meaning::{NameKind, Named};
use carol_names::Finder;
use carol_program::{Part, PartList};
use carol_store::CellKind;
use carol_syntax::{AtomDecl, Change, PathDecl, Span};
use sqlite_items::Items;
use std::alloc::{AllocError, Global};

// Notes a fault at the first name of a path.
fn note_path(
    alloc: Global,
    finder: &mut Finder,
    kind: NameKind,
    path: &PathDecl,
) -> Result<(), AllocError>
    ensures { OnOk result (finder.new ≡ earlier finder.old (path_fault kind path.now)) }
{
    match path.parts.as_slice().split_first() {
        Some((first, _)) => finder.note_name(alloc, kind, first),
        None => finder.note(alloc, kind, Span { line: 0, column: 0 }, &[]),
    }
}

// A cell of this kind can be changed so.
fn suits(kind: CellKind, change: &Change) -> bool
    ensures { result ≡ suits kind change.now }
{
    match kind {
        CellKind::Counter => matches!(change, Change::Add(_) | Change::Take(_)),
        CellKind::Peak => matches!(change, Change::Raise(_)),
        CellKind::Flag => matches!(change, Change::Set),
    }
}

// Notes what is wrong with a change of what a path names.
fn note_change(
    alloc: Global,
    finder: &mut Finder,
    path: &PathDecl,
    change: &Change,
    found: Named,
) -> Result<(), AllocError>
    ensures { OnOk result
        (finder.new ≡ earliest finder.old (change_faults path.now change.now found)) }
{
    match found {
        Named::Cell { number: _, kind } => {
            if suits(kind, change) {
                return Ok(());
            }
            note_path(alloc, finder, NameKind::WrongKind, path)
        }
        Named::Missing => note_path(alloc, finder, NameKind::Unknown, path),
        Named::Members { .. } | Named::Misused => {
            note_path(alloc, finder, NameKind::WrongKind, path)
        }
    }
}

// Notes a cell that was seen, and else adds it to those that were.
fn note_again(
    alloc: Global,
    finder: &mut Finder,
    seen: &mut Seen,
    path: &PathDecl,
    found: Named,
) -> Result<(), AllocError>
    ensures faults { OnOk result
        (finder.new ≡ earliest finder.old (again_faults seen.old path.now found)) }
    ensures seen { OnOk result (HasSame seen.new (seen_with seen.old found)) }
{
    let Named::Cell { number, kind: _ } = found else {
        return Ok(());
    };
    if seen.add(number)? {
        return Ok(());
    }
    note_path(alloc, finder, NameKind::Twice, path)
}

// What a change adds, a peak's target, or 1 for a flag. Notes its faults.
fn amount(
    alloc: Global,
    finder: &mut Finder,
    around: &Around<'_>,
    at: &Point<'_>,
    change: &Change,
) -> Result<Term, AllocError>
    requires shape { shape.IsChange change.now }
    requires sized { IsShortChange change.now }
    ensures faults { OnOk result
        (finder.new ≡ earliest finder.old (amount_faults (in_body around.now at.now) change.now)) }
    ensures meaning { IfOk result (λ t. t ≡ amount_of (in_body around.now at.now) change.now) }
{
    match change {
        Change::Add(term) | Change::Raise(term) => {
            let amount = meaning(alloc, finder, around, at, term)?;
            Ok(amount)
        }
        Change::Take(term) => {
            let taken = meaning(alloc, finder, around, at, term)?;
            let amount = negated(&taken)?;
            Ok(amount)
        }
        Change::Set => Ok(Term::constant(alloc, 1)),
    }
}

// The number of a cell, 0 for what is none.
fn cell_number(found: Named) -> u32
    ensures { result ≡ cell_number found }
{
    match found {
        Named::Cell { number, kind: _ } => number,
        Named::Members { .. } | Named::Missing | Named::Misused => 0,
    }
}

// One change of an issue, behind changes of the cells that were seen. Notes its faults.
fn part(
    alloc: Global,
    finder: &mut Finder,
    around: &Around<'_>,
    at: &Point<'_>,
    seen: &mut Seen,
    atom: &AtomDecl,
) -> Result<Part, AllocError>
    requires shape { shape.IsAtom atom.now }
    requires sized { IsShortAtom atom.now }
    ensures faults { OnOk result (finder.new ≡ earliest finder.old
        (atom_faults around.now at.now seen.old atom.now (target around.now atom.now))) }
    ensures seen { OnOk result
        (HasSame seen.new (seen_with seen.old (target around.now atom.now))) }
    ensures part { IfOk result (λ p. p ≡ part_of around.now at.now atom.now) }
{
    let found = around.cells().named(atom.path.parts.as_slice());
    note_again(alloc, finder, seen, &atom.path, found)?;
    note_change(alloc, finder, &atom.path, &atom.change, found)?;
    let amount = amount(alloc, finder, around, at, &atom.change)?;
    Ok(Part {
        cell: cell_number(found),
        amount,
    })
}

/// The changes of an issue. Notes their faults.
pub(crate) fn issue(
    alloc: Global,
    finder: &mut Finder,
    around: &Around<'_>,
    at: &Point<'_>,
    atoms: &[AtomDecl],
) -> Result<PartList, AllocError>
    requires shape { AllByRecursion shape.IsAtom atoms.now }
    requires sized { AllByRecursion IsShortAtom atoms.now }
    ensures faults { OnOk result
        (finder.new ≡ earliest finder.old (issue_faults around.now at.now [] atoms.now)) }
    ensures parts { IfOk result (λ ps. ps ≡ parts_of around.now at.now atoms.now) }
{
    let mut seen = Seen::new(alloc);
    let mut parts = Items::new(alloc);
    let mut left = atoms;
    while let Some((atom, more)) = left.split_first() {
        let part = part(alloc, finder, around, at, &mut seen, atom)?;
        parts.push(part)?;
        left = more;
    }
    Ok(parts)
}

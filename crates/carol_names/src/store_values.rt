ghost use Rattle.std.specs.Prelude.{◌≡◌, ◌≤◌, ◌<◌, ◌+◌, ◌^◌, IfOk, OnOk, None};
ghost use Rattle.carol_formula.specs.Linear.{variable_of};
ghost use Rattle.carol_program.specs.Variables.{query_variable};
ghost use Rattle.carol_syntax.specs.Size.{most_items};
ghost use Rattle.carol_meaning.specs.Faults.{earlier, earliest, fault_at};
ghost use Rattle.carol_meaning.specs.Terms.{worth_of, found_faults};
ghost use Rattle.carol_meaning.specs.Stores.{first_word, path_span, sum_of_variables, wrong_kind, unknown, cell_value, set_value, no_value};
ghost use Rattle.carol_names.specs.Numbered.{IsNumbered};

use crate::{Finder, plus};
use carol_formula::{Term, Variable};
use carol_meaning::{NameKind, Named};
use carol_syntax::{Ident, Span, ValueDecl};
use std::alloc::{AllocError, Global};

// The first name of a path.
fn first_word(parts: &[Ident]) -> &[u8]
    ensures { result.now ≡ first_word parts.now }
{
    match parts.split_first() {
        Some((first, _)) => first.word.bytes(),
        None => &[],
    }
}

// The place of a path, or else the given one.
fn path_span(span: Span, parts: &[Ident]) -> Span
    ensures { result ≡ path_span span parts.now }
{
    match parts.split_first() {
        Some((first, _)) => first.span,
        None => span,
    }
}

/// Notes a fault of a path, at its first name; a path of no names has the given place.
pub fn note_path(
    alloc: Global,
    finder: &mut Finder,
    kind: NameKind,
    span: Span,
    parts: &[Ident],
) -> Result<(), AllocError>
    ensures { OnOk result (finder.new ≡ earlier finder.old
        (fault_at kind (path_span span parts.now) (first_word parts.now))) }
{
    finder.note(alloc, kind, path_span(span, parts), first_word(parts))
}

/// A value that is of the wrong kind as a whole. It is worth nothing.
pub fn wrong_kind(
    alloc: Global,
    finder: &mut Finder,
    value: &ValueDecl,
) -> Result<Option<Term>, AllocError>
    ensures faults { OnOk result
        (finder.new ≡ earliest finder.old (found_faults (wrong_kind value.now))) }
    ensures worth { IfOk result (λ t. t ≡ None) }
{
    let word = first_word(value.parts.as_slice());
    finder.note(alloc, NameKind::WrongKind, value.span, word)?;
    Ok(None)
}

/// A value whose path names nothing. It is worth nothing.
pub fn unknown(
    alloc: Global,
    finder: &mut Finder,
    value: &ValueDecl,
) -> Result<Option<Term>, AllocError>
    ensures faults { OnOk result
        (finder.new ≡ earliest finder.old (found_faults (unknown value.now))) }
    ensures worth { IfOk result (λ t. t ≡ None) }
{
    let parts = value.parts.as_slice();
    note_path(alloc, finder, NameKind::Unknown, value.span, parts)?;
    Ok(None)
}

// The sum of as many variables, from the first on.
fn sum_of_variables(alloc: Global, first: u32, count: u32) -> Result<Term, AllocError>
    requires { first + count < 2 ^ 32 }
    ensures { IfOk result (λ t. t ≡ sum_of_variables first count) }
{
    if count == 0 {
        return Ok(Term::constant(alloc, 0));
    }
    if count == 1 {
        let variable = Term::variable(alloc, Variable(first))?;
        return Ok(variable);
    }
    let half = count / 2;
    let left = sum_of_variables(alloc, first, half)?;
    let right = sum_of_variables(alloc, first + half, count - half)?;
    let sum = plus(&left, &right)?;
    Ok(sum)
}

/// A value that wants a cell, by what its path names. The cells' variables begin at `base`. Notes
/// its fault.
pub fn cell_value(
    alloc: Global,
    finder: &mut Finder,
    base: u32,
    value: &ValueDecl,
    named: Named,
) -> Result<Option<Term>, AllocError>
    requires base { base ≤ query_variable most_items 0 }
    requires numbered { IsNumbered named }
    ensures faults { OnOk result
        (finder.new ≡ earliest finder.old (found_faults (cell_value base value.now named))) }
    ensures worth { IfOk result (λ t. t ≡ worth_of (cell_value base value.now named)) }
{
    match named {
        Named::Cell { number, kind: _ } => {
            let variable = Term::variable(alloc, Variable(base + number))?;
            Ok(Some(variable))
        }
        Named::Members { first: _, count: _ } | Named::Misused => wrong_kind(alloc, finder, value),
        Named::Missing => unknown(alloc, finder, value),
    }
}

/// A value that wants a set, by what its path names. The cells' variables begin at `base`. Notes
/// its fault.
pub fn set_value(
    alloc: Global,
    finder: &mut Finder,
    base: u32,
    value: &ValueDecl,
    named: Named,
) -> Result<Option<Term>, AllocError>
    requires base { base ≤ query_variable most_items 0 }
    requires numbered { IsNumbered named }
    ensures faults { OnOk result
        (finder.new ≡ earliest finder.old (found_faults (set_value base value.now named))) }
    ensures worth { IfOk result (λ t. t ≡ worth_of (set_value base value.now named)) }
{
    match named {
        Named::Members { first, count } => {
            let sum = sum_of_variables(alloc, base + first, count)?;
            Ok(Some(sum))
        }
        Named::Cell { number: _, kind: _ } | Named::Misused => wrong_kind(alloc, finder, value),
        Named::Missing => unknown(alloc, finder, value),
    }
}

/// A value that no path can be right for. It is worth nothing; its fault is noted.
pub(crate) fn no_value(
    alloc: Global,
    finder: &mut Finder,
    value: &ValueDecl,
    named: Named,
) -> Result<Option<Term>, AllocError>
    ensures faults { OnOk result
        (finder.new ≡ earliest finder.old (found_faults (no_value value.now named))) }
    ensures worth { IfOk result (λ t. t ≡ worth_of (no_value value.now named)) }
{
    match named {
        Named::Missing => unknown(alloc, finder, value),
        Named::Cell { number: _, kind: _ }
        | Named::Members { first: _, count: _ }
        | Named::Misused => wrong_kind(alloc, finder, value),
    }
}

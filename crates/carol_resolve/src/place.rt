ghost use Rattle.std.specs.Prelude.{◌≡◌, ◌≤◌, IfOk, IfSome, OnOk};
ghost use Rattle.std.specs.Option.{option_copied};
ghost use Rattle.carol_formula.specs.Linear.{variable_of};
ghost use Rattle.carol_program.specs.Variables.{param_variable, result_variable};
ghost use Rattle.carol_syntax.specs.Size.{most_items};
ghost use Rattle.carol_meaning.specs.Faults.{earliest};
ghost use Rattle.carol_meaning.specs.Terms.{Worth, worth_of, found_faults};
ghost use Rattle.carol_meaning.specs.Scopes.{alone, bound_value, queried_cell, queried_set, plain_value, size_value, look_plain, look_size};
ghost use Rattle.carol_names.specs.Bounded.{IsBounded, most_value};
ghost use Rattle.carol_names.specs.Numbered.{most_numbers};
ghost use Rattle.carol_resolve.specs.Scoped.{IsSafe};

use crate::scope::Scope;
use carol_formula::{Term, Variable};
use carol_meaning::Meaning;
use carol_names::{Cells, Finder, Ground, cell_value, set_value, unknown, wrong_kind};
use carol_program::{FIRST_PARAMETER, FIRST_QUERIED, RESULT_VARIABLE, STORE_VARIABLES};
use carol_syntax::{Ident, ValueDecl, ValueKind};
use std::alloc::{AllocError, Global};
use std::marker::Model;

/// A place of an operation as a place of values. Contracts see it as its cells, whether `result`
/// may stand there, and what names stand for.
#[derive(Drop)]
pub struct InScope<'a, 'c, 's> {
    cells: &'a Cells<'c>,
    scope: &'a Scope<'s>,
    outcome: bool,
}

impl<'a, 'c, 's> Model for InScope<'a, 'c, 's> {
    ghost use Rattle.carol_resolve.specs.Scoped.{Spot};

    ghost Value = { Spot };

    ghost view = { λ p. record { cells = p.cells.now; outcome = p.outcome; scope = p.scope.now } };
}

impl<'a, 'c, 's> InScope<'a, 'c, 's> {
    /// The place where these names stand for something; the flag says whether `result` may stand
    /// there.
    pub fn new(cells: &'a Cells<'c>, scope: &'a Scope<'s>, outcome: bool) -> InScope<'a, 'c, 's>
        ensures { result ≡
            record { cells = cells.entry.now; outcome = outcome; scope = scope.entry.now } }
    {
        InScope {
            cells,
            scope,
            outcome,
        }
    }
}

impl<'a, 'c, 's> Ground for InScope<'a, 'c, 's> {
    ghost use Rattle.carol_meaning.specs.Scopes.{in_scope};

    ghost look = { λ p. in_scope p.cells p.outcome p.scope };

    fn value(
        &self,
        alloc: Global,
        finder: &mut Finder,
        value: &ValueDecl,
    ) -> Result<Option<Term>, AllocError> {
        match value.kind {
            ValueKind::Plain => plain(self.cells, self.scope, alloc, finder, value),
            ValueKind::Size => size(self.cells, self.scope, alloc, finder, value),
            ValueKind::Outcome if self.outcome => {
                let outcome = Term::variable(alloc, Variable(RESULT_VARIABLE))?;
                Ok(Some(outcome))
            }
            ValueKind::Outcome
            | ValueKind::Here
            | ValueKind::There
            | ValueKind::SizeHere
            | ValueKind::SizeThere => wrong_kind(alloc, finder, value),
        }
    }
}

// A parameter, behind which nothing may stand.
fn parameter(
    alloc: Global,
    finder: &mut Finder,
    value: &ValueDecl,
    rest: &[Ident],
    number: u32,
) -> Result<Option<Term>, AllocError>
    requires { number ≤ most_numbers }
    ensures faults { OnOk result (finder.new ≡ earliest finder.old
        (found_faults (alone value.now rest.now (Worth (variable_of (param_variable number)))))) }
    ensures worth { IfOk result (λ t. t
        ≡ worth_of (alone value.now rest.now (Worth (variable_of (param_variable number))))) }
{
    if !rest.is_empty() {
        return wrong_kind(alloc, finder, value);
    }
    let variable = Term::variable(alloc, Variable(FIRST_PARAMETER + number))?;
    Ok(Some(variable))
}

// The name of a term, behind which nothing may stand.
fn bound(
    alloc: Global,
    finder: &mut Finder,
    value: &ValueDecl,
    rest: &[Ident],
    term: &Option<Term>,
) -> Result<Option<Term>, AllocError>
    ensures faults { OnOk result (finder.new ≡ earliest finder.old
        (found_faults (alone value.now rest.now (bound_value term.now)))) }
    ensures worth { IfOk result (λ t. t
        ≡ worth_of (alone value.now rest.now (bound_value term.now))) }
{
    if !rest.is_empty() {
        return wrong_kind(alloc, finder, value);
    }
    let Some(term) = term else {
        return Ok(None);
    };
    let copy = term.copy()?;
    Ok(Some(copy))
}

// A path behind the name of a query, which wants a cell.
fn queried_cell(
    cells: &Cells,
    alloc: Global,
    finder: &mut Finder,
    slot: u32,
    value: &ValueDecl,
    rest: &[Ident],
) -> Result<Option<Term>, AllocError>
    requires { slot ≤ most_items }
    ensures faults { OnOk result (finder.new ≡ earliest finder.old
        (found_faults (queried_cell cells.now slot value.now rest.now))) }
    ensures worth { IfOk result (λ t. t
        ≡ worth_of (queried_cell cells.now slot value.now rest.now)) }
{
    if rest.is_empty() {
        return wrong_kind(alloc, finder, value);
    }
    cell_value(
        alloc,
        finder,
        FIRST_QUERIED + STORE_VARIABLES * slot,
        value,
        cells.named(rest),
    )
}

// A path behind the name of a query, which wants a set.
fn queried_set(
    cells: &Cells,
    alloc: Global,
    finder: &mut Finder,
    slot: u32,
    value: &ValueDecl,
    rest: &[Ident],
) -> Result<Option<Term>, AllocError>
    requires { slot ≤ most_items }
    ensures faults { OnOk result (finder.new ≡ earliest finder.old
        (found_faults (queried_set cells.now slot value.now rest.now))) }
    ensures worth { IfOk result (λ t. t
        ≡ worth_of (queried_set cells.now slot value.now rest.now)) }
{
    if rest.is_empty() {
        return wrong_kind(alloc, finder, value);
    }
    set_value(
        alloc,
        finder,
        FIRST_QUERIED + STORE_VARIABLES * slot,
        value,
        cells.named(rest),
    )
}

// A name of this meaning and what stands behind it.
fn plain_value(
    cells: &Cells,
    alloc: Global,
    finder: &mut Finder,
    value: &ValueDecl,
    rest: &[Ident],
    meaning: Option<&Meaning>,
) -> Result<Option<Term>, AllocError>
    requires { IfSome meaning (λ m. IsSafe m.now) }
    ensures faults { OnOk result (finder.new ≡ earliest finder.old
        (found_faults (plain_value cells.now value.now rest.now (option_copied meaning.entry)))) }
    ensures worth { IfOk result (λ t. t
        ≡ worth_of (plain_value cells.now value.now rest.now (option_copied meaning.entry))) }
{
    match meaning {
        None => unknown(alloc, finder, value),
        Some(Meaning::Parameter { number }) => parameter(alloc, finder, value, rest, *number),
        Some(Meaning::Queried { slot }) => queried_cell(cells, alloc, finder, *slot, value, rest),
        Some(Meaning::Bound { term }) => bound(alloc, finder, value, rest, term),
        Some(Meaning::Elsewhere) => wrong_kind(alloc, finder, value),
    }
}

// A name of this meaning and what stands behind it, in a size.
fn size_value(
    cells: &Cells,
    alloc: Global,
    finder: &mut Finder,
    value: &ValueDecl,
    rest: &[Ident],
    meaning: Option<&Meaning>,
) -> Result<Option<Term>, AllocError>
    requires { IfSome meaning (λ m. IsSafe m.now) }
    ensures faults { OnOk result (finder.new ≡ earliest finder.old
        (found_faults (size_value cells.now value.now rest.now (option_copied meaning.entry)))) }
    ensures worth { IfOk result (λ t. t
        ≡ worth_of (size_value cells.now value.now rest.now (option_copied meaning.entry))) }
{
    match meaning {
        None => unknown(alloc, finder, value),
        Some(Meaning::Queried { slot }) => queried_set(cells, alloc, finder, *slot, value, rest),
        Some(Meaning::Parameter { number: _ })
        | Some(Meaning::Bound { term: _ })
        | Some(Meaning::Elsewhere) => wrong_kind(alloc, finder, value),
    }
}

// A name of the operation and what stands behind it.
fn plain(
    cells: &Cells,
    scope: &Scope,
    alloc: Global,
    finder: &mut Finder,
    value: &ValueDecl,
) -> Result<Option<Term>, AllocError>
    ensures faults { OnOk result (finder.new ≡ earliest finder.old
        (found_faults (look_plain cells.now scope.now value.now value.now.parts))) }
    ensures worth { IfOk result (λ t. t
        ≡ worth_of (look_plain cells.now scope.now value.now value.now.parts)) }
    ensures bounded { IfOk result (λ t. IfSome t (IsBounded most_value)) }
{
    let Some((first, rest)) = value.parts.as_slice().split_first() else {
        return wrong_kind(alloc, finder, value);
    };
    let meaning = scope.look(first.word.bytes());
    plain_value(cells, alloc, finder, value, rest, meaning)
}

// A name of the operation and what stands behind it, in a size.
fn size(
    cells: &Cells,
    scope: &Scope,
    alloc: Global,
    finder: &mut Finder,
    value: &ValueDecl,
) -> Result<Option<Term>, AllocError>
    ensures faults { OnOk result (finder.new ≡ earliest finder.old
        (found_faults (look_size cells.now scope.now value.now value.now.parts))) }
    ensures worth { IfOk result (λ t. t
        ≡ worth_of (look_size cells.now scope.now value.now value.now.parts)) }
    ensures bounded { IfOk result (λ t. IfSome t (IsBounded most_value)) }
{
    let Some((first, rest)) = value.parts.as_slice().split_first() else {
        return wrong_kind(alloc, finder, value);
    };
    let meaning = scope.look(first.word.bytes());
    size_value(cells, alloc, finder, value, rest, meaning)
}

ghost use Rattle.std.specs.Prelude.{◌≡◌, [], None, OnOk};
ghost use Rattle.carol_meaning.specs.Faults.{rank, is_before, earlier, fault_at, fault_of};

use carol_meaning::{Fault, NameKind};
use carol_program::Name;
use carol_syntax::{Ident, Span};
use std::alloc::{AllocError, Global};
use std::marker::Model;

/// The first of the faults that were noted: by line, then by column, then by kind. Contracts see it
/// as that fault.
#[derive(Debug, Drop)]
pub struct Finder {
    first: Option<Fault>,
}

impl Model for Finder {
    ghost use Rattle.std.specs.Prelude.{Option};
    ghost use Rattle.carol_meaning.specs.declared.fault.Fault.{Fault};

    ghost Value = { Option Fault };

    ghost view = { λ f. f.first };
}

// The order of the kinds at one place.
fn rank(kind: NameKind) -> u8
    ensures { result ≡ rank kind }
{
    match kind {
        NameKind::Twice => 0,
        NameKind::Unknown => 1,
        NameKind::WrongKind => 2,
        NameKind::TooMany => 3,
        NameKind::TooWide => 4,
    }
}

// A fault of this kind at this place comes before the other.
fn is_before(kind: NameKind, span: Span, other: &Fault) -> bool
    ensures { result ≡ is_before (fault_at kind span []) other.now }
{
    let at = other.span;
    span.line < at.line
        || (span.line == at.line
            && (span.column < at.column
                || (span.column == at.column && rank(kind) < rank(other.kind))))
}

impl Finder {
    /// Nothing was noted.
    pub fn new() -> Finder
        ensures { result ≡ None }
    {
        Finder { first: None }
    }

    /// Notes a fault.
    pub fn note(
        &mut self,
        alloc: Global,
        kind: NameKind,
        span: Span,
        name: &[u8],
    ) -> Result<(), AllocError>
        ensures { OnOk result (self.new ≡ earlier self.old (fault_at kind span name.now)) }
    {
        let is_first = match &self.first {
            None => true,
            Some(kept) => is_before(kind, span, kept),
        };
        if is_first {
            let name = Name::new(alloc, name)?;
            self.first = Some(Fault { kind, name, span });
        }
        Ok(())
    }

    /// Notes a fault at a name.
    pub fn note_name(
        &mut self,
        alloc: Global,
        kind: NameKind,
        name: &Ident,
    ) -> Result<(), AllocError>
        ensures { OnOk result (self.new ≡ earlier self.old (fault_of kind name.now)) }
    {
        self.note(alloc, kind, name.span, name.word.bytes())
    }

    /// The first fault, if there is one.
    pub fn into_first(self) -> Option<Fault>
        ensures { result ≡ self }
    {
        self.first
    }
}

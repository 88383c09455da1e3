ghost use Rattle.std.specs.Prelude.{◌≡◌, map, OnOk, IfOk, not, if◌then◌else◌, ◌++◌, ◌∷◌, []};
ghost use Rattle.carol_meaning.specs.Faults.{earliest, fault_of};
ghost use Rattle.carol_meaning.specs.Declarations.{is_among, twice_in, too_many};

use crate::finder::Finder;
use carol_meaning::NameKind;
use carol_syntax::{CellDecl, FieldDecl, GuardDecl, Ident, OpDecl, ParamDecl};
use indexmap::IndexSet;
use sqlite_items::at;
use std::alloc::{AllocError, Global};
use std::marker::Model;

/// What declares a name.
pub trait Declares {
    ghost use Rattle.std.specs.Prelude.{◌≡◌};
    ghost use Rattle.carol_syntax.specs.declared.places.Ident.{Ident};

    ghost ident: { Self → Ident };

    /// The name that is declared.
    fn ident(&self) -> &Ident
        ensures { result.now ≡ ident self.now };
}

impl Declares for Ident {
    ghost ident = { λ i. i };

    fn ident(&self) -> &Ident {
        self
    }
}

impl<'a> Declares for &'a Ident {
    ghost ident = { λ i. i.now };

    fn ident(&self) -> &Ident {
        self
    }
}

impl Declares for FieldDecl {
    ghost ident = { λ f. f.name };

    fn ident(&self) -> &Ident {
        &self.name
    }
}

impl Declares for GuardDecl {
    ghost ident = { λ g. g.name };

    fn ident(&self) -> &Ident {
        &self.name
    }
}

impl Declares for ParamDecl {
    ghost ident = { λ p. p.name };

    fn ident(&self) -> &Ident {
        &self.name
    }
}

impl Declares for OpDecl {
    ghost ident = { λ o. o.name };

    fn ident(&self) -> &Ident {
        &self.name
    }
}

impl Declares for CellDecl {
    ghost use Rattle.carol_meaning.specs.Cells.{name_of};

    ghost ident = { name_of };

    fn ident(&self) -> &Ident {
        match self {
            CellDecl::Field(field) => &field.name,
            CellDecl::Set { name, members: _ } => name,
            CellDecl::Record { name, fields: _ } => name,
        }
    }
}

// Words, each once, in the order in which they were added.
#[derive(Drop)]
struct Words<'a> {
    set: IndexSet<&'a [u8]>,
}

impl<'a> Model for Words<'a> {
    ghost use Rattle.std.specs.Prelude.{List, ℕ, map};

    ghost Value = { List (List ℕ) };

    ghost view = { λ w. map (λ k. k.now) w.set.keys };
}

impl<'a> Words<'a> {
    fn new(alloc: Global) -> Words<'a>
        ensures { result ≡ [] }
    {
        Words {
            set: IndexSet::new(alloc),
        }
    }

    // Adds the word, unless it is there; tells whether it was not.
    fn add(&mut self, word: &'a [u8]) -> Result<bool, AllocError>
        ensures fresh { IfOk result (λ fresh. fresh ≡ not (is_among word.entry.now self.old)) }
        ensures added { OnOk result (self.new ≡ (if is_among word.entry.now self.old
            then self.old else self.old ++ word.entry.now ∷ [])) }
    {
        let fresh = self.set.insert(word)?;
        Ok(fresh)
    }
}

// Notes the name where it was seen, and else adds it to those that were.
fn note_again<'a>(
    alloc: Global,
    finder: &mut Finder,
    seen: &mut Words<'a>,
    name: &'a Ident,
) -> Result<(), AllocError>
    ensures faults { OnOk result (finder.new
        ≡ earliest finder.old (if is_among name.entry.now.word seen.old
        then fault_of NameKind.Twice name.entry.now ∷ [] else [])) }
    ensures seen { OnOk result (seen.new ≡ (if is_among name.entry.now.word seen.old
        then seen.old else seen.old ++ name.entry.now.word ∷ [])) }
{
    if seen.add(name.word.bytes())? {
        return Ok(());
    }
    finder.note_name(alloc, NameKind::Twice, name)
}

/// Notes each name that stands behind an equal one.
pub fn note_twice<T: Declares>(
    alloc: Global,
    finder: &mut Finder,
    items: &[T],
) -> Result<(), AllocError>
    ensures { OnOk result (finder.new ≡ earliest finder.old (twice_in (map T.ident items.now))) }
{
    let mut seen = Words::new(alloc);
    for item in items {
        note_again(alloc, finder, &mut seen, item.ident())?;
    }
    Ok(())
}

/// Notes the first name beyond the most that there may be.
pub fn note_too_many<T: Declares>(
    alloc: Global,
    finder: &mut Finder,
    most: usize,
    items: &[T],
) -> Result<(), AllocError>
    ensures { OnOk result (finder.new
        ≡ earliest finder.old (too_many most (map T.ident items.now))) }
{
    if let Some(item) = at(items, most) {
        finder.note_name(alloc, NameKind::TooMany, item.ident())?;
    }
    Ok(())
}

ghost use Rattle.std.specs.Prelude.{◌≡◌, ◌≤◌, ◌<◌, ◌+◌, ◌++◌, [], IfSome, length, map, OnOk};
ghost use Rattle.std.specs.List.{flat_map};
ghost use Rattle.carol_meaning.specs.Faults.{earliest};
ghost use Rattle.carol_meaning.specs.Declarations.{place_of, too_many};
ghost use Rattle.carol_meaning.specs.Cells.{kind_of, named, member, field, inside, cell_names, member_faults, cell_faults};
ghost use Rattle.carol_meaning.specs.Stores.{words};
ghost use Rattle.carol_names.specs.Numbered.{IsNumbered, most_numbers};
ghost use Rattle.carol_syntax.specs.Size.{cell_count, cell_total};

use crate::declared::{Declares, note_too_many, note_twice};
use crate::finder::Finder;
use crate::kinds::kind_of;
use carol_meaning::Named;
use carol_store::{CellKind, MOST_CELLS};
use carol_syntax::{CellDecl, FieldDecl, FieldKind, Ident};
use std::alloc::{AllocError, Global};
use std::marker::Model;

/// The declarations of a program's cells, at most 2^28 cells in all. Contracts see them as their
/// list.
#[derive(Drop)]
pub struct Cells<'a> {
    declarations: &'a [CellDecl],
}

impl<'a> Model for Cells<'a> {
    ghost use Rattle.std.specs.Prelude.{List, ◌≤◌};
    ghost use Rattle.carol_syntax.specs.declared.cells.CellDecl.{CellDecl};
    ghost use Rattle.carol_syntax.specs.Size.{cell_total};
    ghost use Rattle.carol_names.specs.Numbered.{most_numbers};

    ghost Value = { List CellDecl };

    ghost view = { λ c. c.declarations.now };

    ghost invariant = { λ c. cell_total c.declarations.now ≤ most_numbers };
}

impl<'a> Cells<'a> {
    /// The cells of these declarations.
    pub fn new(declarations: &'a [CellDecl]) -> Cells<'a>
        requires { cell_total declarations.now ≤ most_numbers }
        ensures { result ≡ declarations.entry.now }
    {
        Cells { declarations }
    }

    /// The declarations.
    pub fn declarations(&self) -> &'a [CellDecl]
        ensures { result.now ≡ self.now }
    {
        self.declarations
    }

    /// What a path names.
    pub fn named(&self, path: &[Ident]) -> Named
        ensures named { result ≡ named self.now (words path.now) }
        ensures numbered { IsNumbered result }
    {
        let Some((first, rest)) = path.split_first() else {
            return Named::Missing;
        };
        let mut left = self.declarations;
        let mut before = 0;
        while let Some((declaration, more)) = left.split_first() {
            if first.word.bytes() == declaration.ident().word.bytes() {
                return inside(before, declaration, rest);
            }
            before += cell_count(declaration) as u32;
            left = more;
        }
        Named::Missing
    }
}

/// How many cells a declaration makes.
pub fn cell_count(declaration: &CellDecl) -> usize
    ensures { result ≡ cell_count declaration.now }
{
    match declaration {
        CellDecl::Field(_) => 1,
        CellDecl::Set { name: _, members } => members.len(),
        CellDecl::Record { name: _, fields } => fields.len(),
    }
}

/// Where a name with these bytes stands among names, first of all.
pub fn place_of<T: Declares>(items: &[T], word: &[u8]) -> Option<u32>
    requires { length items.now ≤ most_numbers }
    ensures place { result ≡ place_of word.now (map T.ident items.now) }
    ensures within { IfSome result (λ n. n < length items.now) }
{
    let mut place = 0;
    for item in items {
        if word == item.ident().word.bytes() {
            return Some(place);
        }
        place += 1;
    }
    None
}

// What the rest of a path names in a set, whose first cell has this number.
fn member(before: u32, members: &[Ident], word: &Ident, rest: &[Ident]) -> Named
    requires { before + length members.now ≤ most_numbers }
    ensures named { result ≡ member before (place_of word.now.word members.now) (words rest.now) }
    ensures numbered { IsNumbered result }
{
    let Some(place) = place_of(members, word.word.bytes()) else {
        return Named::Missing;
    };
    if rest.is_empty() {
        Named::Cell {
            number: before + place,
            kind: CellKind::Flag,
        }
    } else {
        Named::Misused
    }
}

// What the rest of a path names in a record, whose first cell has this number.
fn field(before: u32, fields: &[FieldDecl], word: &Ident, rest: &[Ident]) -> Named
    requires { before + length fields.now ≤ most_numbers }
    ensures named { result ≡ field before fields.now
        (place_of word.now.word (map (λ f. f.name) fields.now)) (words rest.now) }
    ensures numbered { IsNumbered result }
{
    let Some(place) = place_of(fields, word.word.bytes()) else {
        return Named::Missing;
    };
    if rest.is_empty() {
        Named::Cell {
            number: before + place,
            kind: kind_of(fields[place as usize].kind),
        }
    } else {
        Named::Misused
    }
}

// What the rest of a path names in a declaration, whose first cell has this number.
fn inside(before: u32, declaration: &CellDecl, rest: &[Ident]) -> Named
    requires { before + cell_count declaration.now ≤ most_numbers }
    ensures named { result ≡ inside before declaration.now (words rest.now) }
    ensures numbered { IsNumbered result }
{
    let Some((word, more)) = rest.split_first() else {
        return whole(before, declaration);
    };
    match declaration {
        CellDecl::Field(_) => Named::Misused,
        CellDecl::Set { name: _, members } => member(before, members.as_slice(), word, more),
        CellDecl::Record { name: _, fields } => field(before, fields.as_slice(), word, more),
    }
}

// What a declaration's own name names.
fn whole(before: u32, declaration: &CellDecl) -> Named
    requires { before + cell_count declaration.now ≤ most_numbers }
    ensures named { result ≡ inside before declaration.now [] }
    ensures numbered { IsNumbered result }
{
    match declaration {
        CellDecl::Field(field) => Named::Cell {
            number: before,
            kind: kind_of(field.kind),
        },
        CellDecl::Set { name: _, members } => Named::Members {
            first: before,
            count: members.len() as u32,
        },
        CellDecl::Record { name: _, fields: _ } => Named::Misused,
    }
}

// The names that items declare, at the end of those before.
fn push_all<'a, T: Declares>(names: &mut Vec<&'a Ident>, items: &'a [T]) -> Result<(), AllocError>
    ensures { OnOk result (map (λ i. i.now) names.new.items
        ≡ map (λ i. i.now) names.old.items ++ map T.ident items.entry.now) }
{
    for item in items {
        names.push(item.ident())?;
    }
    Ok(())
}

// The names by which a declaration's cells are declared, at the end of those before.
fn push_names<'a>(names: &mut Vec<&'a Ident>, declaration: &'a CellDecl) -> Result<(), AllocError>
    ensures { OnOk result (map (λ i. i.now) names.new.items
        ≡ map (λ i. i.now) names.old.items ++ cell_names declaration.entry.now) }
{
    match declaration {
        CellDecl::Field(field) => {
            names.push(&field.name)?;
            Ok(())
        }
        CellDecl::Set { name: _, members } => push_all(names, members.as_slice()),
        CellDecl::Record { name: _, fields } => push_all(names, fields.as_slice()),
    }
}

/// Notes what is wrong with declarations of cells.
#[tactic(auto, using(crate::proofs::NameLaws::appended))]
pub fn note_cells(
    alloc: Global,
    finder: &mut Finder,
    declarations: &[CellDecl],
) -> Result<(), AllocError>
    ensures { OnOk result (finder.new ≡ earliest finder.old (cell_faults declarations.now)) }
{
    note_twice(alloc, finder, declarations)?;
    note_all_members(alloc, finder, declarations)?;
    note_most_cells(alloc, finder, declarations)
}

// Notes the first cell beyond the most that there may be.
fn note_most_cells(
    alloc: Global,
    finder: &mut Finder,
    declarations: &[CellDecl],
) -> Result<(), AllocError>
    ensures { OnOk result (finder.new
        ≡ earliest finder.old (too_many MOST_CELLS (flat_map cell_names declarations.now))) }
{
    let mut names = Vec::new(alloc);
    for declaration in declarations {
        push_names(&mut names, declaration)?;
    }
    note_too_many(alloc, finder, MOST_CELLS, names.as_slice())
}

// Notes members of each set, and fields of each record, that have the same name.
fn note_all_members(
    alloc: Global,
    finder: &mut Finder,
    declarations: &[CellDecl],
) -> Result<(), AllocError>
    ensures { OnOk result (finder.new
        ≡ earliest finder.old (flat_map member_faults declarations.now)) }
{
    for declaration in declarations {
        note_members(alloc, finder, declaration)?;
    }
    Ok(())
}

// Notes members of a set, or fields of a record, that have the same name.
fn note_members(
    alloc: Global,
    finder: &mut Finder,
    declaration: &CellDecl,
) -> Result<(), AllocError>
    ensures { OnOk result (finder.new ≡ earliest finder.old (member_faults declaration.now)) }
{
    match declaration {
        CellDecl::Field(_) => Ok(()),
        CellDecl::Set { name: _, members } => note_twice(alloc, finder, members.as_slice()),
        CellDecl::Record { name: _, fields } => note_twice(alloc, finder, fields.as_slice()),
    }
}

ghost use Rattle.std.specs.Prelude.{◌≡◌, ◌≤◌, ◌+◌, ◌++◌, length, map, pos};
ghost use Rattle.std.specs.List.{flat_map};
ghost use Rattle.carol_syntax.specs.Size.{cell_count, cell_total};
ghost use Rattle.carol_meaning.specs.Cells.{starts_in};

use carol_store::{MOST_CELLS, ShortList, Store};
use carol_syntax::{CellDecl, FieldDecl, Ident};
use std::alloc::Global;

// The values that a set's cells start with, behind others.
fn push_members(starts: &mut ShortList<i64>, members: &[Ident])
    requires { length starts.old + length members.now ≤ MOST_CELLS }
    ensures { starts.new ≡ starts.old ++ map (λ m. pos 0) members.now }
{
    for _member in members {
        starts.push(0);
    }
}

// The values that a record's cells start with, behind others.
fn push_fields(starts: &mut ShortList<i64>, fields: &[FieldDecl])
    requires { length starts.old + length fields.now ≤ MOST_CELLS }
    ensures { starts.new ≡ starts.old ++ map (λ f. f.start) fields.now }
{
    for field in fields {
        starts.push(field.start);
    }
}

// The values that a declaration's cells start with, behind others.
fn push_starts(starts: &mut ShortList<i64>, declaration: &CellDecl)
    requires { length starts.old + cell_count declaration.now ≤ MOST_CELLS }
    ensures { starts.new ≡ starts.old ++ starts_in declaration.now }
{
    match declaration {
        CellDecl::Field(field) => starts.push(field.start),
        CellDecl::Set { name: _, members } => push_members(starts, members.as_slice()),
        CellDecl::Record { name: _, fields } => push_fields(starts, fields.as_slice()),
    }
}

/// What the cells that are declared start with, in their order. There are at most sixteen.
pub fn initial(alloc: Global, declarations: &[CellDecl]) -> Store
    requires { cell_total declarations.now ≤ MOST_CELLS }
    ensures { result ≡ flat_map starts_in declarations.now }
{
    let mut starts = ShortList::new(alloc);
    for declaration in declarations {
        push_starts(&mut starts, declaration);
    }
    Store::from_slice(alloc, starts.as_slice())
}

ghost use Rattle.std.specs.Prelude.{◌≡◌, ◌≤◌, ◌+◌, ◌++◌, length, map};
ghost use Rattle.std.specs.List.{flat_map};
ghost use Rattle.carol_store.specs.declared.shape.CellKind.TheVariants.{Flag};
ghost use Rattle.carol_syntax.specs.Size.{cell_count, cell_total};
ghost use Rattle.carol_meaning.specs.Cells.{kind_of, kinds_in};

use carol_store::{CellKind, MOST_CELLS, Shape, ShortList};
use carol_syntax::{CellDecl, FieldDecl, FieldKind, Ident};
use std::alloc::Global;

/// The kind of the cell that a field declares.
pub(crate) fn kind_of(kind: FieldKind) -> CellKind
    ensures { result ≡ kind_of kind }
{
    match kind {
        FieldKind::Counter => CellKind::Counter,
        FieldKind::Peak => CellKind::Peak,
        FieldKind::Flag => CellKind::Flag,
    }
}

// The kinds of a set's cells, behind others.
fn push_members(kinds: &mut ShortList<CellKind>, members: &[Ident])
    requires { length kinds.old + length members.now ≤ MOST_CELLS }
    ensures { kinds.new ≡ kinds.old ++ map (λ m. Flag) members.now }
{
    for _member in members {
        kinds.push(CellKind::Flag);
    }
}

// The kinds of a record's cells, behind others.
fn push_fields(kinds: &mut ShortList<CellKind>, fields: &[FieldDecl])
    requires { length kinds.old + length fields.now ≤ MOST_CELLS }
    ensures { kinds.new ≡ kinds.old ++ map (λ f. kind_of f.kind) fields.now }
{
    for field in fields {
        kinds.push(kind_of(field.kind));
    }
}

// The kinds of a declaration's cells, behind others.
fn push_kinds(kinds: &mut ShortList<CellKind>, declaration: &CellDecl)
    requires { length kinds.old + cell_count declaration.now ≤ MOST_CELLS }
    ensures { kinds.new ≡ kinds.old ++ kinds_in declaration.now }
{
    match declaration {
        CellDecl::Field(field) => kinds.push(kind_of(field.kind)),
        CellDecl::Set { name: _, members } => push_members(kinds, members.as_slice()),
        CellDecl::Record { name: _, fields } => push_fields(kinds, fields.as_slice()),
    }
}

/// The kinds of the cells that are declared, in their order. There are at most sixteen.
pub fn shape(alloc: Global, declarations: &[CellDecl]) -> Shape
    requires { cell_total declarations.now ≤ MOST_CELLS }
    ensures { result ≡ flat_map kinds_in declarations.now }
{
    let mut kinds = ShortList::new(alloc);
    for declaration in declarations {
        push_kinds(&mut kinds, declaration);
    }
    Shape::new(alloc, kinds.as_slice())
}

ghost use Rattle.std.specs.Prelude.{◌≡◌, ◌++◌, map, IfOk, OnOk};
ghost use Rattle.std.specs.List.{flat_map};
ghost use Rattle.carol_meaning.specs.Cells.{dotted, titles_in};

use carol_program::{Name, NameList};
use carol_syntax::{CellDecl, FieldDecl, Ident};
use std::alloc::{AllocError, Global};

// The name of a member or a field.
fn dotted(alloc: Global, group: &Ident, item: &Ident) -> Result<Name, AllocError>
    ensures { IfOk result (λ name. name ≡ dotted group.now item.now) }
{
    let mut bytes = Vec::from_slice(alloc, group.word.bytes())?;
    bytes.push(b'.')?;
    bytes.extend_from_slice(item.word.bytes())?;
    Name::new(alloc, bytes.as_slice())
}

// The names of a set's cells, behind others.
fn push_members(
    alloc: Global,
    names: &mut NameList,
    group: &Ident,
    members: &[Ident],
) -> Result<(), AllocError>
    ensures { OnOk result (names.new ≡ names.old ++ map (dotted group.now) members.now) }
{
    for member in members {
        names.push(dotted(alloc, group, member)?)?;
    }
    Ok(())
}

// The names of a record's cells, behind others.
fn push_fields(
    alloc: Global,
    names: &mut NameList,
    group: &Ident,
    fields: &[FieldDecl],
) -> Result<(), AllocError>
    ensures { OnOk result (names.new ≡ names.old ++ map (λ f. dotted group.now f.name) fields.now) }
{
    for field in fields {
        names.push(dotted(alloc, group, &field.name)?)?;
    }
    Ok(())
}

// The names of a declaration's cells, behind others.
fn push_titles(
    alloc: Global,
    names: &mut NameList,
    declaration: &CellDecl,
) -> Result<(), AllocError>
    ensures { OnOk result (names.new ≡ names.old ++ titles_in declaration.now) }
{
    match declaration {
        CellDecl::Field(field) => {
            let name = Name::new(alloc, field.name.word.bytes())?;
            names.push(name)
        }
        CellDecl::Set { name, members } => push_members(alloc, names, name, members.as_slice()),
        CellDecl::Record { name, fields } => push_fields(alloc, names, name, fields.as_slice()),
    }
}

/// What the cells that are declared are called, in their order: each by its whole path.
pub fn titles(alloc: Global, declarations: &[CellDecl]) -> Result<NameList, AllocError>
    ensures { IfOk result (λ names. names ≡ flat_map titles_in declarations.now) }
{
    let mut names = NameList::new(alloc);
    for declaration in declarations {
        push_titles(alloc, &mut names, declaration)?;
    }
    Ok(names)
}

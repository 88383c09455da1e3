ghost use Rattle.std.specs.Prelude.{◌≡◌, ◌++◌, OnOk, [], ◌∷◌};
ghost use Rattle.carol_print.specs.Pieces.{Piece, Space, text_of};
ghost use Rattle.carol_print.specs.Canonical as canon;

use crate::printed::{Printed, push_text, push_with_commas};
use carol_syntax::{CellDecl, FieldDecl, FieldKind};
use std::alloc::AllocError;

// Appends the word of a kind of cells and a space.
fn push_kind(out: &mut Vec<u8>, kind: FieldKind) -> Result<(), AllocError>
    ensures { OnOk result
        (out.new.items ≡ out.old.items ++ text_of (canon.field_kind kind ∷ Space ∷ [])) }
{
    match kind {
        FieldKind::Counter => push_text(out, "counter "),
        FieldKind::Peak => push_text(out, "peak "),
        FieldKind::Flag => push_text(out, "flag "),
    }
}

// Appends the declaration of one cell, without a line feed.
fn push_field(out: &mut Vec<u8>, field: &FieldDecl) -> Result<(), AllocError>
    ensures { OnOk result (out.new.items ≡ out.old.items ++ text_of (canon.field field.now)) }
{
    push_kind(out, field.kind)?;
    field.name.push_to(out)?;
    push_text(out, " = ")?;
    field.start.push_to(out)?;
    push_text(out, ";")
}

// Appends the cells of a record, each behind a space.
fn push_fields(out: &mut Vec<u8>, fields: &[FieldDecl]) -> Result<(), AllocError>
    ensures { OnOk result (out.new.items ≡ out.old.items ++ text_of (canon.fields fields.now)) }
{
    for field in fields {
        push_text(out, " ")?;
        push_field(out, field)?;
    }
    Ok(())
}

impl Printed for CellDecl {
    ghost pieces = { canon.cell };

    fn push_to(&self, out: &mut Vec<u8>) -> Result<(), AllocError> {
        match self {
            CellDecl::Field(field) => {
                push_field(out, field)?;
                push_text(out, "\n")
            }
            CellDecl::Set { name, members } => {
                push_text(out, "set ")?;
                name.push_to(out)?;
                push_text(out, " { ")?;
                push_with_commas(out, members.as_slice())?;
                push_text(out, " };\n")?;
                Ok(())
            }
            CellDecl::Record { name, fields } => {
                push_text(out, "record ")?;
                name.push_to(out)?;
                push_text(out, " {")?;
                push_fields(out, fields.as_slice())?;
                push_text(out, " }\n")?;
                Ok(())
            }
        }
    }
}

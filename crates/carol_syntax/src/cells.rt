use crate::places::{Ident, IdentList};
use sqlite_items::Items;

/// What a cell is: a number to add to, a number that only rises, or 0 or 1.
#[derive(Clone, Copy, Debug, PartialEq, Eq)]
pub enum FieldKind {
    Counter,
    Peak,
    Flag,
}

/// A cell by itself or in a record, with its initial value, at most 10^12 in absolute value and 0
/// or 1 for a flag.
#[derive(Debug, Drop)]
pub struct FieldDecl {
    pub kind: FieldKind,
    pub name: Ident,
    pub start: i64,
}

/// Fields in the order of the text.
pub type FieldDeclList = Items<FieldDecl>;

/// A declaration of one cell, of a flag a member, or of several cells under one name.
#[derive(Debug, Drop)]
pub enum CellDecl {
    Field(FieldDecl),
    Set { name: Ident, members: IdentList },
    Record { name: Ident, fields: FieldDeclList },
}

/// Declarations of cells in the order of the text.
pub type CellDeclList = Items<CellDecl>;

use crate::words::Word;
use sqlite_items::Items;

/// The place of a first byte: line and column, both from 1, the column in bytes.
#[derive(Clone, Copy, Debug, PartialEq, Eq)]
pub struct Span {
    pub line: u32,
    pub column: u32,
}

/// A name and where it stands.
#[derive(Debug, Drop)]
pub struct Ident {
    pub word: Word,
    pub span: Span,
}

/// Names in the order of the text.
pub type IdentList = Items<Ident>;

/// A number without a sign, at most 10^12 in a file, and where it stands.
#[derive(Clone, Copy, Debug, PartialEq, Eq)]
pub struct Num {
    pub value: u64,
    pub span: Span,
}

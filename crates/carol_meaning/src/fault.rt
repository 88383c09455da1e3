use carol_program::Name;
use carol_syntax::Span;

/// What is wrong with a name or a term, in the order in which faults at one place are named.
#[derive(Clone, Copy, Debug, PartialEq, Eq)]
pub enum NameKind {
    /// A name is declared a second time where it may be only once, or an issue names a cell a
    /// second time.
    Twice,
    /// A name isn't declared, or not before it is used.
    Unknown,
    /// What the name stands for can't be used in this way.
    WrongKind,
    /// One declaration more than there may be.
    TooMany,
    /// A coefficient or the constant of a term is too large.
    TooWide,
}

/// One thing that is wrong: the place, and the first name of the path at fault. The name is empty
/// where there is none.
#[derive(Debug, Drop)]
pub struct Fault {
    pub kind: NameKind,
    pub name: Name,
    pub span: Span,
}

use crate::formulas::{FormulaDecl, TermDecl};
use crate::places::{Ident, IdentList};
use sqlite_items::{Boxed, Items};

/// The path of a cell: one name, or a set's or record's and a member's.
#[derive(Debug, Drop)]
pub struct PathDecl {
    pub parts: IdentList,
}

/// What an issue does to a cell: `+=`, `-=`, `raise` or `set`.
#[derive(Debug, Drop)]
pub enum Change {
    Add(TermDecl),
    Take(TermDecl),
    Raise(TermDecl),
    Set,
}

/// One change of an issue.
#[derive(Debug, Drop)]
pub struct AtomDecl {
    pub path: PathDecl,
    pub change: Change,
}

/// The changes of an issue in the order of the text, at least one.
pub type AtomDeclList = Items<AtomDecl>;

/// A statement that another one follows.
#[derive(Debug, Drop)]
pub enum Statement {
    Query { name: Ident, guard: Ident },
    Release,
    Let { name: Ident, term: TermDecl },
    Issue(AtomDeclList),
}

/// Statements in the order of the text.
pub type StatementList = Items<Statement>;

/// How a body ends.
#[cycle(body)]
#[derive(Drop)]
pub enum Last {
    Return(TermDecl),
    If {
        test: FormulaDecl,
        yes: Body,
        no: Body,
    },
}

/// The body of an operation or of a branch.
#[cycle(body)]
#[derive(Drop)]
pub struct Body {
    pub plain: StatementList,
    pub last: Boxed<Last>,
}

use crate::places::{IdentList, Span};
use sqlite_items::{Boxed, Items};

/// How a value in a term is written.
#[derive(Clone, Copy, Debug, PartialEq, Eq)]
pub enum ValueKind {
    /// The word `result`; it has no parts.
    Outcome,
    /// A path of one to three names.
    Plain,
    /// `here.` and a path.
    Here,
    /// `there.` and a path.
    There,
    /// `size( )` of a path.
    Size,
    /// `size(here. )` of a path.
    SizeHere,
    /// `size(there. )` of a path.
    SizeThere,
}

/// A value in a term, with the place of its first token.
#[derive(Debug, Drop)]
pub struct ValueDecl {
    pub span: Span,
    pub kind: ValueKind,
    pub parts: IdentList,
}

/// A product of a term: a factor, a value, or both, and whether it is taken away.
#[derive(Debug, Drop)]
pub struct ProductDecl {
    pub minus: bool,
    pub factor: Option<u64>,
    pub value: Option<ValueDecl>,
}

/// Products in the order of the text.
pub type ProductDeclList = Items<ProductDecl>;

/// A sum of at least one product, with the place of its first token.
#[derive(Debug, Drop)]
pub struct TermDecl {
    pub span: Span,
    pub products: ProductDeclList,
}

/// The sign of a comparison: `<=`, `<`, `>=`, `>`, `=` or `!=`, in this order.
#[derive(Clone, Copy, Debug, PartialEq, Eq)]
pub enum Sign {
    AtMost,
    Below,
    AtLeast,
    Above,
    Same,
    Differs,
}

/// A formula. Parentheses are gone; the tree keeps what they meant.
#[derive(Drop)]
pub enum FormulaDecl {
    True,
    False,
    Not(Boxed<FormulaDecl>),
    And(Boxed<FormulaDecl>, Boxed<FormulaDecl>),
    Or(Boxed<FormulaDecl>, Boxed<FormulaDecl>),
    Compare {
        left: TermDecl,
        sign: Sign,
        right: TermDecl,
    },
}

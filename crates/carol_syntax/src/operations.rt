use crate::bodies::Body;
use crate::formulas::FormulaDecl;
use crate::places::Ident;
use sqlite_items::Items;

/// A parameter and its refinement.
#[derive(Drop)]
pub struct ParamDecl {
    pub name: Ident,
    pub formula: FormulaDecl,
}

/// Parameters in the order of the text.
pub type ParamDeclList = Items<ParamDecl>;

/// An operation: its parameters, the refinement of its result, and its body.
#[derive(Drop)]
pub struct OpDecl {
    pub name: Ident,
    pub params: ParamDeclList,
    pub gives: FormulaDecl,
    pub body: Body,
}

/// Operations in the order of the text.
pub type OpDeclList = Items<OpDecl>;

//! The tree of a file, and what a text is cut into: names, numbers, symbols and keywords, each with
//! its place.
//!
//! A list is the kit's `Items`, seen as the list of its items, and a part that leads back to its
//! own type stands in the kit's `Boxed`, seen as what it holds: so a tree is plain data to a
//! contract. Formulas and bodies reach themselves; `specs/` has each of them once more as plain
//! data, for definitions that recurse.
//!
//! Layer: language. Called by the readers, the printer, and all that goes over trees.
#![tactic(auto)]

mod bodies;
mod cells;
mod cursor;
mod files;
mod formulas;
mod found;
mod kind;
mod lexeme;
mod limits;
mod operations;
mod place;
mod places;
mod public;
mod scenes;
mod words;

pub use bodies::{AtomDecl, AtomDeclList, Body, Change, Last, PathDecl, Statement, StatementList};
pub use cells::{CellDecl, CellDeclList, FieldDecl, FieldDeclList, FieldKind};
pub use files::{File, GuardDecl, GuardDeclList, ProgramDecl};
pub use formulas::{
    FormulaDecl, ProductDecl, ProductDeclList, Sign, TermDecl, ValueDecl, ValueKind,
};
pub use kind::{Kind, keywords};
pub use lexeme::{Lexeme, Lexemes, Stop, cut, one_cut};
pub use limits::{
    LARGEST, LONGEST_NAME, MOST_BODY_DEPTH, MOST_FORMULA_NODES, MOST_PROGRAM_BYTES,
    MOST_SCRIPT_LINES, MOST_TEXT_BYTES,
};
pub use operations::{OpDecl, OpDeclList, ParamDecl, ParamDeclList};
pub use place::Place;
pub use places::{Ident, IdentList, Num, Span};
pub use public::{Lexed, Token, TokenKind, TokenList, tokens};
pub use scenes::{
    CommandDecl, CommandDeclList, IntList, SceneDecl, ScriptLine, ScriptLineList, SessionDecl,
    SessionDeclList,
};
pub use words::Word;

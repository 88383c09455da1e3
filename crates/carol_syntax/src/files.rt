use crate::cells::CellDeclList;
use crate::formulas::FormulaDecl;
use crate::operations::OpDeclList;
use crate::places::Ident;
use crate::scenes::{SceneDecl, ScriptLineList};
use sqlite_items::Items;

/// A consistency guard: a formula over the store that was read and the global store.
#[derive(Drop)]
pub struct GuardDecl {
    pub name: Ident,
    pub formula: FormulaDecl,
}

/// Guards in the order of the text.
pub type GuardDeclList = Items<GuardDecl>;

/// The program part of a file.
#[derive(Drop)]
pub struct ProgramDecl {
    pub cells: CellDeclList,
    pub invariant: FormulaDecl,
    pub guards: GuardDeclList,
    pub ops: OpDeclList,
}

/// A file. `tail` is the offset of the first byte after the transcript's first line, where there is
/// a transcript.
#[derive(Drop)]
pub struct File {
    pub program: ProgramDecl,
    pub scene: Option<SceneDecl>,
    pub script: Option<ScriptLineList>,
    pub tail: Option<u32>,
}

use crate::names::Names;
use crate::steps::Step;
use carol_formula::Formula;
use carol_store::{Shape, Store};
use sqlite_items::Items;

/// A consistency guard: a formula over the store that was read and the global store.
#[derive(Debug, Drop)]
pub struct Guard {
    pub formula: Formula,
}

/// Guards by number, from 0.
pub type GuardList = Items<Guard>;

/// Formulas by number, from 0.
pub type FormulaList = Items<Formula>;

/// An operation: the refinements of its parameters and of its result, and what it does.
#[derive(Debug, Drop)]
pub struct Op {
    pub params: FormulaList,
    pub result: Formula,
    pub body: Step,
}

/// Operations by number, from 0.
pub type OpList = Items<Op>;

/// A program whose names are resolved.
#[derive(Drop)]
pub struct Program {
    pub shape: Shape,
    pub initial: Store,
    pub invariant: Formula,
    pub guards: GuardList,
    pub ops: OpList,
    pub names: Names,
}

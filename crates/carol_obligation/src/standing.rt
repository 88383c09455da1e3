use carol_formula::{Boxed, Formula};
use carol_program::{Op, Program};

/// An operation of a program, and its number.
#[derive(Clone, Copy)]
pub(crate) struct Operation<'a> {
    pub(crate) program: &'a Program,
    pub(crate) op: &'a Op,
    pub(crate) number: u32,
}

/// Where a body begins: what is known before the round, the round, the first of which is 0, and
/// whether it has a query.
#[derive(Drop)]
pub(crate) struct Standing {
    pub(crate) known: Boxed<Formula>,
    pub(crate) round: u32,
    pub(crate) asked: bool,
}

/// A place of an operation.
#[derive(Clone, Copy)]
pub(crate) struct At<'a> {
    pub(crate) of: Operation<'a>,
    pub(crate) standing: &'a Standing,
}

//! What may stand in the queries of an operation: the assignments of declared guards, how much each
//! bars, and the operation under one.
//!
//! An assignment is a list with one guard for each query, by slot. `assignments` lists all of them,
//! those that bar least first.
//!
//! Layer: checker. Called by `carol_advise`.
#![tactic(auto)]

mod copies;
mod counting;
mod every;
mod under;
mod weight;

pub use counting::{MOST_ASSIGNMENTS, are_few};
pub use every::{AssignmentList, GuardNumbers, assignments};
pub use under::op_under;
pub use weight::bars;

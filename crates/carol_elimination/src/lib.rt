//! Elimination of variables from rows of whole numbers: as functions of the list of rows, with
//! stages, the least combination of two rows, chosen values, and branches that are due; and in
//! code, over one list of all rows that were made, each with the step that made it.
//!
//! The definitions stand in `specs/`, and their laws in `proofs/`, which the crates above cite.
//!
//! Layer: solver. Called by `carol_linear`.
#![tactic(auto)]

mod allowance;
mod arena;
mod bounds;
mod choice;
mod combination;
mod elimination;
mod next;
mod order;
mod reading;
mod stage;
mod tightening;

pub use allowance::Allowance;
pub use arena::Arena;
pub use choice::{Choice, choose};
pub use elimination::{Elimination, Outcome, eliminate};
pub use order::variables_of;
pub use tightening::divisor;

//! Refutations: trees that show that a formula, or a list of formulas, is never true, the rows that
//! their steps make of the comparisons at a place, and their check.
//!
//! Layer: solver. Called by the decision procedures, and by `carol_decide`, which tests what they
//! answer.
#![tactic(auto)]

mod block;
mod checker;
mod column;
mod leaf;
mod place;
mod step;
mod tree;

pub use checker::{check, check_list, check_within, turns, turns_list};
pub use leaf::leaf_closes;
pub use place::{Item, Place};
pub use step::{RowStep, StepList};
pub use tree::Refutation;

//! The sequential reading of operations: the marks that they may leave, and what may be trusted.
//!
//! Layer: checker. Cited by all that says what a program may do; `next_action` is called by
//! `carol_machine`.
#![tactic(auto)]

mod accepted;
mod action;
mod effect;
mod next;
mod numbers;
mod outcome;
mod walk;

pub use accepted::Accepted;
pub use action::Action;
pub use carol_event::Cause;
pub use effect::amount_for;
pub use next::next_action;
pub use outcome::Outcome;
pub use walk::Walk;

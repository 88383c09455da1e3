//! What is owed at the places of a program's operations, as formulas: each is false of exactly the
//! numbers that are a breach at its place.
//!
//! A way is the list of what lies between the beginning of a body and a place of it. Numbers for
//! the variables and a way fix one reading: its arguments, its marks and the stores of its rounds.
//! One walk over a body, which keeps what is known on the way as one conjunction, hands each
//! formula to a collector.
//!
//! Two laws tie the formulas to the language: `good_laws`, that an operation is good exactly where
//! no place has a breach, and `truth_laws`, that a formula is false of exactly the breaches at its
//! place.
//!
//! Layer: checker. Called by `carol_typecheck`.
#![tactic(auto)]

mod body;
mod collector;
mod goodness;
mod known;
mod list;
mod names;
mod owed;
mod rows;
mod standing;
mod truths;
mod whole;

pub use body::walk;
pub use collector::Collector;
pub use goodness::good_laws;
pub use list::{Obligation, ObligationList, obligations};
pub use names::{FIRST_ROUND, round_variable};
pub use truths::truth_laws;
pub use whole::walk_all;

//! The audit of a transcript: its events are read and let into a house, up to the first that may
//! not come, and the house's report is compared with it, line by line.
//!
//! Layer: machine. Called by the program for `audit`.
#![tactic(auto)]

mod compare;
mod error;
mod finding;
mod first;
mod laws;
mod numbers;
mod ruling;
mod tail;
mod tail_law;

pub use compare::first_false_line;
pub use error::TailError;
pub use finding::{Finding, judge};
pub use laws::transcript_laws;
pub use numbers::event_numbers;
pub use ruling::{Ruling, audit};
pub use tail::read_events;
pub use tail_law::tail_laws;

//! The events of a history as texts, one line each.
//!
//! Layer: machine. Called by the house, the report and the audit.
#![tactic(auto)]

mod error;
mod event;
mod fields;
mod items;
mod kind;
mod parse;
mod print;
mod push;

pub use error::LineError;
pub use event::{Cause, Event};
pub use parse::parse_event;
pub use print::{print_event, push_cause, push_values};

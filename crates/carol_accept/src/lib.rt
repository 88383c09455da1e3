//! Whether a program is accepted, and the texts of that: of an accepted program its accords, of a
//! refusal its place and the numbers that show it.
//!
//! Layer: checker. `accept` and the texts are called by the program.
#![tactic(auto)]

mod check;
mod lines;
mod names;
mod refused;
mod text;
mod trail;
mod verdict;

pub use check::accept;
pub use lines::{line_laws, push_lines};
pub use names::{push_name, push_place, push_text, push_variable};
pub use refused::Refused;
pub use text::accord_text;
pub use verdict::{breach_text, undecided_text, verdict_text};

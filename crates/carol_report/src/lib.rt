//! What is said of a house, and how it is led: its report, a summary in a few lines, a script that
//! is carried out up to the first statement that gives no event, and sessions that go on in turn.
//!
//! Layer: machine. Called by the program, and by `carol_audit`.
#![tactic(auto)]

mod laws;
mod numbers;
mod results;
mod rounds;
mod script;
mod statement;
mod stores;
mod text;
mod whole;

pub use laws::turns_laws;
pub use rounds::run_in_turns;
pub use script::run_script;
pub use text::summary;
pub use whole::report;

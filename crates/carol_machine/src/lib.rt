//! One session over its plan of commands: what it goes on with, and where each act brings it.
//!
//! Layer: machine. Called by `carol_house`.
#![tactic(auto)]

mod fed;
mod machine;
mod wish;

pub use fed::Fed;
pub use machine::Machine;
pub use wish::Wish;

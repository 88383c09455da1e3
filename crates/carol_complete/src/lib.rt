//! That the words of the command line are done where nothing stands against their input: laws that
//! join what a word means with what a user knows of the input. Want of memory, and an input or an
//! output that fails, stand apart from that.
//!
//! Layer: program. There is no code here that does anything; `carol_tool` says it of a whole call,
//! and `carol_gen` says it of `gen N`.
#![tactic(auto)]

mod laws;

pub use laws::{complete_laws, decided_laws};

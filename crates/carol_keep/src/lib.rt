//! The word `keep K`: the history of a script is kept in a vault, on a disk in memory that stops at
//! a call; after a crash the vault is opened again, and what it has is reported.
//!
//! Layer: program. `carol_tool` calls it where it was asked for this word.
#![tactic(auto)]

mod word;

pub use word::keep_bytes;

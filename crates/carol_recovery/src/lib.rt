//! What is read back of a script's history that a vault keeps on a disk in memory: the disk stops at
//! a call and crashes, and the vault is opened again.
//!
//! Layer: disk. `carol_keep` reports what is read back.
#![tactic(auto)]

mod keeping;
mod opening;
mod statement;

pub use keeping::read_back;

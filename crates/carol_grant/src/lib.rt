//! The live grants of guards to sessions, and which of them bars an effect.
//!
//! For each way that a cell can go, the number of live grants whose accord lacks it is kept, over
//! all sessions and for each of them. So a bar is looked for only where others than the session
//! have one.
//!
//! Layer: machine. Called by `carol_house`.
#![tactic(auto)]

mod grants;
mod row;
mod tally;

pub use grants::Grants;

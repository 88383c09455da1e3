//! Which replica holds which entries of a journal. Kept are a bit for each entry, so that those
//! that one replica holds and another lacks are found 64 at a time, and each replica's front, below
//! which it holds all: a search begins there.
//!
//! Layer: machine. Called by `carol_replica` and `carol_house`.
#![tactic(auto)]

mod holding;
mod marks;
mod row;

pub use holding::Holding;
pub use row::MOST_ENTRIES;

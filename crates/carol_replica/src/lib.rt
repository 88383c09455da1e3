//! The journal of a replicated store; the store of each replica and of them all, kept while entries
//! arrive; and the same stores made anew from the journal and what each replica holds of it.
//!
//! Layer: machine. Called by `carol_house`.
#![tactic(auto)]

mod journal;
mod replicas;
mod views;

pub use journal::Journal;
pub use replicas::Replicas;
pub use views::{view, whole};

//! The word `advise OP`: which guards the queries of an operation need.
//!
//! Layer: program. Called by `carol_tool`.
#![tactic(auto)]

mod laws;
mod op_word;
mod text;
mod word;

pub use laws::advise_laws;
pub use op_word::{LONGEST_WORD, OpWord};
pub use word::advise_bytes;

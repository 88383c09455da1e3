//! The way from the bytes of an input to an accepted program in a scene, the same for every word:
//! reading, the parts that the word takes, the names, the scene, and whether the program is
//! accepted. What isn't right is told in this order. The tree of a file is let go here.
//!
//! Layer: program. `carol_words` goes this way, or a part of it.
#![tactic(auto)]

mod bytes;
mod named;
mod parts;
mod placed;
mod verdict;

pub use parts::{Scripted, Transcribed, take_program, take_scene, take_script, take_transcript};
pub use placed::Placed;
pub use verdict::accepted;

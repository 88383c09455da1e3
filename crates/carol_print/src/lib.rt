//! The canonical text of a file, printed: what it is made of, that it is laid out, that it is cut
//! again into what it was made of, and that its tokens are that file again.
//!
//! Layer: language. `print` is re-exported by `carol_parse`; no word of the program calls it.
#![tactic(auto)]

mod bodies;
mod cells;
mod formulas;
mod laying;
mod printed;
mod programs;
mod readback;
mod scenes;
mod terms;
mod whole;

pub use laying::{canonical_is_laid_out, laid_out};
pub use readback::{canonical_is_read, small_is_read};
pub use whole::print;

//! The text of large inputs, in the canonical layout.
//!
//! `specs/Generated` has the file as plain data, whose canonical text it is, and `specs/Layout` its
//! lines as they are written. `specs/Laws` says of the file that it is read from its text, and that
//! nothing is wrong with its program and its scene.
//!
//! Layer: names. `generate` is called by the program.
#![tactic(auto)]

mod generator;
mod laws;

pub use generator::{MOST_PER_SESSION, generate};
pub use laws::{generated_is_faultless, generated_is_read};

//! How events lie in a file: each in a record behind a gate.
//!
//! Layer: disk. The vault keeps its history so.
#![tactic(auto)]

mod image;
mod record;

pub use image::{Image, read_image};
pub use record::{Taken, first_record, record_body};

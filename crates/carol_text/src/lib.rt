//! Decimal numbers and fixed words, printed and read from the front of a text.
//!
//! Layer: language. Called by the crates that print or read texts: `carol_syntax`, `carol_event`,
//! `carol_accept`, `carol_audit`.
#![tactic(auto)]

mod bad_byte;
mod print;
mod read;

pub use bad_byte::BadByte;
pub use print::push_integer;
pub use read::{expect, integer, number, wide_integer, wide_number};

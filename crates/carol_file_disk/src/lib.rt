//! A disk over a real file.
//!
//! Layer: disk. It meets the promises of a disk by its own record of calls; what the file holds no
//! clause says.
#![tactic(auto)]

mod disk;
mod file;

pub use disk::FileDisk;
pub use file::{DiskFile, open_file};

//! Tests of disks: a crash at each call, what a file keeps, and the records in it.
//!
//! Layer: tests.
#![tactic(auto)]

#[cfg(test)]
mod records;
#[cfg(test)]
mod rows;

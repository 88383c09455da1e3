//! Tests of what no written case shows: faults in mid-stream, threads that are held at a gate, a
//! history that ends where it is full, and texts that no word prints.
//!
//! Layer: program. It holds nothing but tests.
#![tactic(auto)]

#[cfg(test)]
mod calls;
#[cfg(test)]
mod faults;
#[cfg(test)]
mod runs;
#[cfg(test)]
mod texts;

//! What the names of a file stand for, and what is wrong with them.
//!
//! `specs/` says each in definitions of its own: the faults of a program as a list, one small
//! definition for each rule, and apart from them the program that a tree stands for, which is total
//! and says nothing where there is a fault. That a tree without faults stands for a well-formed
//! program is the clause of `resolve_laws`; its proof follows the parts of a program.
//!
//! Layer: names. Cited by `carol_names` and `carol_resolve`, whose promises speak of it.
#![tactic(auto)]

mod fault;
mod laws;
mod meaning;
mod named;

pub use fault::{Fault, NameKind};
pub use laws::resolve_laws;
pub use meaning::Meaning;
pub use named::Named;

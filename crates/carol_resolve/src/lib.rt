//! The program that a file stands for, or the first thing that is wrong with its names.
//!
//! The whole file is looked through, past what is wrong with it, and the program is built on the
//! way. One pass over a body notes the faults and makes the steps: it loops along the statements,
//! of which there may be thousands, and recurses only into the branches of an `if`. Where something
//! is wrong nothing is kept but the first fault.
//!
//! Layer: names. `resolve` is called by the program for every program that is read.
#![tactic(auto)]

mod around;
mod bodies;
mod counts;
mod declared;
mod error;
mod heads;
mod issues;
mod lists;
mod operations;
mod parts;
mod place;
mod points;
mod refining;
mod scope;
mod seen;
mod spaces;
mod statements;
mod terms;
mod whole;

pub use around::Around;
pub use bodies::body;
pub use carol_meaning::NameKind;
pub use error::NameError;
pub use lists::listed;
pub use operations::operation;
pub use place::InScope;
pub use scope::Scope;
pub use whole::resolve;

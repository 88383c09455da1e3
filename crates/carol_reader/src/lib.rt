//! Readers of the smallest rules of the grammar, of lists, terms and formulas, and what every
//! reader of a rule promises.
//!
//! A reader takes the tokens from a place on, and gives what its rule gives there: the tree and the
//! tokens behind it, or the tokens from the first on with which the rule does not go on.
//!
//! Layer: language. Called by `carol_parse` alone.
#![tactic(auto)]

mod formulas;
mod lists;
mod reader;
mod terminals;
mod terms;
mod values;

pub use formulas::formula;
pub use lists::{Member, OneInt, ints, listed, many, names};
pub use reader::{Halt, Read, Reader};
pub use terminals::{bit, int, name, next_among, next_is, next_numeral, num, number, word};
pub use terms::term;
pub use values::path;

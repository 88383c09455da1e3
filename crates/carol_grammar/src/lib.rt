//! The grammar of the language over its tokens, a rule at a time, and what reading a text answers:
//! its tree, the place of what is bad, or the first limit that it passes.
//!
//! `specs/Rules` has the rules in the order of the language's description, each with the tree that
//! it gives. A look at the next token decides how to read on; so no list of tokens has two trees.
//! `specs/Limits` says what is counted and where a limit is passed, and `specs/Outcome` what a text
//! is answered. Limits are no part of the grammar: a text is read up to its first limit, and what
//! is bad up to there is told before it.
//!
//! The files `Rule`, `Sentence`, `Reading`, `Sound` and `Found` know nothing of this language: they
//! are grammars as values, languages as relations, and the law that joins reading by one token of
//! lookahead with both.
//!
//! Layer: language. Cited by the readers and the printer; its reach is called by `carol_parse`.
#![tactic(auto)]

mod counting;
mod laws;
mod limit;
mod reading;
mod size;
mod tree_laws;

pub use laws::{one_bad, one_outcome, one_text, told_means};
pub use limit::TextLimit;
pub use reading::{Reach, find_reach};
pub use size::read_is_sized;
pub use tree_laws::{one_tree, reading_answers};

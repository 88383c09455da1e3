//! What the words of the command line have in common: the house of an accepted program before its
//! first event, and what is told where the program isn't accepted.
//!
//! Layer: program. Called by `carol_words_step`, `carol_words_run` and `carol_words_gen`; the proofs
//! of the other words use its lemmas.
#![tactic(auto)]

mod fresh;

pub use fresh::fresh_house;

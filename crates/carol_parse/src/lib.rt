//! Texts and trees: `tokens` cuts a text, `parse` reads it, `print` writes a tree.
//!
//! A text is cut into tokens, these are counted against the limits, and those up to the first limit
//! are read by the rules of the grammar: readers of programs and of scenes stand here, those of
//! formulas in `carol_reader`.
//!
//! Layer: language. `parse` is called by the program for every text that it reads.
#![tactic(auto)]

mod bodies;
mod commands;
mod error;
mod fields;
mod file;
mod groups;
mod guards;
mod operations;
mod programs;
mod scripts;
mod sessions;
mod shape;
mod stages;
mod statements;
mod text;

pub use carol_grammar::TextLimit;
pub use carol_print::print;
pub use carol_syntax::{Lexed, Stop, Token, TokenKind, TokenList, tokens};
pub use error::TextError;
pub use programs::program;
pub use stages::{Sequel, Stage, some_stage};
pub use text::parse;

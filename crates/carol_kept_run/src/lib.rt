//! A history in a file is gone on with: what stands on standard input is made ready, the script is
//! carried out on the vault from the history that is kept there, each event is told once it is
//! acknowledged, and the end is a report.
//!
//! Layer: program. Called by the program that keeps a history in a file.
#![tactic(auto)]

mod ending;
mod lines;
mod ready;
mod run;
mod script;
mod statement;

pub use ending::{Broken, Ending, Made};
pub use ready::{Ready, prepare};
pub use run::{keep_on, play};
pub use script::keep_script;
pub use statement::keep_statement;

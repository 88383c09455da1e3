//! What is answered: a status with its text. The lines that tell what is wrong with an input, what
//! keeps a word from going on, and in `specs/Meaning` what a word of the command line means.
//!
//! Layer: program. `carol_prepare`, `carol_words` and `carol_tool` answer by it.
#![tactic(auto)]

mod halt;
mod line;
mod reply;
mod status;
mod stop;

pub use halt::{Halt, ended, tell_line, tell_parts};
pub use line::{Line, SceneText, one_line};
pub use reply::Reply;
pub use status::{Status, number};
pub use stop::Stop;

//! The top call: the words of a command line and the bytes of an input in, a text and a status out.
//!
//! Layer: program. `carol` is the program over it, and `carol_cases` runs it on written cases.
#![tactic(auto)]

mod call;
mod command;

pub use call::{carol, plain};
pub use carol_complete::{complete_laws, decided_laws};
pub use carol_gen::gen_is_ok;
pub use carol_reply::{Status, number};
pub use carol_words_audit::audit_laws;
pub use carol_words_laws::report_laws;

//! What a replicated machine may do: the histories that a program can make in a scene, said by
//! looking at lists of events alone.
//!
//! `specs/` has a topic a file: journals and stores, links, what a session did, which event may
//! come next, runs, the reading over one store, results, the one event that a session goes on with,
//! what a script comes to, and the bound on events.
//!
//! Layer: machine. Cited by all that speaks of histories.
#![tactic(auto)]

mod history;
mod laws;
mod script;

pub use history::MOST_EVENTS;
pub use laws::history_laws;
pub use script::{BadStatement, ScriptCause, Statement, StatementList};

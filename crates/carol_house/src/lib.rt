//! The value that keeps a history of an accepted program, with what the next step needs of it at
//! hand. Its type keeps that the history is one that the program can make in the scene.
//!
//! Layer: machine. Called by `carol_report`, `carol_audit`, `carol_worker` and the program.
#![tactic(auto)]

mod error;
mod house;
mod links;
mod moved;
mod settled;
mod tables;

pub use carol_history::MOST_EVENTS;
pub use error::HouseError;
pub use house::{House, kind_of, link_event};
pub use moved::{Admitted, Gossip, Moved};

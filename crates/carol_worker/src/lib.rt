//! How threads run the sessions of a scene: desks, at which a session takes its steps, and the
//! roster, from which workers take the sessions.
//!
//! Layer: machine. `run_scene` is called by the program for `run`.
#![tactic(auto)]

mod desk;
mod finish;
mod held;
mod roster;
mod rule;
mod running;
mod serving;
mod tally;
mod threads;

pub use desk::{Desk, LockedDesk, OwnDesk};
pub use held::{AtHouse, Held, Start};
pub use roster::{Roster, Taker, TakerList};
pub use running::run_scene;
pub use serving::{Served, serve};
pub use tally::{Answer, Last};

//! What is open at the end, one session after another.
ghost use Rattle.std.specs.Prelude.{◌<◌, length, IfOk, OnOk};
ghost use Rattle.carol_worker.specs.Running.{Continues, HasEnded, IsThrough};

use crate::serving::Served;
use carol_history::history_laws;
use carol_house::{House, HouseError, MOST_EVENTS, Moved};
use std::alloc::AllocError;

// The session goes on until its commands are done or the history is full.
fn finish_session(house: &mut House, session: u32) -> Result<Served, AllocError>
    requires { session < length house.old.scene.sessions }
    ensures continues { IfOk result (λ _. Continues house.old house.new) }
    ensures through { IfOk result (IsThrough house.new session) }
{
    let _few = house.history();
    for _ in 0..MOST_EVENTS {
        match house.advance(session) {
            Ok(Moved::Entered(_)) => {}
            Ok(Moved::Finished) => return Ok(Served::Done),
            Err(HouseError::Full) => return Ok(Served::Full),
            Err(HouseError::NoMemory) => return Err(AllocError),
        }
    }
    Ok(Served::Full)
}

/// Goes on until all commands are done or the history is full.
pub(crate) fn finish(house: &mut House) -> Result<(), AllocError>
    ensures continues { OnOk result (Continues house.old house.new) }
    ensures ended { OnOk result (HasEnded house.new) }
{
    history_laws();
    let sessions = house.scene().sessions.len() as u32;
    for session in 0..sessions {
        match finish_session(house, session)? {
            Served::Done => {}
            Served::Full => return Ok(()),
        }
    }
    Ok(())
}

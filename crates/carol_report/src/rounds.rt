ghost use Rattle.std.specs.Prelude.{◌≡◌, ◌↔◌, ◌+◌, ◌<◌, ◌≤◌, true, length, OnOk};
ghost use Rattle.carol_house.specs.House.{IsOverSame, rules_of};
ghost use Rattle.carol_report.specs.Turns.{Continues, IsOver, Turn, TurnOfEach, Turns};

use carol_history::history_laws;
use carol_house::{House, HouseError, MOST_EVENTS};
use std::alloc::AllocError;

/// Advances the sessions in turn, the first one first: each that has a command under way makes one
/// event a turn, until all commands are done or the history has 131,072 events. Memory for this
/// many steps is taken at the start, and what they don't need of it is left.
pub fn run_in_turns(house: &mut House, steps: u32) -> Result<(), AllocError>
    requires { steps ≤ MOST_EVENTS }
    ensures over { OnOk result (IsOverSame house.old house.new) }
    ensures turns { OnOk result (Turns (rules_of house.old) house.old.scene
        house.old.history house.new.history) }
    ensures room { OnOk result (steps + length house.old.history
        ≤ house.new.spare + length house.new.history) }
{
    house.reserve(steps)?;
    while !is_over(house) {
        take_turns(house)?;
    }
    Ok(())
}

// Whether all commands are done, or there may be no more events.
fn is_over(house: &House) -> bool
    ensures over { (result ≡ true) ↔ IsOver house.now.scene house.now.history }
    ensures few { length house.now.history ≤ MOST_EVENTS }
{
    history_laws();
    let full = house.history().len() == MOST_EVENTS;
    full || house.all_done()
}

// A turn of each session, the first one first.
fn take_turns(house: &mut House) -> Result<(), AllocError>
    ensures goes_on { OnOk result (Continues house.old house.new) }
    ensures turns { OnOk result (TurnOfEach (rules_of house.old) house.old.scene
        (length house.old.scene.sessions) house.old.history house.new.history) }
{
    let sessions = house.scene().sessions.len() as u32;
    for session in 0..sessions {
        take_turn(house, session)?;
    }
    Ok(())
}

// A turn of the session, which is in range.
fn take_turn(house: &mut House, session: u32) -> Result<(), AllocError>
    requires { session < length house.old.scene.sessions }
    ensures goes_on { OnOk result (Continues house.old house.new) }
    ensures turn { OnOk result (Turn (rules_of house.old) house.old.scene session
        house.old.history house.new.history) }
{
    match house.advance(session) {
        Ok(_) | Err(HouseError::Full) => Ok(()),
        Err(HouseError::NoMemory) => Err(AllocError),
    }
}

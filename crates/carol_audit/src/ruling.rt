ghost use Rattle.std.specs.Prelude.{◌≡◌, ◌≤◌, [], length, IfOk};
ghost use Rattle.carol_program.specs.Rules.{rules_in};
ghost use Rattle.carol_program.specs.Scenes.{IsValidScene};
ghost use Rattle.carol_audit.specs.Rulings.{Comes, Finds, Tells};

use carol_event::Event;
use carol_house::{Admitted, House, MOST_EVENTS};
use carol_program::Scene;
use carol_reading::Accepted;
use std::alloc::{AllocError, Global};

/// What an audit tells of events.
#[derive(Drop)]
pub enum Ruling {
    /// They are a history of the program in the scene: this house's.
    Genuine(House),
    /// The event with this number, from 1, is the first that may not come after those before it.
    FirstFalse(u32),
}

/// Audits events, at most 131,072, of the program in the scene, which is valid for it: they are
/// genuine exactly where each may come after those before it. Memory for events is taken once, at
/// the start.
pub fn audit(
    alloc: Global,
    accepted: Accepted,
    scene: Scene,
    events: &[Event],
) -> Result<Ruling, AllocError>
    requires valid { IsValidScene (rules_in accepted.program) scene }
    requires few { length events.now ≤ MOST_EVENTS }
    ensures { IfOk result (λ ruling. Tells accepted scene events.now ruling) }
{
    let mut house = House::new(alloc, accepted, scene)?;
    house.reserve(events.len() as u32)?;
    if let Some(number) = first_false(&mut house, events)? {
        return Ok(Ruling::FirstFalse(number));
    }
    Ok(Ruling::Genuine(house))
}

// Enters the events into a house that has none, up to the first that may not come, and answers the
// number of that one, from 1, where there is one.
fn first_false(house: &mut House, events: &[Event]) -> Result<Option<u32>, AllocError>
    requires empty { house.old.history ≡ [] }
    requires few { length events.now ≤ MOST_EVENTS }
    ensures { IfOk result (λ number. Finds house.old events.now number house.new) }
{
    for (index, event) in events.iter().enumerate() {
        if !enter(house, event)? {
            return Ok(Some(index as u32 + 1));
        }
    }
    Ok(None)
}

// Enters the event, and answers whether it might come.
fn enter(house: &mut House, event: &Event) -> Result<bool, AllocError>
    ensures { IfOk result (λ came. Comes house.old event.now came house.new) }
{
    match house.admit(event) {
        Ok(Admitted::Entered) => Ok(true),
        Ok(Admitted::Illegal) => Ok(false),
        Err(_) => Err(AllocError),
    }
}

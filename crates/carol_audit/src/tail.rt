ghost use Rattle.std.specs.Prelude.{◌≡◌, ◌+◌, ◌<◌, List, length, IfErr, IfOk, MatchResult};
ghost use Rattle.carol_event.specs.declared.event.Event.{Event as EventData};
ghost use Rattle.carol_audit.specs.declared.error.TailError.TheVariants.{NoMemory};
ghost use Rattle.carol_audit.specs.Tails.{HasEvents, IsFault};

use crate::error::TailError;
use crate::first::first_event;
use carol_event::Event;
use carol_history::MOST_EVENTS;
use std::alloc::Global;

/// Reads the events of a tail, which begins with this line of the whole input: those of its lines
/// up to the line `results`. A tail that ends before that line is bad at its end. There are at most
/// 131,072 of them, and no other events' lines stand there.
pub fn read_events(alloc: Global, tail: &[u8], line: u32) -> Result<Vec<Event>, TailError>
    requires { line + length tail.now < 4_294_967_295 }
    ensures found { IfOk result (λ events. HasEvents tail.now events.items) }
    ensures only { (events : List EventData) → HasEvents tail.now events
        → MatchResult result (λ read. read.items ≡ events) (λ error. error ≡ NoMemory) }
    ensures fault { IfErr result (IsFault tail.now line) }
{
    let mut events = Vec::new(alloc);
    let mut left = tail;
    loop {
        match first_event(alloc, left, line + events.len() as u32)? {
            None => return Ok(events),
            Some(taken) => {
                if events.len() == MOST_EVENTS {
                    return Err(TailError::TooLarge);
                }
                events.push(taken.event).map_err(|_| TailError::NoMemory)?;
                left = left.split_at(taken.used).1;
            }
        }
    }
}

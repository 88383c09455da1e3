ghost use Rattle.std.specs.Prelude.{IfOk, OnErr};
ghost use Rattle.carol_worker.specs.Serving.{IsServed, OnlyWent};
ghost use Rattle.carol_worker.specs.Tally.{NoneFell};

use crate::desk::Desk;
use carol_house::{HouseError, MOST_EVENTS, Moved};
use carol_outer::Gate;
use std::alloc::AllocError;

/// How a session was served.
#[derive(Clone, Copy, Debug, PartialEq, Eq)]
pub enum Served {
    /// All its commands are done.
    Done,
    /// The history is full.
    Full,
}

// One step more than a history has events.
const MOST_STEPS: usize = MOST_EVENTS + 1;

/// Steps the session at the desk until all its commands are done or the history is full, and passes
/// the gate behind each step that entered an event. `Done` comes only where a step of this call
/// found all commands done, `Full` only where one found the history full, or where more events were
/// entered than a history has. No other session takes a step in it. After want of memory the desk
/// keeps the steps that were made before.
pub fn serve<D: Desk, G: Gate>(desk: &mut D, gate: &G, session: u32) -> Result<Served, AllocError>
    ensures counted { NoneFell (D.tally desk.old) (D.tally desk.new) }
    ensures served { IfOk result (λ how. IsServed (D.tally desk.old) session how
        (D.tally desk.new)) }
    ensures only { D.only desk.old session desk.new }
    ensures kept { OnErr result (OnlyWent (D.tally desk.old) session (D.tally desk.new)) }
{
    for _ in 0..MOST_STEPS {
        match desk.step(session) {
            Ok(Moved::Entered(kind)) => gate.pass(session, kind),
            Ok(Moved::Finished) => return Ok(Served::Done),
            Err(HouseError::Full) => return Ok(Served::Full),
            Err(HouseError::NoMemory) => return Err(AllocError),
        }
    }
    Ok(Served::Full)
}

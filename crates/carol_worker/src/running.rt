ghost use Rattle.std.specs.Prelude.{◌≡◌, ◌≤◌, ◌+◌, length, IfOk};
ghost use Rattle.carol_history.specs.Bounds.{HasNoCut, HasNoneBehind, links, most_events};
ghost use Rattle.carol_house.specs.House.{rules_of};
ghost use Rattle.carol_worker.specs.Running.{Continues, HasEnded};

use crate::finish::finish;
use crate::held::{Held, Start};
use crate::roster::Roster;
use crate::threads::run_threads;
use carol_house::House;
use carol_outer::Gate;
use carol_simulation::bound_laws;
use std::alloc::{AllocError, Global};
use std::marker::Brand;
use std::sync::{Mutex, Wait};
use std::thread::Threads;

// The house of the start, once the scene's workers ran its sessions at it.
fn run_from<J: Start + Send + Sync, R: Threads + Wait + Sync, G: Gate + Sync>(
    rt: &R,
    alloc: Global,
    house: House,
    gate: &G,
) -> Result<House, AllocError>
    requires start { house ≡ J.house }
    requires some_session { 1 ≤ length house.scene.sessions }
    ensures { IfOk result (Continues house) }
{
    let scene = house.scene();
    let (workers, gossipers, replicas) = (scene.workers, scene.gossipers, scene.replicas);
    let sessions = scene.sessions.len() as u32;
    let (roster, takers) = Roster::new(rt, alloc, sessions, workers)?;
    let shared = Mutex::new(Held::<J>::new(house));
    run_threads(rt, &shared, &roster, takers, gate, gossipers, replicas);
    let house = shared.into_inner().into_house();
    Ok(house)
}

// The house once its sessions were run, if there are any.
fn run_sessions<R: Threads + Wait + Sync, G: Gate + Sync>(
    rt: &R,
    alloc: Global,
    house: House,
    gate: &G,
) -> Result<House, AllocError>
    ensures { IfOk result (Continues house) }
{
    if house.scene().sessions.is_empty() {
        return Ok(house);
    }
    run_from::<Brand, R, G>(rt, alloc, house, gate)
}

/// Runs the scene of the house: its workers run the sessions, each by one of them, while others
/// gossip, all at this house, which lies under a lock whose type keeps from which house it goes on.
/// What is open then is finished by the caller, also where a thread couldn't be started. The house
/// goes on with no cut or join until all commands are done or the history is full. It then has at
/// most `most_events` events, and as many more as replicas were cut or joined before; where none
/// were cut, nobody is refused behind an entry.
pub fn run_scene<R: Threads + Wait + Sync, G: Gate + Sync>(
    rt: &R,
    alloc: Global,
    house: House,
    gate: &G,
) -> Result<House, AllocError>
    ensures continues { IfOk result (Continues house) }
    ensures ended { IfOk result HasEnded }
    ensures short { IfOk result (λ new. length new.history
        ≤ most_events (rules_of house) house.scene + links house.history) }
    ensures reach { HasNoCut house.history → IfOk result (λ new. HasNoneBehind new.history) }
{
    bound_laws();
    let mut house = run_sessions(rt, alloc, house, gate)?;
    finish(&mut house)?;
    let _run = house.history();
    Ok(house)
}

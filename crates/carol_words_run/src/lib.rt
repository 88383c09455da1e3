//! The word `run`: what it is to answer to the bytes of its input, and the call that answers so.
//!
//! Layer: program. Called by `carol_tool`.
#![tactic(auto)]

ghost use Rattle.std.specs.Prelude.{◌≡◌, ◌≤◌, [], length, IfOk};
ghost use Rattle.carol_history.specs.Bounds.{HasNoneBehind, most_events};
ghost use Rattle.carol_house.specs.House.{rules_of};
ghost use Rattle.carol_prepare.specs.Parts.{IsFit};
ghost use Rattle.carol_reply.specs.Meaning.{IsReply};
ghost use Rattle.carol_reply.specs.Reply.{Ends, answer_of};
ghost use Rattle.carol_syntax.specs.Limits.{most_text_bytes};
ghost use Rattle.carol_words_run.specs.Run.{Ended, IsToldRun, RunSays, SceneRuns, run_meaning};
ghost use Rattle.carol_worker.specs.Running.{HasEnded, HasNoLink};

use carol_grammar::one_outcome;
use carol_history::MOST_EVENTS;
use carol_house::House;
use carol_outer::Gate;
use carol_prepare::{Placed, take_scene};
use carol_reply::{Halt, Reply, Status, ended};
use carol_report::report;
use carol_words::fresh_house;
use carol_worker::run_scene;
use std::alloc::{AllocError, Global};
use std::sync::Wait;
use std::thread::Threads;

/// `run`: reads a program and a scene, and says what history came of running it in threads. It is
/// one that the accepted program can make, and up to each of its events it upholds what
/// `simulation` of `carol_simulation` says of such histories.
pub fn run_bytes<R: Threads + Wait + Sync, G: Gate + Sync>(
    rt: &R,
    alloc: Global,
    bytes: &[u8],
    gate: &G,
) -> Result<Reply, AllocError>
    requires { length bytes.now ≤ most_text_bytes }
    ensures { IfOk result (λ reply. IsReply run_meaning bytes.now (answer_of reply)) }
{
    one_outcome();
    ended(history(rt, alloc, bytes, gate))
}

// Tells what comes of a file that ends with a scene.
fn history<R: Threads + Wait + Sync, G: Gate + Sync>(
    rt: &R,
    alloc: Global,
    bytes: &[u8],
    gate: &G,
) -> Result<Reply, Halt>
    requires { length bytes.now ≤ most_text_bytes }
    ensures { Ends (RunSays bytes.now) result }
{
    let placed = take_scene(alloc, bytes, "run")?;
    run_placed(rt, alloc, placed, gate)
}

// Tells what comes of the scene, if the program is accepted.
fn run_placed<R: Threads + Wait + Sync, G: Gate + Sync>(
    rt: &R,
    alloc: Global,
    placed: Placed,
    gate: &G,
) -> Result<Reply, Halt>
    requires { IsFit placed.program placed.scene }
    ensures { Ends (SceneRuns tt placed.program placed.scene) result }
{
    let fresh = fresh_house(rt, alloc, placed)?;
    let house = run_house(rt, alloc, fresh, gate)?;
    Ok(told(alloc, &house)?)
}

// The house once it was run. It has room for all events before threads are started.
fn run_house<R: Threads + Wait + Sync, G: Gate + Sync>(
    rt: &R,
    alloc: Global,
    mut house: House,
    gate: &G,
) -> Result<House, AllocError>
    requires { house.history ≡ [] }
    ensures kept { IfOk result (λ new. new.kept ≡ house.kept) }
    ensures scene { IfOk result (λ new. new.scene ≡ house.scene) }
    ensures unlinked { IfOk result (λ new. HasNoLink new.history) }
    ensures none_behind { IfOk result (λ new. HasNoneBehind new.history) }
    ensures short { IfOk result (λ new.
        length new.history ≤ most_events (rules_of new) new.scene) }
    ensures has_ended { IfOk result HasEnded }
{
    house.reserve(MOST_EVENTS as u32)?;
    run_scene(rt, alloc, house, gate)
}

// Reports how the run ended.
fn told(alloc: Global, house: &House) -> Result<Reply, AllocError>
    requires ended { HasEnded house.now }
    requires unlinked { HasNoLink house.now.history }
    requires none_behind { HasNoneBehind house.now.history }
    requires short { length house.now.history ≤ most_events (rules_of house.now) house.now.scene }
    ensures { IfOk result (λ reply. IsToldRun house.now.kept house.now.scene (answer_of reply)) }
{
    let _upheld = house.history();
    Ok(Reply {
        status: status_of(house),
        text: report(alloc, house)?,
    })
}

// The status that tells how the history of a run ended.
fn status_of(house: &House) -> Status
    requires { HasEnded house.now }
    ensures { Ended house.now.scene house.now.history result }
{
    if house.all_done() {
        Status::Ok
    } else {
        Status::Full
    }
}

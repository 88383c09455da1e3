//! The word `gen`: what it is to answer to a number, and the call that answers so.
//!
//! Layer: program. Called by `carol_tool`.
#![tactic(auto)]

ghost use Rattle.std.specs.Prelude.{◌≡◌, ◌≤◌, [], IfOk};
ghost use Rattle.carol_prepare.specs.Parts.{IsFit};
ghost use Rattle.carol_reply.specs.Meaning.{IsReply};
ghost use Rattle.carol_reply.specs.Reply.{Ends, answer_of};
ghost use Rattle.carol_words_gen.specs.Gen.{GenSays, IsSummed, SceneSums, gen_meaning};

use carol_generator::{MOST_PER_SESSION, generate};
use carol_grammar::one_outcome;
use carol_house::House;
use carol_prepare::{Placed, take_scene};
use carol_reply::{Halt, Reply, Status, ended};
use carol_report::{run_in_turns, summary, turns_laws};
use carol_simulation::bound_laws;
use carol_words::fresh_house;
use std::alloc::{AllocError, Global};
use std::thread::Threads;

// Room for so many events is taken at the start for each command of a session. Sixteen sessions
// have that command, and each makes no more than 13 events and three deliveries of its entry.
const EVENTS_PER_COUNT: u32 = 16 * 16;

/// `gen N`: makes the text of a large input with so many commands in each session, reads it as any
/// input is read, and sums up the history that its sessions make when they go on in turn. That
/// history is one that the accepted program can make, and the number fixes it.
pub fn sum_up<R: Threads + Sync>(rt: &R, alloc: Global, count: u32) -> Result<Reply, AllocError>
    requires some { 1 ≤ count }
    requires few { count ≤ MOST_PER_SESSION }
    ensures { IfOk result (λ reply. IsReply (gen_meaning count) [] (answer_of reply)) }
{
    one_outcome();
    turns_laws();
    ended(history(rt, alloc, count))
}

// Tells what comes of the text that is made.
fn history<R: Threads + Sync>(rt: &R, alloc: Global, count: u32) -> Result<Reply, Halt>
    requires some { 1 ≤ count }
    requires few { count ≤ MOST_PER_SESSION }
    ensures { Ends (GenSays count) result }
{
    let text = generate(alloc, count)?;
    let words = format!(in alloc; "gen {count}")?;
    let placed = take_scene(alloc, &text, &words)?;
    sum_placed(rt, alloc, count, placed)
}

// Tells what comes of the scene, if the program is accepted.
fn sum_placed<R: Threads + Sync>(
    rt: &R,
    alloc: Global,
    count: u32,
    placed: Placed,
) -> Result<Reply, Halt>
    requires few { count ≤ MOST_PER_SESSION }
    requires fit { IsFit placed.program placed.scene }
    ensures { Ends (SceneSums count tt placed.program placed.scene) result }
{
    let mut house = fresh_house(rt, alloc, placed)?;
    Ok(sum_house(alloc, count, &mut house)?)
}

// Lets the sessions go on in turn, and sums up the history that they make.
fn sum_house(alloc: Global, count: u32, house: &mut House) -> Result<Reply, AllocError>
    requires few { count ≤ MOST_PER_SESSION }
    requires empty { house.old.history ≡ [] }
    ensures { IfOk result (λ reply. IsSummed count
        house.old.kept house.old.scene (answer_of reply)) }
{
    bound_laws();
    run_in_turns(house, EVENTS_PER_COUNT * count)?;
    let _upheld = house.history();
    Ok(Reply {
        status: Status::Ok,
        text: summary(alloc, count, house)?,
    })
}

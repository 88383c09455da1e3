//! The word `step`: what it is to answer to the bytes of its input, and the call that answers so.
//!
//! Layer: program. Called by `carol_tool`.
#![tactic(auto)]

ghost use Rattle.std.specs.Prelude.{◌≡◌, ◌≤◌, [], length, IfOk};
ghost use Rattle.carol_prepare.specs.Parts.{IsFit};
ghost use Rattle.carol_reply.specs.Meaning.{IsReply};
ghost use Rattle.carol_reply.specs.Reply.{Ends, answer_of};
ghost use Rattle.carol_syntax.specs.Limits.{most_text_bytes};
ghost use Rattle.carol_words_step.specs.Step.{IsPlayed, ScriptSays, StepSays, step_meaning};

use carol_grammar::one_outcome;
use carol_history::{MOST_EVENTS, StatementList, history_laws};
use carol_house::House;
use carol_prepare::{Placed, take_script};
use carol_reply::{Halt, Line, Reply, Status, ended, one_line};
use carol_report::{report, run_script};
use carol_words::fresh_house;
use std::alloc::{AllocError, Global};
use std::thread::Threads;

/// `step`: reads a program, a scene and a script, and says what the script's history is.
pub fn step_bytes<R: Threads + Sync>(
    rt: &R,
    alloc: Global,
    bytes: &[u8],
) -> Result<Reply, AllocError>
    requires { length bytes.now ≤ most_text_bytes }
    ensures { IfOk result (λ reply. IsReply step_meaning bytes.now (answer_of reply)) }
{
    one_outcome();
    history_laws();
    ended(history(rt, alloc, bytes))
}

// Tells what comes of a file with a script.
fn history<R: Threads + Sync>(rt: &R, alloc: Global, bytes: &[u8]) -> Result<Reply, Halt>
    requires { length bytes.now ≤ most_text_bytes }
    ensures { Ends (StepSays bytes.now) result }
{
    let taken = take_script(alloc, bytes, "step")?;
    carried_out(rt, alloc, taken.placed, &taken.script)
}

// Tells what comes of the statements in the scene, if the program is accepted.
fn carried_out<R: Threads + Sync>(
    rt: &R,
    alloc: Global,
    placed: Placed,
    script: &StatementList,
) -> Result<Reply, Halt>
    requires fit { IsFit placed.program placed.scene }
    requires few { length script.now ≤ MOST_EVENTS }
    ensures { Ends (ScriptSays script.now placed.program placed.scene) result }
{
    let mut house = fresh_house(rt, alloc, placed)?;
    Ok(play(alloc, &mut house, script)?)
}

// Carries the statements out, and reports the history, or the first statement that gave no event.
fn play(alloc: Global, house: &mut House, script: &StatementList) -> Result<Reply, AllocError>
    requires empty { house.old.history ≡ [] }
    requires few { length script.now ≤ MOST_EVENTS }
    ensures { IfOk result (λ reply. IsPlayed script.now
        house.old.kept house.old.scene (answer_of reply)) }
{
    let bad = run_script(house, script)?;
    let _upheld = house.history();
    match bad {
        None => Ok(Reply {
            status: Status::Ok,
            text: report(alloc, house)?,
        }),
        Some(bad) => one_line(alloc, Line::BadStatement(bad)),
    }
}

ghost use Rattle.std.specs.Prelude.{◌≡◌, ◌≤◌, [], length, IfOk};
ghost use Rattle.carol_keep.specs.Keep.{IsKept, KeepSays, ScriptKeeps, keep_meaning};
ghost use Rattle.carol_prepare.specs.Parts.{IsFit};
ghost use Rattle.carol_reply.specs.Meaning.{IsReply};
ghost use Rattle.carol_reply.specs.Reply.{Ends, answer_of};
ghost use Rattle.carol_syntax.specs.Limits.{most_text_bytes};

use carol_grammar::one_outcome;
use carol_history::{MOST_EVENTS, StatementList, history_laws};
use carol_house::House;
use carol_prepare::{Placed, accepted, take_script};
use carol_recovery::read_back;
use carol_reply::{Halt, Line, Reply, Status, ended, one_line};
use carol_report::run_script;
use std::alloc::{AllocError, Global};
use std::thread::Threads;

/// `keep K`: reads a program, a scene and a script, and says what is read back of the script's
/// history, which is kept on a disk that stops at the call with this number, from 0, and crashes.
pub fn keep_bytes<R: Threads + Sync>(
    rt: &R,
    alloc: Global,
    stop: u32,
    bytes: &[u8],
) -> Result<Reply, AllocError>
    requires { length bytes.now ≤ most_text_bytes }
    ensures { IfOk result (λ reply. IsReply (keep_meaning stop) bytes.now (answer_of reply)) }
{
    one_outcome();
    history_laws();
    ended(history(rt, alloc, stop, bytes))
}

// Tells what comes of a file with a script.
fn history<R: Threads + Sync>(rt: &R, alloc: Global, stop: u32, bytes: &[u8]) -> Result<Reply, Halt>
    requires { length bytes.now ≤ most_text_bytes }
    ensures { Ends (KeepSays stop bytes.now) result }
{
    let taken = take_script(alloc, bytes, "keep")?;
    carried_out(rt, alloc, stop, taken.placed, &taken.script)
}

// Tells what comes of the statements in the scene, if the program is accepted.
fn carried_out<R: Threads + Sync>(
    rt: &R,
    alloc: Global,
    stop: u32,
    placed: Placed,
    script: &StatementList,
) -> Result<Reply, Halt>
    requires fit { IsFit placed.program placed.scene }
    requires few { length script.now ≤ MOST_EVENTS }
    ensures { Ends (ScriptKeeps stop script.now placed.program placed.scene) result }
{
    let Placed { program, scene } = placed;
    let accepted = accepted(rt, alloc, program)?;
    let mut house = House::new(alloc, accepted, scene)?;
    Ok(keep(alloc, stop, &mut house, script)?)
}

// Carries the statements out, and reports what is read back of the history, or the first statement
// that gave no event.
fn keep(
    alloc: Global,
    stop: u32,
    house: &mut House,
    script: &StatementList,
) -> Result<Reply, AllocError>
    requires empty { house.old.history ≡ [] }
    requires few { length script.now ≤ MOST_EVENTS }
    ensures { IfOk result (λ reply. IsKept stop script.now
        house.old.kept house.old.scene (answer_of reply)) }
{
    let bad = run_script(house, script)?;
    let _upheld = house.history();
    match bad {
        None => Ok(Reply {
            status: Status::Ok,
            text: read_back(alloc, stop, house, script.as_slice())?,
        }),
        Some(bad) => one_line(alloc, Line::BadStatement(bad)),
    }
}

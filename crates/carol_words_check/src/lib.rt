//! The word `check`: what it is to answer to the bytes of its input, and the call that answers so.
//!
//! Layer: program. Called by `carol_tool`.
#![tactic(auto)]

ghost use Rattle.std.specs.Prelude.{◌≤◌, length, IfOk};
ghost use Rattle.carol_reply.specs.Meaning.{IsReply};
ghost use Rattle.carol_reply.specs.Reply.{Ends, answer_of};
ghost use Rattle.carol_syntax.specs.Limits.{most_text_bytes};
ghost use Rattle.carol_words_check.specs.Check.{CheckSays, check_meaning};

use carol_accept::accord_text;
use carol_grammar::one_outcome;
use carol_prepare::{accepted, take_program};
use carol_reply::{Halt, Reply, Status, ended};
use std::alloc::{AllocError, Global};
use std::thread::Threads;

/// `check`: reads a program, and says whether it is accepted. What stands behind it in the file
/// isn't looked at.
pub fn check_bytes<R: Threads + Sync>(
    rt: &R,
    alloc: Global,
    bytes: &[u8],
) -> Result<Reply, AllocError>
    requires { length bytes.now ≤ most_text_bytes }
    ensures { IfOk result (λ reply. IsReply check_meaning bytes.now (answer_of reply)) }
{
    one_outcome();
    ended(accords(rt, alloc, bytes))
}

// Tells what the program's table of accords has.
fn accords<R: Threads + Sync>(rt: &R, alloc: Global, bytes: &[u8]) -> Result<Reply, Halt>
    requires { length bytes.now ≤ most_text_bytes }
    ensures { Ends (CheckSays bytes.now) result }
{
    let program = take_program(alloc, bytes)?;
    let kept = accepted(rt, alloc, program)?;
    let text = accord_text(alloc, &kept)?;
    Ok(Reply {
        status: Status::Ok,
        text,
    })
}

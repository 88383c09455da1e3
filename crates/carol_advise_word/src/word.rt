ghost use Rattle.std.specs.Prelude.{◌≡◌, ◌<◌, ◌≤◌, length, IfOk, IfSome, Some};
ghost use Rattle.carol_program.specs.Limits.{most_ops};
ghost use Rattle.carol_reply.specs.Meaning.{IsReply};
ghost use Rattle.carol_reply.specs.Reply.{Ends, HaltTells, answer_of};
ghost use Rattle.carol_reply.specs.declared.status.Status.TheVariants as status;
ghost use Rattle.carol_reply.specs.Texts.{Answer};
ghost use Rattle.carol_syntax.specs.Limits.{most_text_bytes};
ghost use Rattle.carol_advise_word.specs.Advise.{
  AdviseSays,
  NameSays,
  OpSays,
  advise_meaning,
  many_answer,
  unknown_answer,
};
ghost use Rattle.carol_advise_word.specs.Found.{op_named};
ghost use Rattle.carol_advise_word.specs.OpWord.{word_of};

use crate::op_word::OpWord;
use crate::text::advice_text;
use carol_accept::undecided_text;
use carol_advise::{AdviseError, advise};
use carol_grammar::one_outcome;
use carol_prepare::{accepted, take_program};
use carol_program::Names;
use carol_reading::Accepted;
use carol_reply::{Halt, Reply, Status, ended};
use std::alloc::{AllocError, Global};
use std::thread::Threads;

/// `advise OP`: reads a program, and if it is accepted says which guards the queries of its
/// operation with this name need. What stands behind the program in the file isn't looked at.
pub fn advise_bytes<R: Threads + Sync>(
    rt: &R,
    alloc: Global,
    op: OpWord,
    bytes: &[u8],
) -> Result<Reply, AllocError>
    requires { length bytes.now ≤ most_text_bytes }
    ensures { IfOk result (λ reply. IsReply (advise_meaning op) bytes.now (answer_of reply)) }
{
    one_outcome();
    let name = op.bytes();
    ended(answer(rt, alloc, name, bytes))
}

// Tells what is advised for the operation with this name of the file's program.
fn answer<R: Threads + Sync>(
    rt: &R,
    alloc: Global,
    name: &[u8],
    bytes: &[u8],
) -> Result<Reply, Halt>
    requires { length bytes.now ≤ most_text_bytes }
    ensures { Ends (AdviseSays name.now bytes.now) result }
{
    let program = take_program(alloc, bytes)?;
    let kept = accepted(rt, alloc, program)?;
    named(alloc, name, &kept)
}

// Tells what is advised for the operation with this name of an accepted program.
fn named(alloc: Global, name: &[u8], kept: &Accepted) -> Result<Reply, Halt>
    ensures { Ends (NameSays name.now kept.now) result }
{
    match op_named(&kept.program().names, name) {
        Some(number) => advised(alloc, kept, number),
        None => Err(tell_bad(alloc, "advise unknown\n")),
    }
}

// Tells what is advised for the operation with this number.
fn advised(alloc: Global, kept: &Accepted, number: u32) -> Result<Reply, Halt>
    requires { number < length kept.now.program.ops }
    ensures { Ends (OpSays kept.now number) result }
{
    match advise(alloc, kept, number) {
        Ok(advice) => {
            let text = advice_text(alloc, kept.program(), number, &advice)?;
            Ok(Reply {
                status: Status::Ok,
                text,
            })
        }
        Err(AdviseError::TooMany) => Err(tell_bad(alloc, "advise too many\n")),
        Err(AdviseError::Undecided { place, why, .. }) => {
            let text = undecided_text(alloc, kept.program(), &place, &why)?;
            Ok(Reply {
                status: Status::Undecided,
                text,
            })
        }
        Err(AdviseError::NoMemory) => Err(Halt::NoMemory),
    }
}

// The number of the operation with this name, if there is one.
fn op_named(names: &Names, name: &[u8]) -> Option<u32>
    requires { length names.now.ops ≤ most_ops }
    ensures number { result ≡ op_named names.now name.now }
    ensures within { IfSome result (λ number. number < length names.now.ops) }
{
    let mut left = names.ops.as_slice();
    let mut number = 0;
    while let Some((op, more)) = left.split_first() {
        if op.own.bytes() == name {
            return Some(number);
        }
        number += 1;
        left = more;
    }
    None
}

// Tells this line, by which the word is no name of an operation that can be advised.
fn tell_bad(alloc: Global, line: &str) -> Halt
    ensures { HaltTells (Some (status.Text, line.now)) result }
{
    match Vec::from_slice(alloc, line.as_bytes()) {
        Ok(text) => Halt::Told(Reply {
            status: Status::Text,
            text,
        }),
        Err(_) => Halt::NoMemory,
    }
}

ghost use Rattle.std.specs.Prelude.{◌≡◌, Some, IfOk};
ghost use Rattle.carol_reply.specs.Reply.{HaltTells, answer_of, ending};
ghost use Rattle.carol_reply.specs.Texts.{line_answer, part_answer};

use super::line::{Line, one_line};
use super::reply::Reply;
use super::status::Status;
use std::alloc::{AllocError, Global};

/// What keeps a word from going on.
#[derive(Drop)]
pub enum Halt {
    /// This is to be answered.
    Told(Reply),
    /// There was no memory.
    NoMemory,
}

impl From<AllocError> for Halt {
    ghost use Rattle.carol_reply.specs.declared.halt.Halt.TheVariants.{NoMemory};

    ghost from_gives = { λ _ halt. halt ≡ NoMemory };

    fn from(_: AllocError) -> Halt {
        Halt::NoMemory
    }
}

/// Tells this line.
pub fn tell_line(alloc: Global, line: Line) -> Halt
    ensures { HaltTells (Some (line_answer line)) result }
{
    match one_line(alloc, line) {
        Ok(reply) => Halt::Told(reply),
        Err(AllocError) => Halt::NoMemory,
    }
}

/// Tells that a file hasn't the parts that this word takes.
pub fn tell_parts(alloc: Global, word: &str) -> Halt
    ensures { HaltTells (Some (part_answer word.now)) result }
{
    match format!(in alloc; "parts {word}\n") {
        Ok(text) => Halt::Told(Reply {
            status: Status::Text,
            text: text.into_bytes(),
        }),
        Err(_) => Halt::NoMemory,
    }
}

/// What a word answers that was done, or was kept from going on.
pub fn ended(outcome: Result<Reply, Halt>) -> Result<Reply, AllocError>
    ensures { IfOk result (λ reply. ending outcome ≡ Some (answer_of reply)) }
{
    match outcome {
        Ok(reply) => Ok(reply),
        Err(Halt::Told(reply)) => Ok(reply),
        Err(Halt::NoMemory) => Err(AllocError),
    }
}

ghost use Rattle.std.specs.Prelude.{◌≤◌, length, IfErr, IfOk};
ghost use Rattle.carol_grammar.specs.Outcome.{Means, Read};
ghost use Rattle.carol_prepare.specs.Bytes.{BytesSay, IsSound, text_answer};
ghost use Rattle.carol_reply.specs.Reply.{HaltSays, HaltTells};
ghost use Rattle.carol_syntax.specs.Files.{file_tree};
ghost use Rattle.carol_syntax.specs.Limits.{most_text_bytes};

use carol_parse::{TextError, parse};
use carol_reply::{Halt, Line, tell_line};
use carol_syntax::File;
use std::alloc::Global;

/// The file that the bytes are.
pub(crate) fn file_of(alloc: Global, bytes: &[u8]) -> Result<File, Halt>
    requires { length bytes.now ≤ most_text_bytes }
    ensures read { IfOk result (λ file. Means bytes.now (Read (file_tree file))) }
    ensures sound { IfOk result (λ file. IsSound (file_tree file)) }
    ensures told { IfErr result (HaltSays (BytesSay (λ _ _. ⊥) bytes.now)) }
{
    match parse(alloc, bytes) {
        Ok(file) => Ok(file),
        Err(error) => Err(bad_text(alloc, error)),
    }
}

// Tells why a text isn't read.
fn bad_text(alloc: Global, error: TextError) -> Halt
    ensures { HaltTells (text_answer error) result }
{
    match error {
        TextError::Bad { line, column } => tell_line(alloc, Line::BadText { line, column }),
        TextError::TooLarge(limit) => tell_line(alloc, Line::TooLarge(limit)),
        TextError::NoMemory => Halt::NoMemory,
    }
}

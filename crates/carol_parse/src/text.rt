ghost use Rattle.std.specs.Prelude.{◌≡◌, ◌≤◌, length, Err, IfOk};
ghost use Rattle.carol_grammar.specs.Reading.{Reading, ended};
ghost use Rattle.carol_syntax.specs.Files.{FileTree, file_tree};
ghost use Rattle.carol_syntax.specs.Limits.{most_text_bytes};
ghost use Rattle.carol_syntax.specs.Shape.{IsFile};
ghost use Rattle.carol_syntax.specs.Size.{IsSized};
ghost use Rattle.carol_syntax.specs.declared.lexeme.Lexeme.{Lexeme};
ghost use Rattle.carol_grammar.specs.Outcome.{tail_of, is_broken};
ghost use Rattle.carol_grammar.specs.Reach.{told, bad_at, unless_large};
ghost use Rattle.carol_reader.specs.Reads.{Reads};
ghost use Rattle.carol_parse.specs.Answer.{Says, IsMeant, IsOnlyMeant};

use crate::error::TextError;
use crate::file::file;
use crate::shape::text_is_shaped;
use carol_grammar::{
    TextLimit, find_reach, one_outcome, read_is_sized, reading_answers, told_means,
};
use carol_reader::{Halt, Read, Reader};
use carol_syntax::{File, Lexeme, Lexemes, Span, Stop, cut};
use std::alloc::Global;

fn bad(at: Span) -> TextError
    ensures { result ≡ TextError.Bad at.line at.column }
{
    TextError::Bad {
        line: at.line,
        column: at.column,
    }
}

// What is told where nothing that was read is bad: the limit, if one was passed, or else what is
// bad at the end.
fn end_fault(text: &Lexemes, limit: Option<TextLimit>) -> TextError
    ensures { Says (Err result) (unless_large limit (bad_at text.now.end)) }
{
    match limit {
        Some(limit) => TextError::TooLarge(limit),
        None => TextError::Bad {
            line: text.end.line,
            column: text.end.column,
        },
    }
}

fn is_cut_off(stop: Stop) -> bool
    ensures { result ≡ is_broken stop }
{
    matches!(stop, Stop::Bad(_))
}

fn tail(stop: Stop) -> u32
    ensures { result ≡ tail_of stop }
{
    match stop {
        Stop::Tail(offset) => offset,
        _ => 0,
    }
}

// What reading the tokens up to the limit tells.
fn tell(text: &Lexemes, limit: Option<TextLimit>, read: Read<'_, File>) -> Result<File, TextError>
    ensures { (reading : Reading Lexeme FileTree) → Reads file_tree read.entry reading
        → Says result (told text.now limit (ended reading)) }
{
    match read {
        Ok((file, rest)) => {
            if let Some(token) = rest.first() {
                return Err(bad(token.span));
            }
            if limit.is_some() || is_cut_off(text.stop) {
                return Err(end_fault(text, limit));
            }
            Ok(file)
        }
        Err(Halt::At(rest)) => match rest.first() {
            Some(token) => Err(bad(token.span)),
            None => Err(end_fault(text, limit)),
        },
        Err(Halt::NoMemory) => Err(TextError::NoMemory),
    }
}

/// Reads a text: the only tree of the grammar that it has, within the limits. `Bad` is the place of
/// the first token, or of the first byte that begins none, with which no file goes on, and the
/// place behind the last byte where the text ends too early. `TooLarge` is the first limit that is
/// passed; where both stand the earlier place decides, and `Bad` at the same one.
pub fn parse(alloc: Global, bytes: &[u8]) -> Result<File, TextError>
    requires { length bytes.now ≤ most_text_bytes }
    ensures means { IsMeant bytes.now result }
    ensures only { IsOnlyMeant bytes.now result }
    ensures shape { IfOk result (λ file. IsFile (file_tree file)) }
    ensures size { IfOk result (λ file. IsSized (file_tree file)) }
{
    let text = cut(alloc, bytes)?;
    let reach = find_reach(&text, bytes);
    let (tokens, _) = text.list.as_slice().split_at(reach.count);
    let reader = Reader {
        alloc,
        bytes,
        count: tokens.len() + 1,
        depth: tokens.len() + 1,
    };
    reading_answers();
    told_means();
    one_outcome();
    text_is_shaped();
    read_is_sized();
    tell(&text, reach.limit, file(&reader, tokens, tail(text.stop)))
}

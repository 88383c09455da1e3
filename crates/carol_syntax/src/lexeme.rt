ghost use Rattle.std.specs.Prelude.{◌≡◌, ◌+◌, ◌<◌, ◌≤◌, ◌^◌, ℕ, length, List, IfOk};
ghost use Rattle.carol_syntax.specs.Limits.{most_text_bytes};
ghost use Rattle.carol_syntax.specs.Place.{start, span_of};
ghost use Rattle.carol_syntax.specs.Cut.{Cut, StandBetween, lexeme_at};
ghost use Rattle.carol_syntax.specs.declared.lexeme.Lexeme.{Lexeme};
ghost use Rattle.carol_syntax.specs.declared.lexeme.Stop.{Stop};
ghost use Rattle.carol_syntax.specs.declared.place.Place.{Place};

use crate::Span;
use crate::cursor::{from_start, next_token, stop_at};
use crate::found::Found;
use crate::kind::Kind;
use crate::place::Place;
use sqlite_items::Items;
use std::alloc::{AllocError, Global};

/// A token: what it is, the value of a number, the place of its first byte, and its bytes from
/// `from` to before `to`.
#[derive(Clone, Copy, Debug, PartialEq, Eq)]
pub struct Lexeme {
    pub kind: Kind,
    pub value: u64,
    pub span: Span,
    pub from: u32,
    pub to: u32,
}

/// Where cutting stopped.
#[derive(Clone, Copy, Debug, PartialEq, Eq)]
pub enum Stop {
    /// The whole text was cut.
    End,
    /// The offset of the first byte behind a transcript's first line.
    Tail(u32),
    /// A byte that begins no token, or what stands where the line feed behind `transcript` has to
    /// be.
    Bad(Span),
}

/// What a text is cut into, and where cutting stopped: behind the last byte, at the byte that
/// begins no token, or behind the word `transcript`.
#[derive(Debug, Drop)]
pub struct Lexemes {
    pub list: Items<Lexeme>,
    pub stop: Stop,
    pub end: Place,
}

/// The place without its offset.
pub(crate) fn span_at(at: Place) -> Span
    ensures { result ≡ span_of at }
{
    Span {
        line: at.line,
        column: at.column,
    }
}

/// The token that was found at a place.
pub(crate) fn make_lexeme(at: Place, found: Found) -> Lexeme
    requires { at.offset + found.length < 2 ^ 32 }
    ensures { result ≡ lexeme_at at found }
{
    Lexeme {
        kind: found.kind,
        value: found.value,
        span: span_at(at),
        from: at.offset,
        to: at.offset + found.length,
    }
}

/// A text is cut in one way.
pub fn one_cut()
    ensures { (bytes : List ℕ) (xs ys : List Lexeme) (s t : Stop) (d e : Place)
        → Cut start bytes xs s d → Cut start bytes ys t e → (xs ≡ ys) × (s ≡ t) × (d ≡ e) }
{}

/// Cuts a text into its tokens, the longest one each time.
pub fn cut(alloc: Global, bytes: &[u8]) -> Result<Lexemes, AllocError>
    requires { length bytes.now ≤ most_text_bytes }
    ensures cut { IfOk result (λ all. Cut start bytes.now all.list all.stop all.end) }
    ensures only { IfOk result
        (λ all. (list : List Lexeme) (stop : Stop) (end : Place) → Cut start bytes.now list stop end
        → (list ≡ all.list) × (stop ≡ all.stop) × (end ≡ all.end)) }
    ensures ordered { IfOk result (λ all. StandBetween 0 all.list all.end.offset) }
    ensures within { IfOk result (λ all. all.end.offset ≤ length bytes.now) }
    ensures whole { IfOk result (λ all. all.stop ≡ Stop.End → all.end.offset ≡ length bytes.now) }
{
    let mut list = Items::new(alloc);
    let mut here = from_start(bytes);
    while let Some((lexeme, next)) = next_token(&here) {
        list.push(lexeme)?;
        here = next;
    }
    let stop = stop_at(&here);
    let end = here.at;
    Ok(Lexemes { list, stop, end })
}

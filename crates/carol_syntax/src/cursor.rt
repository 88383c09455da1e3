ghost use Rattle.std.specs.Prelude.{◌≡◌, ◌+◌, ◌<◌, ◌≤◌, ◌^◌, ◌-◌, [], false, length, MatchOption};
ghost use Rattle.carol_syntax.specs.Limits.{most_text_bytes};
ghost use Rattle.carol_syntax.specs.Place.{start, past_space};
ghost use Rattle.carol_syntax.specs.Cut.{Stops, is_transcript, stop_of_tail};
ghost use Rattle.carol_syntax.specs.Cursor.{CutHere, IsHere, IsStep, IsLast};
ghost use Rattle.carol_syntax.specs.First.{first_token};
ghost use Rattle.carol_syntax.specs.declared.lexeme.Stop.{Stop};

use crate::found::{Found, first};
use crate::kind::Kind;
use crate::lexeme::{Lexeme, Stop, make_lexeme, span_at};
use crate::place::{Place, behind_space, over};

/// What is left of a text that is cut one token at a time: the place where the next token begins
/// or, with `tail`, the place behind the word `transcript`, and the bytes from there on.
#[derive(Clone, Copy)]
pub struct Here<'a> {
    pub at: Place,
    pub rest: &'a [u8],
    pub tail: bool,
}

/// The whole text.
pub fn from_start(bytes: &[u8]) -> Here<'_>
    requires { length bytes.now ≤ most_text_bytes }
    ensures sound { IsHere result }
    ensures first { (result.at, result.rest.now) ≡ past_space false start bytes.now }
    ensures head { result.tail ≡ false }
    ensures offset { result.at.offset + length result.rest.now ≡ length bytes.now }
{
    let start = Place {
        line: 1,
        column: 1,
        offset: 0,
    };
    let (at, rest) = behind_space(start, bytes);
    Here {
        at,
        rest,
        tail: false,
    }
}

fn begins_tail(kind: Kind) -> bool
    ensures { result ≡ is_transcript kind }
{
    matches!(kind, Kind::Transcript)
}

/// The next token and what is left behind it, unless the text ends here, no token begins here, or
/// the word `transcript` stands before.
pub fn next_token<'a>(here: &Here<'a>) -> Option<(Lexeme, Here<'a>)>
    requires { IsHere here.now }
    ensures { MatchOption result (IsLast here.now) (λ x. IsStep here.now x.0 x.1) }
{
    if here.tail {
        return None;
    }
    let Some(found) = first(here.rest) else {
        return None;
    };
    let lexeme = make_lexeme(here.at, found);
    let (_, more) = here.rest.split_at(found.length as usize);
    let next = over(here.at, found.length);
    if begins_tail(found.kind) {
        let behind = Here {
            at: next,
            rest: more,
            tail: true,
        };
        return Some((lexeme, behind));
    }
    let (at, rest) = behind_space(next, more);
    let behind = Here {
        at,
        rest,
        tail: false,
    };
    Some((lexeme, behind))
}

// Where cutting stops behind the word `transcript`.
fn tail_stop(at: Place, rest: &[u8]) -> Stop
    requires { at.offset + length rest.now < 2 ^ 32 - 1 }
    ensures { result ≡ stop_of_tail at rest.now }
{
    match rest {
        [b'\n', ..] => Stop::Tail(at.offset + 1),
        _ => Stop::Bad(span_at(at)),
    }
}

// Where cutting stops before what begins no token.
fn end_stop(at: Place, rest: &[u8]) -> Stop
    requires { first_token rest.now ≡ None }
    ensures { Stops (at, rest.now) result }
{
    if rest.is_empty() {
        return Stop::End;
    }
    Stop::Bad(span_at(at))
}

/// Why cutting stops here, where no token is left.
pub fn stop_at(here: &Here<'_>) -> Stop
    requires sound { IsHere here.now }
    requires last { IsLast here.now }
    ensures cut { CutHere here.now [] result here.now.at }
    ensures whole { result ≡ Stop.End → length here.now.rest.now ≡ 0 }
{
    if here.tail {
        return tail_stop(here.at, here.rest);
    }
    end_stop(here.at, here.rest)
}

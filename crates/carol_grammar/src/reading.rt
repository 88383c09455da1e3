ghost use Rattle.std.specs.Prelude.{◌≡◌, ◌<◌, ◌≤◌, length, slice_index_or, MatchOption, MatchBool};
ghost use Rattle.carol_syntax.specs.Limits.{most_program_bytes};
ghost use Rattle.carol_syntax.specs.declared.lexeme.Lexeme.{Lexeme};
ghost use Rattle.carol_syntax.specs.Cut.{StandBetween};
ghost use Rattle.carol_grammar.specs.Limits.{is_end, ends_within, GoesPast, IsFirst};
ghost use Rattle.carol_grammar.specs.Reach.{NoByteIsPast, NoTokenPasses, IsFirstMet, NonePast, IsSplit, Reaches};

use crate::limit::{Passed, TextLimit, first_passed};
use carol_syntax::{Kind, Lexeme, Lexemes, MOST_PROGRAM_BYTES};

/// A limit that is passed, and the offset of the token or byte that passes it.
#[derive(Clone, Copy)]
pub struct Met {
    pub limit: TextLimit,
    pub at: u32,
}

/// The first limit that a text passes before its end, and how many of its tokens begin at or before
/// that place: all of them, where it passes none.
#[derive(Clone, Copy, Debug, PartialEq, Eq)]
pub struct Reach {
    pub limit: Option<TextLimit>,
    pub count: usize,
}

#[tactic(auto, unfolding(crate::specs::Limits::is_end))]
fn ends_program(kind: Kind) -> bool
    ensures { result ≡ is_end kind }
{
    matches!(kind, Kind::End)
}

// Whether a word `end` stands within the bytes that a program part may have.
fn ends_early(tokens: &[Lexeme]) -> bool
    ensures { result ≡ ends_within tokens.now }
{
    for token in tokens {
        if ends_program(token.kind) && token.to <= MOST_PROGRAM_BYTES {
            return true;
        }
    }
    false
}

// Whether the program part goes on where its bytes are used up.
fn is_too_long(tokens: &[Lexeme], bytes: &[u8]) -> bool
    ensures { MatchBool result (GoesPast bytes.now tokens.now most_program_bytes)
        (NoByteIsPast bytes.now tokens.now) }
{
    if bytes.len() <= MOST_PROGRAM_BYTES as usize {
        return false;
    }
    !ends_early(tokens)
}

// The place of a token that is over a limit.
fn met_at(tokens: &[Lexeme], passed: Passed) -> Met
    requires { passed.index < length tokens.now }
    ensures limit { result.limit ≡ passed.limit }
    ensures at { (d : Lexeme) → result.at ≡ (slice_index_or tokens.now passed.index d).from }
{
    Met {
        limit: passed.limit,
        at: tokens[passed.index].from,
    }
}

// The first place where a token is over a limit.
fn token_met(text: &Lexemes) -> Option<Met>
    requires { StandBetween 0 text.now.list text.now.end.offset }
    ensures { MatchOption result (NoTokenPasses text.now.list) (IsFirstMet text.now.list) }
{
    let tokens = text.list.as_slice();
    let Some(passed) = first_passed(tokens) else {
        return None;
    };
    Some(met_at(tokens, passed))
}

// The first limit that is passed, and where.
fn first_met(text: &Lexemes, bytes: &[u8]) -> Option<Met>
    requires { StandBetween 0 text.now.list text.now.end.offset }
    ensures { MatchOption result (NonePast bytes.now text.now.list)
        (λ met. IsFirst bytes.now text.now.list met.limit met.at) }
{
    let met = token_met(text);
    if !is_too_long(text.list.as_slice(), bytes) {
        return met;
    }
    match met {
        Some(met) if met.at < MOST_PROGRAM_BYTES => Some(met),
        _ => Some(Met {
            limit: TextLimit::ProgramBytes,
            at: MOST_PROGRAM_BYTES,
        }),
    }
}

// How many tokens begin at or before the offset.
fn count_up_to(text: &Lexemes, at: u32) -> usize
    requires { StandBetween 0 text.now.list text.now.end.offset }
    ensures split { IsSplit at text.now.list result }
    ensures within { result ≤ length text.now.list }
{
    let tokens = text.list.as_slice();
    for (index, token) in tokens.iter().enumerate() {
        if token.from > at {
            return index;
        }
    }
    tokens.len()
}

/// Up to where a text is read: to its end, or to the first limit that it passes before.
pub fn find_reach(text: &Lexemes, bytes: &[u8]) -> Reach
    requires { StandBetween 0 text.now.list text.now.end.offset }
    ensures reaches { Reaches bytes.now text.now result }
    ensures within { result.count ≤ length text.now.list }
{
    let Some(met) = first_met(text, bytes) else {
        return Reach {
            limit: None,
            count: text.list.len(),
        };
    };
    if met.at >= text.end.offset {
        return Reach {
            limit: None,
            count: text.list.len(),
        };
    }
    Reach {
        limit: Some(met.limit),
        count: count_up_to(text, met.at),
    }
}

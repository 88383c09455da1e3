ghost use Rattle.std.specs.Prelude.{◌≡◌, ◌+◌, ◌<◌, ◌≤◌, ◌^◌, ◌∷◌, length, IfSome, IsTrue, take_while};
ghost use Rattle.std.specs.Char.{is_ascii_digit};
ghost use Rattle.carol_text.specs.Number.{number_at};
ghost use Rattle.carol_syntax.specs.Words.{is_word_byte, is_small_letter};
ghost use Rattle.carol_syntax.specs.Limits.{largest};
ghost use Rattle.carol_syntax.specs.First.{first_token, judged_word, judged_number, first_symbol, with_equals, starts_word};
ghost use Rattle.std.specs.List.{prefix_len};

use crate::kind::{Kind, word_kind};
use crate::{LARGEST, LONGEST_NAME};

/// The token at the front of a text: what it is, the value of a number and 0 of any other, and how
/// many bytes it has.
#[derive(Clone, Copy, Debug, PartialEq, Eq)]
pub struct Found {
    pub kind: Kind,
    pub value: u64,
    pub length: u32,
}

/// The token that the text begins with, the longest one. None where its first byte begins no token,
/// and where it is empty.
#[tactic(auto, unfolding(crate::specs::First::first_token))]
pub fn first(bytes: &[u8]) -> Option<Found>
    requires { length bytes.now < 2 ^ 32 }
    ensures token { result ≡ first_token bytes.now }
    ensures some { IfSome result (λ f. 0 < f.length) }
    ensures within { IfSome result (λ f. f.length ≤ length bytes.now) }
{
    let Some((byte, rest)) = bytes.split_first() else {
        return None;
    };
    if is_letter(*byte) {
        return word(bytes);
    }
    if byte.is_ascii_digit() {
        return number(bytes);
    }
    symbol_token(*byte, rest)
}

fn is_letter(byte: u8) -> bool
    ensures { result ≡ is_small_letter byte }
{
    byte >= b'a' && byte <= b'z'
}

fn is_word(byte: u8) -> bool
    ensures { result ≡ is_word_byte byte }
{
    byte.is_ascii_lowercase() || byte.is_ascii_digit() || byte == b'_'
}

// How many word bytes the text begins with.
fn run_length(bytes: &[u8]) -> usize
    ensures run { result ≡ prefix_len is_word_byte bytes.now }
    ensures within { result ≤ length bytes.now }
    ensures some { IsTrue (starts_word bytes.now) → 0 < result }
{
    for (at, byte) in bytes.iter().enumerate() {
        if !is_word(*byte) {
            return at;
        }
    }
    bytes.len()
}

fn word(bytes: &[u8]) -> Option<Found>
    requires small { length bytes.now < 2 ^ 32 }
    requires some { IsTrue (starts_word bytes.now) }
    ensures token { result ≡ judged_word (take_while is_word_byte bytes.now) }
    ensures some { IfSome result (λ f. 0 < f.length) }
    ensures within { IfSome result (λ f. f.length ≤ length bytes.now) }
{
    let (run, _) = bytes.split_at(run_length(bytes));
    if run.len() > LONGEST_NAME {
        return None;
    }
    Some(Found {
        kind: word_kind(run),
        value: 0,
        length: run.len() as u32,
    })
}

fn number(bytes: &[u8]) -> Option<Found>
    requires { length bytes.now < 2 ^ 32 }
    ensures token { result ≡ judged_number bytes.now (number_at largest bytes.now) }
    ensures some { IfSome result (λ f. 0 < f.length) }
    ensures within { IfSome result (λ f. f.length ≤ length bytes.now) }
{
    let Ok((value, rest)) = carol_text::number(bytes, LARGEST) else {
        return None;
    };
    if !rest.is_empty() && rest[0].is_ascii_digit() {
        return None;
    }
    Some(Found {
        kind: Kind::Number,
        value,
        length: (bytes.len() - rest.len()) as u32,
    })
}

fn make_found(kind: Kind, length: u32) -> Option<Found>
    ensures { result ≡ Some (record { kind = kind; value = 0; length = length }) }
{
    Some(Found {
        kind,
        value: 0,
        length,
    })
}

fn longer(rest: &[u8], two: Option<Found>, one: Option<Found>) -> Option<Found>
    ensures { result ≡ with_equals rest.now two one }
{
    match rest {
        [b'=', ..] => two,
        _ => one,
    }
}

fn symbol_token(byte: u8, rest: &[u8]) -> Option<Found>
    ensures token { result ≡ first_symbol byte rest.now }
    ensures some { IfSome result (λ f. 0 < f.length) }
    ensures within { IfSome result (λ f. f.length ≤ length rest.now + 1) }
{
    match byte {
        b';' => make_found(Kind::Semicolon, 1),
        b':' => make_found(Kind::Colon, 1),
        b',' => make_found(Kind::Comma, 1),
        b'.' => make_found(Kind::Dot, 1),
        b'(' => make_found(Kind::Opening, 1),
        b')' => make_found(Kind::Closing, 1),
        b'{' => make_found(Kind::OpeningBrace, 1),
        b'}' => make_found(Kind::ClosingBrace, 1),
        b'=' => make_found(Kind::Equals, 1),
        b'*' => make_found(Kind::Star, 1),
        b'+' => longer(
            rest,
            make_found(Kind::PlusEquals, 2),
            make_found(Kind::Plus, 1),
        ),
        b'-' => longer(
            rest,
            make_found(Kind::MinusEquals, 2),
            make_found(Kind::Minus, 1),
        ),
        b'<' => longer(
            rest,
            make_found(Kind::AtMost, 2),
            make_found(Kind::Below, 1),
        ),
        b'>' => longer(
            rest,
            make_found(Kind::AtLeast, 2),
            make_found(Kind::Above, 1),
        ),
        b'!' => longer(rest, make_found(Kind::Differs, 2), None),
        _ => None,
    }
}

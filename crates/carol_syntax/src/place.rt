ghost use Rattle.std.specs.Prelude.{◌≡◌, ◌+◌, ◌<◌, ◌^◌, ◌-◌, ◌≤◌, false, length};
ghost use Rattle.carol_syntax.specs.Place.{place_over, place_behind, past_space, is_blank, passes, IsCounted};

use crate::Span;

/// A place in a text: its line and column, both from 1, and its offset in bytes, from 0.
#[derive(Clone, Copy, Debug, PartialEq, Eq)]
pub struct Place {
    pub line: u32,
    pub column: u32,
    pub offset: u32,
}

/// The place behind `count` bytes without a line feed.
pub fn over(at: Place, count: u32) -> Place
    requires column { at.column + count < 2 ^ 32 }
    requires offset { at.offset + count < 2 ^ 32 }
    ensures { result ≡ place_over at count }
{
    Place {
        line: at.line,
        column: at.column + count,
        offset: at.offset + count,
    }
}

/// The place behind one byte.
pub fn behind(at: Place, byte: u8) -> Place
    requires counted { IsCounted at }
    requires room { at.offset + 1 < 2 ^ 32 - 1 }
    ensures place { result ≡ place_behind at byte }
    ensures counted { IsCounted result }
{
    if byte == b'\n' {
        return Place {
            line: at.line + 1,
            column: 1,
            offset: at.offset + 1,
        };
    }
    Place {
        line: at.line,
        column: at.column + 1,
        offset: at.offset + 1,
    }
}

// Whether the byte is a space, a tab, a line feed or a carriage return.
fn is_space(byte: u8) -> bool
    ensures { result ≡ is_blank byte }
{
    byte == b' ' || byte == b'\t' || byte == b'\n' || byte == b'\r'
}

// Whether the byte belongs to a space or a comment, and then whether a comment goes on behind it.
fn goes_past(comment: bool, byte: u8) -> Option<bool>
    ensures { result ≡ passes comment byte }
{
    if comment {
        return Some(byte != b'\n');
    }
    if is_space(byte) {
        return Some(false);
    }
    if byte == b'#' { Some(true) } else { None }
}

/// What is left of the text behind spaces and comments, and where it begins.
#[tactic(auto, unfolding(crate::specs::Place::past_space))]
pub fn behind_space(from: Place, bytes: &[u8]) -> (Place, &[u8])
    requires counted { IsCounted from }
    requires room { from.offset + length bytes.now < 2 ^ 32 - 1 }
    ensures past { (result.0, result.1.now) ≡ past_space false from bytes.now }
    ensures counted { IsCounted result.0 }
    ensures offset { result.0.offset + length result.1.now ≡ from.offset + length bytes.now }
    ensures within { length result.1.now ≤ length bytes.now }
{
    let mut at = from;
    let mut rest = bytes;
    let mut comment = false;
    while let Some((byte, more)) = rest.split_first() {
        let Some(goes_on) = goes_past(comment, *byte) else {
            return (at, rest);
        };
        at = behind(at, *byte);
        comment = goes_on;
        rest = more;
    }
    (at, rest)
}

ghost use Rattle.std.specs.Prelude.{◌≡◌};
ghost use Rattle.carol_text.specs.Reading.{Reads};
ghost use Rattle.carol_event.specs.Lines.{atom_at, barred_at, behind_at, cause_at, number32_at, pair_at, value_at};

use crate::event::Cause;
use crate::kind::byte_at;
use carol_store::Atom;
use carol_text::{BadByte, expect, integer, number};

/// A number of 32 bits, and the bytes behind it.
pub fn number32(bytes: &[u8]) -> Result<(u32, &[u8]), BadByte>
    ensures { Reads (λ x. (x.0, x.1.now)) result (number32_at bytes.now) }
{
    let (value, rest) = number(bytes, u64::from(u32::MAX))?;
    Ok((value as u32, rest))
}

/// Two numbers of 32 bits with a space between them.
pub fn pair(bytes: &[u8]) -> Result<((u32, u32), &[u8]), BadByte>
    ensures { Reads (λ x. (x.0, x.1.now)) result (pair_at bytes.now) }
{
    let (first, behind) = number32(bytes)?;
    let (second, rest) = number32(expect(behind, b" ")?)?;
    Ok(((first, second), rest))
}

/// The value of a cell.
pub fn value(bytes: &[u8]) -> Result<(i64, &[u8]), BadByte>
    ensures { Reads (λ x. (x.0, x.1.now)) result (value_at bytes.now) }
{
    integer(bytes, i64::MIN, i64::MAX)
}

/// An atom: its cell, a colon, and its value.
pub fn atom(bytes: &[u8]) -> Result<(Atom, &[u8]), BadByte>
    ensures { Reads (λ x. (x.0, x.1.now)) result (atom_at bytes.now) }
{
    let (cell, behind) = number32(bytes)?;
    let (value, rest) = value(expect(behind, b":")?)?;
    Ok((Atom { cell, value }, rest))
}

/// Why a session was refused.
pub fn cause(bytes: &[u8]) -> Result<(Cause, &[u8]), BadByte>
    ensures { Reads (λ x. (x.0, x.1.now)) result (cause_at bytes.now) }
{
    if byte_at(bytes, 1) == b'e' {
        behind(bytes)
    } else {
        barred(bytes)
    }
}

fn behind(bytes: &[u8]) -> Result<(Cause, &[u8]), BadByte>
    ensures { Reads (λ x. (x.0, x.1.now)) result (behind_at bytes.now) }
{
    let (entry, rest) = number32(expect(bytes, b"behind ")?)?;
    Ok((Cause::Behind { entry }, rest))
}

fn barred(bytes: &[u8]) -> Result<(Cause, &[u8]), BadByte>
    ensures { Reads (λ x. (x.0, x.1.now)) result (barred_at bytes.now) }
{
    let ((session, guard), rest) = pair(expect(bytes, b"barred ")?)?;
    Ok((Cause::Barred { session, guard }, rest))
}

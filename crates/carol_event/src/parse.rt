ghost use Rattle.std.specs.Prelude.{◌≡◌, ◌+◌, ◌≤◌, length, IfOk, IsOkAnd};
ghost use Rattle.carol_text.specs.Reading.{Reads};
ghost use Rattle.carol_event.specs.declared.kind.Kind.TheVariants as kind;
ghost use Rattle.carol_event.specs.declared.event.Event.{Event as EventData};
ghost use Rattle.carol_event.specs.Faults.{Refuses};
ghost use Rattle.carol_event.specs.Lines.{at_end, event_at, fields_at};
ghost use Rattle.carol_event.specs.Numbers.{HasNumbers};
ghost use Rattle.carol_event.specs.Texts.{event_text};

use crate::error::LineError;
use crate::event::Event;
use crate::fields::{cause, number32, pair};
use crate::items::{atoms, values};
use crate::kind::{Kind, kind_of, word_of};
use carol_store::Store;
use carol_text::{BadByte, expect, wide_integer};
use std::alloc::Global;

/// Reads the line of an event, given without its line feed. `Ok` exactly where the line is the text
/// of an event. An event's lists are kept in place: no memory is taken, and `NoMemory` isn't
/// answered.
pub fn parse_event(alloc: Global, line: &[u8]) -> Result<Event, LineError>
    ensures found { IfOk result (λ event. line.now ≡ event_text event) }
    ensures numbers { IfOk result HasNumbers }
    ensures only { (event : EventData) → HasNumbers event → line.now ≡ event_text event
        → IsOkAnd result (λ x. x ≡ event) }

    // No event's text begins with the line up to and with the column, and one begins with what
    // stands before it. The 17th value or atom is bad at its first byte, not at the space before.
    ensures bad { Refuses line.now result }
{
    match event(alloc, line) {
        Ok(event) => Ok(event),
        Err(bad) => Err(LineError::Bad {
            column: column(line, bad),
        }),
    }
}

// The column of a byte, near the front of the line.
fn column(line: &[u8], bad: BadByte) -> u32
    requires within { bad.left ≤ length line.now }
    requires near { length line.now ≤ bad.left + 1000 }
    ensures { result + bad.left ≡ length line.now + 1 }
{
    (line.len() - bad.left) as u32 + 1
}

// The event of a line.
#[tactic(auto, unfolding(crate::specs::Lines::event_at))]
fn event(alloc: Global, line: &[u8]) -> Result<Event, BadByte>
    ensures { Reads (λ x. x) result (event_at line.now) }
{
    let kind = kind_of(line);
    let rest = expect(line, word_of(kind))?;
    match kind {
        Kind::Grant => grant(rest),
        Kind::Query => query(alloc, rest),
        Kind::Issue => issue(alloc, rest),
        Kind::Release => release(rest),
        Kind::Return => returned(rest),
        Kind::Refuse => refuse(rest),
        Kind::Deliver => deliver(rest),
        Kind::Cut => cut(rest),
        Kind::Join => join(rest),
    }
}

// The end of the line.
fn end(rest: &[u8]) -> Result<(), BadByte>
    ensures { Reads (λ x. x) result (at_end tt rest.now) }
{
    if rest.is_empty() {
        return Ok(());
    }
    Err(BadByte { left: rest.len() })
}

#[tactic(auto, unfolding(crate::specs::Lines::fields_at))]
fn grant(bytes: &[u8]) -> Result<Event, BadByte>
    ensures { Reads (λ x. x) result (fields_at kind.Grant bytes.now) }
{
    let ((session, guard), rest) = pair(bytes)?;
    end(rest)?;
    Ok(Event::Grant { session, guard })
}

#[tactic(auto, unfolding(crate::specs::Lines::fields_at))]
fn query(alloc: Global, bytes: &[u8]) -> Result<Event, BadByte>
    ensures { Reads (λ x. x) result (fields_at kind.Query bytes.now) }
{
    let ((session, guard), rest) = pair(bytes)?;
    let values = values(alloc, rest)?;
    let store = Store::from_slice(alloc, values.as_slice());
    Ok(Event::Query {
        session,
        guard,
        store,
    })
}

#[tactic(auto, unfolding(crate::specs::Lines::fields_at))]
fn issue(alloc: Global, bytes: &[u8]) -> Result<Event, BadByte>
    ensures { Reads (λ x. x) result (fields_at kind.Issue bytes.now) }
{
    let ((session, entry), rest) = pair(bytes)?;
    let effect = atoms(alloc, rest)?;
    Ok(Event::Issue {
        session,
        entry,
        effect,
    })
}

#[tactic(auto, unfolding(crate::specs::Lines::fields_at))]
fn release(bytes: &[u8]) -> Result<Event, BadByte>
    ensures { Reads (λ x. x) result (fields_at kind.Release bytes.now) }
{
    let (session, rest) = number32(bytes)?;
    end(rest)?;
    Ok(Event::Release { session })
}

#[tactic(auto, unfolding(crate::specs::Lines::fields_at))]
fn returned(bytes: &[u8]) -> Result<Event, BadByte>
    ensures { Reads (λ x. x) result (fields_at kind.Return bytes.now) }
{
    let (session, behind) = number32(bytes)?;
    let (value, rest) = wide_integer(expect(behind, b" ")?, i128::MIN, i128::MAX)?;
    end(rest)?;
    Ok(Event::Return { session, value })
}

#[tactic(auto, unfolding(crate::specs::Lines::fields_at))]
fn refuse(bytes: &[u8]) -> Result<Event, BadByte>
    ensures { Reads (λ x. x) result (fields_at kind.Refuse bytes.now) }
{
    let (session, behind) = number32(bytes)?;
    let (cause, rest) = cause(expect(behind, b" ")?)?;
    end(rest)?;
    Ok(Event::Refuse { session, cause })
}

#[tactic(auto, unfolding(crate::specs::Lines::fields_at))]
fn deliver(bytes: &[u8]) -> Result<Event, BadByte>
    ensures { Reads (λ x. x) result (fields_at kind.Deliver bytes.now) }
{
    let (source, behind) = number32(bytes)?;
    let ((target, entry), rest) = pair(expect(behind, b" ")?)?;
    end(rest)?;
    Ok(Event::Deliver {
        source,
        target,
        entry,
    })
}

#[tactic(auto, unfolding(crate::specs::Lines::fields_at))]
fn cut(bytes: &[u8]) -> Result<Event, BadByte>
    ensures { Reads (λ x. x) result (fields_at kind.Cut bytes.now) }
{
    let ((a, b), rest) = pair(bytes)?;
    end(rest)?;
    Ok(Event::Cut { a, b })
}

#[tactic(auto, unfolding(crate::specs::Lines::fields_at))]
fn join(bytes: &[u8]) -> Result<Event, BadByte>
    ensures { Reads (λ x. x) result (fields_at kind.Join bytes.now) }
{
    let ((a, b), rest) = pair(bytes)?;
    end(rest)?;
    Ok(Event::Join { a, b })
}

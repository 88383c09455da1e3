ghost use Rattle.std.specs.Prelude.{◌≡◌, ◌++◌, codes, OnOk, OnErr};
ghost use Rattle.std.specs.String.{string_bytes};
ghost use Rattle.carol_event.specs.Pushes.{Appends};
ghost use Rattle.carol_event.specs.Texts.{cause_text, event_line, event_text, values_text};

use crate::event::{Cause, Event};
use crate::push::{push_effect, push_numbers, push_spaced, push_store};
use carol_store::Store;
use std::alloc::AllocError;
use std::fmt::Write;

/// Appends the line of an event with its line feed. Without memory nothing is appended.
pub fn print_event(event: &Event, out: &mut Vec<u8>) -> Result<(), AllocError>
    ensures ok { OnOk result (out.new.items ≡ out.old.items ++ event_line event.now) }
    ensures err { OnErr result (out.new.items ≡ out.old.items) }
{
    let len = out.len();
    match push_line(out, event) {
        Ok(()) => Ok(()),
        Err(error) => {
            out.truncate(len);
            Err(error)
        }
    }
}

// Appends the line of an event.
fn push_line(out: &mut Vec<u8>, event: &Event) -> Result<(), AllocError>
    ensures { Appends result out.old.items (event_line event.now) out.new.items }
{
    push_text(out, event)?;
    out.extend_from_slice(b"\n")
}

// Appends the text of an event.
#[tactic(auto, unfolding(crate::specs::Texts::event_text))]
fn push_text(out: &mut Vec<u8>, event: &Event) -> Result<(), AllocError>
    ensures { Appends result out.old.items (event_text event.now) out.new.items }
{
    match event {
        Event::Grant { session, guard } => push_numbers(out, b"grant", &[*session, *guard]),
        Event::Query {
            session,
            guard,
            store,
        } => {
            push_numbers(out, b"query", &[*session, *guard])?;
            push_store(out, store.values())
        }
        Event::Issue {
            session,
            entry,
            effect,
        } => {
            push_numbers(out, b"issue", &[*session, *entry])?;
            push_effect(out, effect.as_slice())
        }
        Event::Release { session } => push_numbers(out, b"release", &[*session]),
        Event::Return { session, value } => {
            push_numbers(out, b"return", &[*session])?;
            push_spaced(out, *value)
        }
        Event::Refuse { session, cause } => {
            push_numbers(out, b"refuse", &[*session])?;
            push_reason(out, *cause)
        }
        Event::Deliver {
            source,
            target,
            entry,
        } => push_numbers(out, b"deliver", &[*source, *target, *entry]),
        Event::Cut { a, b } => push_numbers(out, b"cut", &[*a, *b]),
        Event::Join { a, b } => push_numbers(out, b"join", &[*a, *b]),
    }
}

// Appends the text of a cause, behind a space.
#[tactic(auto, unfolding(crate::specs::Texts::cause_text))]
fn push_reason(out: &mut Vec<u8>, cause: Cause) -> Result<(), AllocError>
    ensures { Appends result out.old.items (codes " " ++ cause_text cause) out.new.items }
{
    match cause {
        Cause::Barred { session, guard } => push_numbers(out, b" barred", &[session, guard]),
        Cause::Behind { entry } => push_numbers(out, b" behind", &[entry]),
    }
}

/// Appends the text of a cause.
#[tactic(auto, unfolding(crate::specs::Texts::cause_text))]
pub fn push_cause(out: &mut String, cause: Cause) -> Result<(), AllocError>
    ensures { OnOk result (string_bytes out.new ≡ string_bytes out.old ++ cause_text cause) }
{
    match cause {
        Cause::Barred { session, guard } => write!(out, "barred {session} {guard}"),
        Cause::Behind { entry } => write!(out, "behind {entry}"),
    }
}

/// Appends the values of a store, each behind a space.
pub fn push_values(out: &mut String, store: &Store) -> Result<(), AllocError>
    ensures { OnOk result (string_bytes out.new ≡ string_bytes out.old ++ values_text store.now) }
{
    for cell in 0..store.len() {
        let value = store.get(cell);
        write!(out, " {value}")?;
    }
    Ok(())
}

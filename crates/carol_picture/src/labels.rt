ghost use Rattle.std.specs.Prelude.{◌≡◌, ◌++◌, OnOk};
ghost use Rattle.carol_program.specs.Rules.{rules_in};
ghost use Rattle.carol_picture.specs.Labels.{cause_label, label, session_text};

use crate::columns::push_values;
use crate::effects::push_atoms;
use crate::texts::{push_named, push_numbered};
use carol_event::{Cause, Event};
use carol_program::Program;
use carol_text::push_integer;
use std::alloc::AllocError;

// Appends what a session is called, and what it does.
#[tactic(auto, unfolding(crate::specs::Labels::session_text))]
fn push_session(out: &mut Vec<u8>, session: u32, does: &[u8]) -> Result<(), AllocError>
    ensures { OnOk result (out.new.items ≡ out.old.items ++ session_text session does.now) }
{
    push_numbered(out, b"s", u64::from(session))?;
    out.extend_from_slice(does)
}

/// Appends what happens at an event.
#[tactic(auto, unfolding(crate::specs::Labels::label))]
pub fn push_label(out: &mut Vec<u8>, program: &Program, event: &Event) -> Result<(), AllocError>
    ensures { OnOk result (out.new.items ≡ out.old.items
        ++ label (rules_in program.now) program.now.names event.now) }
{
    let guards = program.names.guards.as_slice();
    match event {
        Event::Grant { session, guard } => {
            push_session(out, *session, b" is granted ")?;
            push_named(out, b"", guards, *guard)
        }
        Event::Query {
            session,
            guard,
            store,
        } => {
            push_session(out, *session, b" reads under ")?;
            push_named(out, b"", guards, *guard)?;
            out.extend_from_slice(b":")?;
            push_values(out, store.values())
        }
        Event::Issue {
            session,
            entry,
            effect,
        } => {
            push_session(out, *session, b" issues entry ")?;
            push_numbered(out, b"", u64::from(*entry))?;
            push_atoms(
                out,
                program.names.cells.as_slice(),
                &program.shape,
                effect.as_slice(),
            )
        }
        Event::Release { session } => push_session(out, *session, b" releases"),
        Event::Return { session, value } => {
            push_session(out, *session, b" returns ")?;
            push_integer(out, *value)
        }
        Event::Refuse { session, cause } => {
            push_session(out, *session, b" is refused: ")?;
            push_cause(out, program, *cause)
        }
        Event::Deliver {
            source,
            target,
            entry,
        } => {
            push_numbered(out, b"entry ", u64::from(*entry))?;
            push_numbered(out, b" from replica ", u64::from(*source))?;
            push_numbered(out, b" to replica ", u64::from(*target))
        }
        Event::Cut { a, b } => {
            push_numbered(out, b"replica ", u64::from(*a))?;
            push_numbered(out, b" is cut off from replica ", u64::from(*b))
        }
        Event::Join { a, b } => {
            push_numbered(out, b"replica ", u64::from(*a))?;
            push_numbered(out, b" is joined to replica ", u64::from(*b))
        }
    }
}

// Appends why a session is refused.
#[tactic(auto, unfolding(crate::specs::Labels::cause_label))]
fn push_cause(out: &mut Vec<u8>, program: &Program, cause: Cause) -> Result<(), AllocError>
    ensures { OnOk result (out.new.items ≡ out.old.items ++ cause_label program.now.names cause) }
{
    match cause {
        Cause::Barred { session, guard } => {
            push_numbered(out, b"barred by s", u64::from(session))?;
            push_named(out, b" under ", program.names.guards.as_slice(), guard)
        }
        Cause::Behind { entry } => push_numbered(out, b"out of reach is entry ", u64::from(entry)),
    }
}

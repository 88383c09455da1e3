ghost use Rattle.std.specs.Prelude.{◌≡◌, ◌+◌, ◌≤◌, ◌++◌, length, OnOk};
ghost use Rattle.carol_program.specs.Limits.{most_sessions};
ghost use Rattle.carol_picture.specs.Places.{most_drawn};
ghost use Rattle.carol_picture.specs.Shapes.{
  at_session,
  bar,
  between,
  closes,
  from_home,
  refusal,
  shape,
  until_closed,
};

use crate::elements::push_line;
use crate::places::{home_of, replica_x, row_y, session_x};
use carol_event::{Cause, Event};
use carol_program::SessionPlan;
use std::alloc::AllocError;

/// Appends what is drawn in the lanes for the event of this row, behind which these come.
#[tactic(auto, unfolding(crate::specs::Shapes::shape))]
pub fn push_shape(
    out: &mut Vec<u8>,
    plans: &[SessionPlan],
    row: usize,
    event: &Event,
    later: &[Event],
) -> Result<(), AllocError>
    requires plans { length plans.now ≤ most_sessions }
    requires rows { row + length later.now ≤ most_drawn }
    ensures { OnOk result (out.new.items ≡ out.old.items
        ++ shape plans.now row event.now later.now) }
{
    let y = row_y(row);
    match event {
        Event::Grant { session, .. } => push_bar(out, plans, row, *session, later),
        Event::Query { session, .. } => push_from_home(out, b"query", plans, *session, y),
        Event::Issue { session, .. } => push_from_home(out, b"issue", plans, *session, y),
        Event::Release { session } => push_at(out, b"release", plans, *session, y),
        Event::Return { session, .. } => push_at(out, b"return", plans, *session, y),
        Event::Refuse { session, cause } => push_refusal(out, plans, *session, *cause, y),
        Event::Deliver { source, target, .. } => {
            push_between(out, b"deliver", plans, *source, *target, y)
        }
        Event::Cut { a, b } => push_between(out, b"cut", plans, *a, *b, y),
        Event::Join { a, b } => push_between(out, b"join", plans, *a, *b, y),
    }
}

// Appends the bar of a grant, down to the row of the event that closes it.
fn push_bar(
    out: &mut Vec<u8>,
    plans: &[SessionPlan],
    row: usize,
    session: u32,
    later: &[Event],
) -> Result<(), AllocError>
    requires plans { length plans.now ≤ most_sessions }
    requires rows { row + length later.now ≤ most_drawn }
    ensures { OnOk result (out.new.items ≡ out.old.items
        ++ bar plans.now row session later.now) }
{
    let x = session_x(plans, session);
    let end = row + until_closed(session, later);
    push_line(out, b"grant", &[x, row_y(row), x, row_y(end)])
}

// How many of these events come up to and with the first one that closes the session's grants; all,
// where none does.
fn until_closed(session: u32, later: &[Event]) -> usize
    ensures value { result ≡ until_closed session later.now }
    ensures few { result ≤ length later.now }
{
    let mut rows = 0;
    let mut left = later;
    while let Some((event, more)) = left.split_first() {
        rows += 1;
        if closes(session, event) {
            return rows;
        }
        left = more;
    }
    rows
}

// Whether the event closes the session's grants.
fn closes(session: u32, event: &Event) -> bool
    ensures { result ≡ closes session event.now }
{
    match event {
        Event::Issue { session: who, .. }
        | Event::Release { session: who }
        | Event::Return { session: who, .. }
        | Event::Refuse { session: who, .. } => *who == session,
        Event::Grant { .. }
        | Event::Query { .. }
        | Event::Deliver { .. }
        | Event::Cut { .. }
        | Event::Join { .. } => false,
    }
}

// Appends a line of this class from the session's replica to the session.
fn push_from_home(
    out: &mut Vec<u8>,
    class: &[u8],
    plans: &[SessionPlan],
    session: u32,
    y: u64,
) -> Result<(), AllocError>
    requires { length plans.now ≤ most_sessions }
    ensures { OnOk result (out.new.items ≡ out.old.items
        ++ from_home class.now plans.now session y) }
{
    let home = replica_x(plans, home_of(plans, session));
    push_line(out, class, &[home, y, session_x(plans, session), y])
}

// Appends a line of this class at the session's place.
fn push_at(
    out: &mut Vec<u8>,
    class: &[u8],
    plans: &[SessionPlan],
    session: u32,
    y: u64,
) -> Result<(), AllocError>
    requires { length plans.now ≤ most_sessions }
    ensures { OnOk result (out.new.items ≡ out.old.items
        ++ at_session class.now plans.now session y) }
{
    let x = session_x(plans, session);
    push_line(out, class, &[x, y, x, y])
}

// Appends a refusal: a line from the session to the one that bars it, or to its own replica where
// that can't hear of an entry.
fn push_refusal(
    out: &mut Vec<u8>,
    plans: &[SessionPlan],
    session: u32,
    cause: Cause,
    y: u64,
) -> Result<(), AllocError>
    requires { length plans.now ≤ most_sessions }
    ensures { OnOk result (out.new.items ≡ out.old.items
        ++ refusal plans.now session cause y) }
{
    match cause {
        Cause::Barred { session: who, .. } => {
            let x = session_x(plans, session);
            push_line(out, b"barred", &[session_x(plans, who), y, x, y])
        }
        Cause::Behind { .. } => push_from_home(out, b"behind", plans, session, y),
    }
}

// Appends a line of this class between two replicas.
fn push_between(
    out: &mut Vec<u8>,
    class: &[u8],
    plans: &[SessionPlan],
    a: u32,
    b: u32,
    y: u64,
) -> Result<(), AllocError>
    requires { length plans.now ≤ most_sessions }
    ensures { OnOk result (out.new.items ≡ out.old.items
        ++ between class.now plans.now a b y) }
{
    push_line(
        out,
        class,
        &[replica_x(plans, a), y, replica_x(plans, b), y],
    )
}

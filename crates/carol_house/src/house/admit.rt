ghost use Rattle.std.specs.Prelude.{◌≡◌, ◌↔◌, true, IsSome};
ghost use Rattle.carol_event.specs.declared.event.Event.TheVariants.{Grant, Query, Issue, Release, Return, Refuse, Deliver};
ghost use Rattle.carol_history.specs.Acts.{doing};
ghost use Rattle.carol_history.specs.Forced.{IsBy};

use crate::house::House;
use crate::house::enter::link_event;
use carol_event::{Cause, Event};
use carol_history::history_laws;
use carol_store::{AtomList, Store};

impl House {
    ghost use Rattle.carol_house.specs.House.{rules_of};
    ghost use Rattle.carol_house.specs.Moves.{link_event};
    ghost use Rattle.carol_house.specs.Nexts.{IsAllowed};

    /// The event, where it may come next.
    pub(crate) fn allowed(&mut self, event: &Event) -> Option<Event>
        ensures allowed { IsAllowed (rules_of self.old) self.old.scene event.now result
            self.old.history }
        ensures same { self.new ≡ self.old }
    {
        match event {
            Event::Deliver {
                source,
                target,
                entry,
            } => self.allowed_delivery(*source, *target, *entry),
            Event::Cut { a, b } => self.allowed_link(*a, *b, false),
            Event::Join { a, b } => self.allowed_link(*a, *b, true),
            Event::Grant { session, .. } => self.allowed_act(*session, event),
            Event::Query { session, .. } => self.allowed_act(*session, event),
            Event::Issue { session, .. } => self.allowed_act(*session, event),
            Event::Release { session } => self.allowed_act(*session, event),
            Event::Return { session, .. } => self.allowed_act(*session, event),
            Event::Refuse { session, .. } => self.allowed_act(*session, event),
        }
    }

    // The delivery, where it may come next.
    fn allowed_delivery(&self, source: u32, target: u32, entry: u32) -> Option<Event>
        ensures { IsAllowed (rules_of self.now) self.now.scene (Deliver source target entry) result
            self.now.history }
    {
        if source >= self.scene.replicas || target >= self.scene.replicas {
            return None;
        }
        if !self.can_fetch(source, target, entry) || self.tables.holding.has(target, entry) {
            return None;
        }
        Some(Event::Deliver {
            source,
            target,
            entry,
        })
    }

    // The cut or join, where it may come next.
    fn allowed_link(&self, a: u32, b: u32, up: bool) -> Option<Event>
        ensures { IsAllowed (rules_of self.now) self.now.scene (link_event a b up) result
            self.now.history }
    {
        if a >= self.scene.replicas || b >= self.scene.replicas || a == b {
            return None;
        }
        Some(link_event(a, b, up))
    }

    // The session's event, where it may come next.
    fn allowed_act(&mut self, session: u32, event: &Event) -> Option<Event>
        requires { IsBy session (doing event.now) }
        ensures allowed { IsAllowed (rules_of self.old) self.old.scene event.now result
            self.old.history }
        ensures same { self.new ≡ self.old }
    {
        history_laws();
        if session as usize >= self.scene.sessions.len() {
            return None;
        }
        let Some(forced) = self.next(session) else {
            return None;
        };
        let _valid = self.scene();
        if !is_same(&forced, event) {
            return None;
        }
        Some(forced)
    }
}

// Whether the session's event is the same as the other one.
fn is_same(other: &Event, event: &Event) -> bool
    requires { IsSome (doing event.now) }
    ensures { (result ≡ true) ↔ (other.now ≡ event.now) }
{
    match event {
        Event::Grant { session, guard } => is_grant(other, *session, *guard),
        Event::Query {
            session,
            guard,
            store,
        } => is_query(other, *session, *guard, store),
        Event::Issue {
            session,
            entry,
            effect,
        } => is_issue(other, *session, *entry, effect),
        Event::Release { session } => is_release(other, *session),
        Event::Return { session, value } => is_return(other, *session, *value),
        Event::Refuse { session, cause } => is_refusal(other, *session, *cause),
        Event::Deliver { .. } => false,
        Event::Cut { .. } => false,
        Event::Join { .. } => false,
    }
}

// Whether the event is this grant.
fn is_grant(event: &Event, session: u32, guard: u32) -> bool
    ensures { (result ≡ true) ↔ (event.now ≡ Grant session guard) }
{
    match event {
        Event::Grant {
            session: s,
            guard: g,
        } => *s == session && *g == guard,
        _ => false,
    }
}

// Whether the event is this query.
fn is_query(event: &Event, session: u32, guard: u32, store: &Store) -> bool
    ensures { (result ≡ true) ↔ (event.now ≡ Query session guard store.now) }
{
    match event {
        Event::Query {
            session: s,
            guard: g,
            store: x,
        } => *s == session && *g == guard && is_store(x, store),
        _ => false,
    }
}

// Whether the event is this issue.
fn is_issue(event: &Event, session: u32, entry: u32, effect: &AtomList) -> bool
    ensures { (result ≡ true) ↔ (event.now ≡ Issue session entry effect.now) }
{
    match event {
        Event::Issue {
            session: s,
            entry: i,
            effect: e,
        } => *s == session && *i == entry && is_effect(e, effect),
        _ => false,
    }
}

// Whether the event is this release.
fn is_release(event: &Event, session: u32) -> bool
    ensures { (result ≡ true) ↔ (event.now ≡ Release session) }
{
    match event {
        Event::Release { session: s } => *s == session,
        _ => false,
    }
}

// Whether the event is this return.
fn is_return(event: &Event, session: u32, value: i128) -> bool
    ensures { (result ≡ true) ↔ (event.now ≡ Return session value) }
{
    match event {
        Event::Return {
            session: s,
            value: v,
        } => *s == session && *v == value,
        _ => false,
    }
}

// Whether the event is this refusal.
fn is_refusal(event: &Event, session: u32, cause: Cause) -> bool
    ensures { (result ≡ true) ↔ (event.now ≡ Refuse session cause) }
{
    match event {
        Event::Refuse {
            session: s,
            cause: c,
        } => *s == session && *c == cause,
        _ => false,
    }
}

// Whether the stores are equal.
fn is_store(one: &Store, other: &Store) -> bool
    ensures { (result ≡ true) ↔ (one.now ≡ other.now) }
{
    one.values() == other.values()
}

// Whether the atoms are equal.
fn is_effect(one: &AtomList, other: &AtomList) -> bool
    ensures { (result ≡ true) ↔ (one.now ≡ other.now) }
{
    one.as_slice() == other.as_slice()
}

ghost use Rattle.std.specs.Prelude.{◌≡◌, ℕ, ◌<◌, ◌≤◌, length, if◌then◌else◌, Some, slice_get};
ghost use Rattle.carol_event.specs.declared.event.Event.TheVariants.{Grant, Query, Issue, Release, Return, Refuse, Deliver};
ghost use Rattle.carol_history.specs.Legal.{Legal};
ghost use Rattle.carol_house.specs.Moves.{link_event};

use crate::house::House;
use carol_event::{Cause, Event};
use carol_history::{MOST_EVENTS, history_laws};
use carol_machine::Fed;
use carol_simulation::simulation;
use carol_store::{AtomList, Effect, Store, store_laws};

/// Entering an event that may come next, for which there is room. It can't fail.
impl House {
    ghost use Rattle.carol_house.specs.House.{Enters, rules_of};

    /// Enters the event.
    pub(crate) fn enter(&mut self, event: Event)
        requires legal { Legal (rules_of self.old) self.old.scene event self.old.history }
        requires few { length self.old.history < MOST_EVENTS }
        requires room { 1 ≤ self.old.spare }
        ensures { Enters self.old event self.new }
    {
        match event {
            Event::Grant { session, guard } => self.grant(session, guard),
            Event::Query {
                session,
                guard,
                store,
            } => self.query(session, guard, store),
            Event::Issue {
                session,
                entry,
                effect,
            } => self.issue(session, entry, effect),
            Event::Release { session } => self.release(session),
            Event::Return { session, value } => self.finish(session, value),
            Event::Refuse { session, cause } => self.refuse(session, cause),
            Event::Deliver {
                source,
                target,
                entry,
            } => self.deliver(source, target, entry),
            Event::Cut { a, b } => self.set_link(a, b, false),
            Event::Join { a, b } => self.set_link(a, b, true),
        }
    }

    // The session is granted the guard.
    fn grant(&mut self, session: u32, guard: u32)
        requires legal { Legal (rules_of self.old) self.old.scene (Grant session guard)
            self.old.history }
        requires few { length self.old.history < MOST_EVENTS }
        requires room { 1 ≤ self.old.spare }
        ensures { Enters self.old (Grant session guard) self.new }
    {
        history_laws();
        self.tables.machines[session as usize].feed(&self.accepted, &Fed::Granted(guard));
        self.tables.grants.grant(session, guard);
        self.events.push_reserved(Event::Grant { session, guard });
        self.spare -= 1;
    }

    // The session gets the store under the guard.
    fn query(&mut self, session: u32, guard: u32, store: Store)
        requires legal { Legal (rules_of self.old) self.old.scene (Query session guard store)
            self.old.history }
        requires few { length self.old.history < MOST_EVENTS }
        requires room { 1 ≤ self.old.spare }
        ensures { Enters self.old (Query session guard store) self.new }
    {
        history_laws();
        simulation();
        self.tables.machines[session as usize].feed(&self.accepted, &Fed::Queried(store.copy()));
        self.events.push_reserved(Event::Query {
            session,
            guard,
            store,
        });
        self.spare -= 1;
    }

    // The session issues the effect, which becomes the entry.
    fn issue(&mut self, session: u32, entry: u32, effect: AtomList)
        requires legal { Legal (rules_of self.old) self.old.scene (Issue session entry effect)
            self.old.history }
        requires few { length self.old.history < MOST_EVENTS }
        requires room { 1 ≤ self.old.spare }
        ensures { Enters self.old (Issue session entry effect) self.new }
    {
        history_laws();
        simulation();
        store_laws();
        let replica = self.replica_of(session);
        let shape = &self.accepted.program().shape;
        let made = Effect::new(*self.events.allocator(), shape, effect.as_slice());
        self.tables.machines[session as usize].feed(&self.accepted, &Fed::Issued);
        self.tables.grants.close(session);
        self.tables.journal.push(&made).unwrap();
        self.tables.holding.add(replica, entry);
        self.tables.replicas.issue(shape, replica, &made);
        self.events.push_reserved(Event::Issue {
            session,
            entry,
            effect,
        });
        self.spare -= 1;
    }

    // The session gives its grants back.
    fn release(&mut self, session: u32)
        requires legal { Legal (rules_of self.old) self.old.scene (Release session)
            self.old.history }
        requires few { length self.old.history < MOST_EVENTS }
        requires room { 1 ≤ self.old.spare }
        ensures { Enters self.old (Release session) self.new }
    {
        history_laws();
        simulation();
        self.tables.machines[session as usize].feed(&self.accepted, &Fed::Released);
        self.tables.grants.close(session);
        self.events.push_reserved(Event::Release { session });
        self.spare -= 1;
    }

    // The session's command ends with the value.
    fn finish(&mut self, session: u32, value: i128)
        requires legal { Legal (rules_of self.old) self.old.scene (Return session value)
            self.old.history }
        requires few { length self.old.history < MOST_EVENTS }
        requires room { 1 ≤ self.old.spare }
        ensures { Enters self.old (Return session value) self.new }
    {
        history_laws();
        simulation();
        self.tables.machines[session as usize].feed(&self.accepted, &Fed::Returned(value));
        self.tables.grants.close(session);
        self.events.push_reserved(Event::Return { session, value });
        self.spare -= 1;
    }

    // The session's attempt ends without a value.
    fn refuse(&mut self, session: u32, cause: Cause)
        requires legal { Legal (rules_of self.old) self.old.scene (Refuse session cause)
            self.old.history }
        requires few { length self.old.history < MOST_EVENTS }
        requires room { 1 ≤ self.old.spare }
        ensures { Enters self.old (Refuse session cause) self.new }
    {
        history_laws();
        self.tables.machines[session as usize].feed(&self.accepted, &Fed::Refused(cause));
        self.tables.grants.close(session);
        self.events.push_reserved(Event::Refuse { session, cause });
        self.spare -= 1;
    }

    /// The replica passes the entry on to the other.
    pub(crate) fn deliver(&mut self, source: u32, target: u32, entry: u32)
        requires legal { Legal (rules_of self.old) self.old.scene (Deliver source target entry)
            self.old.history }
        requires few { length self.old.history < MOST_EVENTS }
        requires room { 1 ≤ self.old.spare }
        ensures { Enters self.old (Deliver source target entry) self.new }
    {
        history_laws();
        simulation();
        store_laws();
        self.tables.holding.add(target, entry);
        let shape = &self.accepted.program().shape;
        let effect = self.tables.journal.entry(shape, entry);
        self.tables.replicas.arrive(shape, target, &effect);
        self.events.push_reserved(Event::Deliver {
            source,
            target,
            entry,
        });
        self.spare -= 1;
    }

    /// The replicas are joined, or cut off from each other where `up` is false.
    pub(crate) fn set_link(&mut self, a: u32, b: u32, up: bool)
        requires legal { Legal (rules_of self.old) self.old.scene (link_event a b up)
            self.old.history }
        requires few { length self.old.history < MOST_EVENTS }
        requires room { 1 ≤ self.old.spare }
        ensures { Enters self.old (link_event a b up) self.new }
    {
        self.tables.links.set(a, b, up);
        self.events.push_reserved(link_event(a, b, up));
        self.spare -= 1;
    }
}

/// The event that joins the replicas, or cuts them off from each other where `up` is false.
pub fn link_event(a: u32, b: u32, up: bool) -> Event
    ensures { result ≡ link_event a b up }
{
    if up {
        Event::Join { a, b }
    } else {
        Event::Cut { a, b }
    }
}

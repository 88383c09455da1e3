ghost use Rattle.std.specs.Prelude.{◌≡◌, ℕ, ◌<◌, ◌≤◌, ◌&&◌, true, false, length};
ghost use Rattle.std.specs.List.{AllByRecursion};
ghost use Rattle.carol_store.specs.Effects.{IsEffect};
ghost use Rattle.carol_history.specs.Forced.{Forced};
ghost use Rattle.carol_history.specs.Journals.{is_held};
ghost use Rattle.carol_history.specs.Legal.{MayLink};
ghost use Rattle.carol_history.specs.Links.{is_linked};
ghost use Rattle.carol_machine.specs.declared.wish.Wish.TheVariants as wish;
ghost use Rattle.carol_house.specs.Nexts.{IsFirstUnsettled, is_settled};

use crate::house::House;
use crate::moved::Gossip;
use crate::tables::Tables;
use carol_event::{Cause, Event};
use carol_history::history_laws;
use carol_machine::Wish;
use carol_reading::Accepted;
use carol_simulation::simulation;
use carol_store::{AtomList, Effect};

/// What is to come next.
impl House {
    ghost use Rattle.carol_house.specs.House.{rules_of};
    ghost use Rattle.carol_house.specs.Moves.{Offers};
    ghost use Rattle.carol_house.specs.Nexts.{GoesOnWith, IsBarred, IsFirstOutside, IsForced, IsHolder};
    ghost use Rattle.carol_house.specs.Nexts.{IsHome, IsMissing, Wishes};

    /// The event that the session, which is in range, is to go on with: its own, or the delivery of
    /// the lowest entry that it waits for. `None` exactly where all its commands are done.
    pub fn next(&mut self, session: u32) -> Option<Event>
        requires { session < length self.old.scene.sessions }
        ensures forced { IsForced (rules_of self.old) self.old.scene session result
            self.old.history }
        ensures same { self.new ≡ self.old }
    {
        match self.wish(session) {
            Wish::Finished => None,
            Wish::Guard(guard) => Some(self.to_guard(session, guard)),
            Wish::Query(guard) => Some(self.to_query(session, guard)),
            Wish::Issue(effect) => Some(self.to_issue(session, &effect)),
            Wish::Release => Some(Event::Release { session }),
            Wish::Return(value) => Some(Event::Return { session, value }),
        }
    }

    // What the session goes on with.
    fn wish(&self, session: u32) -> Wish
        requires { session < length self.now.scene.sessions }
        ensures { Wishes (rules_of self.now) self.now.scene session result self.now.history }
    {
        simulation();
        self.tables.machines[session as usize].action(&self.accepted)
    }

    // The event of a session that wishes for a grant of the guard.
    fn to_guard(&mut self, session: u32, guard: u32) -> Event
        requires { GoesOnWith (rules_of self.old) self.old.scene session (wish.Guard guard)
            self.old.history }
        ensures forced { Forced (rules_of self.old) self.old.scene session result
            self.old.history }
        ensures same { self.new ≡ self.old }
    {
        let target = self.replica_of(session);
        let Some(entry) = self.first_outside(target, guard) else {
            return Event::Grant { session, guard };
        };
        match self.holder(target, entry) {
            Some(source) => Event::Deliver {
                source,
                target,
                entry,
            },
            None => Event::Refuse {
                session,
                cause: Cause::Behind { entry },
            },
        }
    }

    // The event of a session that wishes for a store.
    fn to_query(&self, session: u32, guard: u32) -> Event
        requires { GoesOnWith (rules_of self.now) self.now.scene session (wish.Query guard)
            self.now.history }
        ensures { Forced (rules_of self.now) self.now.scene session result self.now.history }
    {
        Event::Query {
            session,
            guard,
            store: self.local(self.replica_of(session)),
        }
    }

    // The event of a session that wishes to issue the effect.
    fn to_issue(&self, session: u32, effect: &Effect) -> Event
        requires { GoesOnWith (rules_of self.now) self.now.scene session (wish.Issue effect.now)
            self.now.history }
        ensures { Forced (rules_of self.now) self.now.scene session result self.now.history }
    {
        match self.barred_by(session, effect) {
            None => Event::Issue {
                session,
                entry: self.tables.journal.len(),
                effect: AtomList::from_slice(*self.events.allocator(), effect.atoms()),
            },
            Some((holder, guard)) => Event::Refuse {
                session,
                cause: Cause::Barred {
                    session: holder,
                    guard,
                },
            },
        }
    }

    // The lowest grant of another session that bars the effect, which the session may issue next.
    fn barred_by(&self, session: u32, effect: &Effect) -> Option<(u32, u32)>
        requires { GoesOnWith (rules_of self.now) self.now.scene session (wish.Issue effect.now)
            self.now.history }
        ensures { IsBarred (rules_of self.now) session effect.now result self.now.history }
    {
        history_laws();
        simulation();
        self.tables.grants.barred_by(session, effect)
    }

    /// The replica of the session, which is in range.
    pub(crate) fn replica_of(&self, session: u32) -> u32
        requires { session < length self.now.scene.sessions }
        ensures { IsHome self.now.scene session result }
    {
        self.scene.sessions.as_slice()[session as usize].replica
    }

    // The lowest entry that the replica lacks and the guard does not admit. Both are in range.
    fn first_outside(&mut self, replica: u32, guard: u32) -> Option<u32>
        requires replica { replica < self.old.scene.replicas }
        requires guard { guard < length (rules_of self.old).guards }
        ensures first { IsFirstOutside (rules_of self.old) self.old.scene replica guard result
            self.old.history }
        ensures same { self.new ≡ self.old }
    {
        simulation();
        history_laws();
        let below = self.tables.settled.below(replica, guard);
        let start = below.max(self.tables.holding.front(replica));
        let found = first_unsettled(&self.tables, &self.accepted, replica, guard, start);
        self.tables.settled.set(replica, guard, found);
        if found == self.tables.journal.len() {
            return None;
        }
        Some(found)
    }

    // The lowest replica that is linked to the target and holds the entry. The target is in range.
    fn holder(&self, target: u32, entry: u32) -> Option<u32>
        requires { target < self.now.scene.replicas }
        ensures { IsHolder self.now.scene target entry result self.now.history }
    {
        for source in 0..self.scene.replicas {
            if self.can_fetch(source, target, entry) {
                return Some(source);
            }
        }
        None
    }

    /// Whether the two replicas, which are in range, are linked, and the first holds the entry.
    pub(crate) fn can_fetch(&self, source: u32, target: u32, entry: u32) -> bool
        requires from { source < self.now.scene.replicas }
        requires to { target < self.now.scene.replicas }
        ensures { result ≡ (is_linked source target self.now.history
            && is_held self.now.scene.sessions source entry self.now.history) }
    {
        self.linked(source, target) && self.tables.holding.has(source, entry)
    }

    /// What `gossip` comes to between the two, which are different replicas of the scene, where
    /// there is room: the delivery of the lowest entry that the replica `from` holds and `to`
    /// lacks, or why there is none.
    pub fn offer(&self, from: u32, to: u32) -> Gossip
        requires { MayLink self.now.scene from to }
        ensures { Offers self.now from to result }
    {
        if !self.linked(from, to) {
            return Gossip::CutOff;
        }
        match self.missing(from, to) {
            Some(entry) => Gossip::Delivered(entry),
            None => Gossip::NothingNew,
        }
    }

    // Whether the two replicas, which are in range, are linked.
    fn linked(&self, one: u32, other: u32) -> bool
        requires one { one < self.now.scene.replicas }
        requires other { other < self.now.scene.replicas }
        ensures { result ≡ is_linked one other self.now.history }
    {
        one != other && self.tables.links.joined(one, other)
    }

    // The lowest entry that the one replica holds and the other lacks. Both are in range.
    fn missing(&self, from: u32, to: u32) -> Option<u32>
        requires from { from < self.now.scene.replicas }
        requires to { to < self.now.scene.replicas }
        ensures { IsMissing self.now.scene from to result self.now.history }
    {
        history_laws();
        self.tables.holding.first_missing(from, to)
    }
}

// The lowest entry from this one on that the replica does not hold and the guard does not admit;
// the number of entries where there is none.
fn first_unsettled(
    tables: &Tables,
    accepted: &Accepted,
    replica: u32,
    guard: u32,
    start: u32,
) -> u32
    requires start { start ≤ length tables.now.journal.entries }
    requires replica { replica < length tables.now.holding.replicas }
    requires guard { guard < accepted.now.accords.guards }
    requires entries { AllByRecursion (IsEffect accepted.now.accords.kinds)
        tables.now.journal.entries }
    ensures { IsFirstUnsettled tables.now accepted.now.accords replica guard start result }
{
    let len = tables.journal.len();
    let mut at = start;
    while at < len {
        if !is_settled(tables, accepted, replica, guard, at) {
            return at;
        }
        at += 1;
    }
    at
}

// Whether the replica holds the entry or the guard admits it. All are in range.
fn is_settled(tables: &Tables, accepted: &Accepted, replica: u32, guard: u32, entry: u32) -> bool
    requires entry { entry < length tables.now.journal.entries }
    requires replica { replica < length tables.now.holding.replicas }
    requires guard { guard < accepted.now.accords.guards }
    requires entries { AllByRecursion (IsEffect accepted.now.accords.kinds)
        tables.now.journal.entries }
    ensures { result ≡ is_settled tables.now accepted.now.accords replica guard entry }
{
    if tables.holding.has(replica, entry) {
        return true;
    }
    let shape = &accepted.program().shape;
    let effect = tables.journal.entry(shape, entry);
    accepted.accords().admits(shape, guard, &effect)
}

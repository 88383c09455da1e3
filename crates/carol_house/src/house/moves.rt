ghost use Rattle.std.specs.Prelude.{◌≡◌, ◌<◌, ◌≤◌, true, length, IfOk, IfErr, OnOk};
ghost use Rattle.carol_history.specs.Legal.{MayLink};
ghost use Rattle.carol_house.specs.Moves.{kind_of};

use crate::error::HouseError;
use crate::house::House;
use crate::house::enter::link_event;
use crate::moved::{Admitted, Gossip, Moved};
use carol_event::Event;
use carol_history::{MOST_EVENTS, history_laws};
use std::alloc::AllocError;

impl House {
    ghost use Rattle.carol_house.specs.House.{Rests};
    ghost use Rattle.carol_house.specs.Moves.{Admits, Advances, FailsToAdmit, FailsToAdvance};
    ghost use Rattle.carol_house.specs.Moves.{FailsToGossip, FailsToLink, Gossips, Links};

    /// The session, which is in range, makes the one step that it can make: its own, or the
    /// delivery of the lowest entry that it waits for. `Finished` is answered exactly where all its
    /// commands are done; else `Full` exactly where the history has 131,072 events. `NoMemory`
    /// comes only where there is no room, and leaves the history as it is.
    pub fn advance(&mut self, session: u32) -> Result<Moved, HouseError>
        requires { session < length self.old.scene.sessions }
        ensures ok { IfOk result (λ moved. Advances self.old session moved self.new) }
        ensures err { IfErr result (λ error. FailsToAdvance self.old session error self.new) }
    {
        history_laws();
        let Some(event) = self.next(session) else {
            return Ok(Moved::Finished);
        };
        let _valid = self.scene();
        self.make_way()?;
        let kind = kind_of(&event);
        self.enter(event);
        Ok(Moved::Entered(kind))
    }

    /// Delivers the lowest entry that the replica `from` holds and `to` lacks. `CutOff` is answered
    /// exactly where the two are not linked; else `NothingNew` exactly where `to` holds all that
    /// `from` holds; else `Full` exactly where the history has 131,072 events. They are two
    /// different replicas of the scene. `NoMemory` comes only where there is no room, and leaves
    /// the history as it is.
    pub fn gossip(&mut self, from: u32, to: u32) -> Result<Gossip, HouseError>
        requires { MayLink self.old.scene from to }
        ensures ok { IfOk result (λ gossip. Gossips self.old from to gossip self.new) }
        ensures err { IfErr result (λ error. FailsToGossip self.old from to error self.new) }
    {
        match self.offer(from, to) {
            Gossip::Delivered(entry) => {
                self.make_way()?;
                self.deliver(from, to, entry);
                Ok(Gossip::Delivered(entry))
            }
            Gossip::NothingNew => Ok(Gossip::NothingNew),
            Gossip::CutOff => Ok(Gossip::CutOff),
        }
    }

    /// Joins two different replicas of the scene, or cuts them off from each other where `up` is
    /// false. `Full` is answered exactly where the history has 131,072 events. `NoMemory` comes
    /// only where there is no room, and leaves the history as it is.
    pub fn link(&mut self, a: u32, b: u32, up: bool) -> Result<(), HouseError>
        requires { MayLink self.old.scene a b }
        ensures ok { OnOk result (Links self.old a b up self.new) }
        ensures err { IfErr result (λ error. FailsToLink self.old error self.new) }
    {
        self.make_way()?;
        self.set_link(a, b, up);
        Ok(())
    }

    /// Enters the event. `Illegal` is answered exactly where it may not come next; else `Full`
    /// exactly where the history has 131,072 events. `NoMemory` comes only where there is no room,
    /// and leaves the history as it is.
    pub fn admit(&mut self, event: &Event) -> Result<Admitted, HouseError>
        ensures ok { IfOk result (λ done. Admits self.old event.now done self.new) }
        ensures err { IfErr result (λ error. FailsToAdmit self.old event.now error self.new) }
    {
        let Some(allowed) = self.allowed(event) else {
            return Ok(Admitted::Illegal);
        };
        self.make_way()?;
        self.enter(allowed);
        Ok(Admitted::Entered)
    }

    /// Takes room for that many more events, at most 131,072.
    pub fn reserve(&mut self, steps: u32) -> Result<(), AllocError>
        requires { steps ≤ MOST_EVENTS }
        ensures room { OnOk result (steps ≤ self.new.spare) }
        ensures rests { Rests self.old self.new }
    {
        self.events.reserve(steps as usize)?;
        self.tables.holding.reserve(steps)?;
        self.tables.journal.reserve(steps)?;
        self.spare = self.spare.max(steps);
        Ok(())
    }

    // Makes sure that one more event can be entered.
    fn make_way(&mut self) -> Result<(), HouseError>
        ensures few { OnOk result (length self.old.history < MOST_EVENTS) }
        ensures room { OnOk result (1 ≤ self.new.spare) }
        ensures rests { Rests self.old self.new }
        ensures err { IfErr result (λ error. FailsToLink self.old error self.new) }
    {
        if self.events.len() >= MOST_EVENTS {
            return Err(HouseError::Full);
        }
        if self.spare == 0 {
            self.reserve(1)?;
        }
        Ok(())
    }
}

/// The number that stands for the event's kind, as `Moved::Entered` tells it.
pub fn kind_of(event: &Event) -> u8
    ensures { result ≡ kind_of event.now }
{
    match event {
        Event::Grant { .. } => 0,
        Event::Query { .. } => 1,
        Event::Issue { .. } => 2,
        Event::Release { .. } => 3,
        Event::Return { .. } => 4,
        Event::Refuse { .. } => 5,
        Event::Deliver { .. } => 6,
        Event::Cut { .. } => 7,
        Event::Join { .. } => 8,
    }
}

ghost use Rattle.std.specs.Prelude.{◌≡◌, ℕ, length};
ghost use Rattle.carol_worker.specs.Answers.{IsLastOf, noted, nothing_answered};
ghost use Rattle.carol_worker.specs.Desks.{GossipsIn, OnlyActs, StepsIn};
ghost use Rattle.carol_worker.specs.Tally.{Gossiped, NoneFell, Stepped, Tally, tally_of};

use crate::held::AtHouse;
use crate::tally::Answered;
use carol_house::{Gossip, House, HouseError, Moved};
use std::sync::{Mutex, Wait};

/// Where sessions take their steps and replicas pass entries on.
pub trait Desk {
    // How many events were entered, how many steps found their session's commands done, how many
    // found the history full, and the last step with one of these answers.
    ghost tally: { Self → Tally };

    // No session but this one took steps from the one desk to the other.
    ghost only: { Self → ℕ → Self → Type 0 };

    /// The session makes the one step that it can make. `Finished` is answered also where there is
    /// no such session.
    fn step(&mut self, session: u32) -> Result<Moved, HouseError>
        ensures counted { NoneFell (tally self.old) (tally self.new) }
        ensures stepped { Stepped (tally self.old) session result (tally self.new) }
        ensures only { only self.old session self.new };

    /// Delivers the lowest entry that the replica `from` holds and `to` lacks. `CutOff` is answered
    /// also where there are no two such replicas.
    fn gossip(&mut self, from: u32, to: u32) -> Result<Gossip, HouseError>
        ensures counted { NoneFell (tally self.old) (tally self.new) }
        ensures gossiped { Gossiped (tally self.old) result (tally self.new) };

    ghost stays: { (desk : Self) (session : ℕ) → only desk session desk };

    ghost goes_on: { (old mid new : Self) (session : ℕ) →
        only old session mid → only mid session new → only old session new };
}

/// A desk that owns a house and waits for nobody. The count of entered events is the length of the
/// house's history.
#[derive(Drop)]
pub struct OwnDesk {
    house: House,
    answered: Answered,
}

impl OwnDesk {
    /// A desk over the house, at which no step was made yet.
    pub fn new(house: House) -> OwnDesk
        ensures { result ≡ record { house = house; answered = nothing_answered } }
    {
        OwnDesk {
            house,
            answered: Answered::new(),
        }
    }

    /// The house.
    pub fn into_house(self) -> House
        ensures { result ≡ self.house }
    {
        self.house
    }
}

impl Desk for OwnDesk {
    ghost use Rattle.carol_worker.specs.Desks.{only_acts_more, only_acts_none};

    ghost tally = { λ d. tally_of (length d.house.history) d.answered };

    ghost only = { λ old session new. OnlyActs session old.house new.house };

    ghost stays = { λ desk session. only_acts_none session desk.house };

    ghost goes_on = { λ old mid new session.
        only_acts_more session old.house mid.house new.house };

    fn step(&mut self, session: u32) -> Result<Moved, HouseError>
        ensures counted { NoneFell
            (tally_of (length self.old.house.history) self.old.answered)
            (tally_of (length self.new.house.history) self.new.answered) }
        ensures stepped { Stepped
            (tally_of (length self.old.house.history) self.old.answered) session result
            (tally_of (length self.new.house.history) self.new.answered) }
        ensures only { OnlyActs session self.old.house self.new.house }
        ensures house { StepsIn self.old.house session result self.new.house }
        ensures answered { self.new.answered ≡ noted session result self.old.answered }
    {
        let given = self.house.step_session(session);
        self.answered.note(session, given);
        given
    }

    fn gossip(&mut self, from: u32, to: u32) -> Result<Gossip, HouseError>
        ensures counted { NoneFell
            (tally_of (length self.old.house.history) self.old.answered)
            (tally_of (length self.new.house.history) self.new.answered) }
        ensures gossiped { Gossiped
            (tally_of (length self.old.house.history) self.old.answered) result
            (tally_of (length self.new.house.history) self.new.answered) }
        ensures house { GossipsIn self.old.house from to result self.new.house }
        ensures answered { self.new.answered ≡ self.old.answered }
    {
        self.house.pass_on(from, to)
    }
}

/// A desk at a house that is shared under a lock, which is held only while a step is made. Its
/// counts stay at the last value of a `u64`.
#[derive(Drop)]
pub struct LockedDesk<'a, R: Wait, H: AtHouse = House> {
    rt: &'a R,
    house: &'a Mutex<H>,
    entered: u64,
    answered: Answered,
}

impl<'a, R: Wait, H: AtHouse> LockedDesk<'a, R, H> {
    /// A desk at the house, at which no step was made yet.
    pub fn new(rt: &'a R, house: &'a Mutex<H>) -> LockedDesk<'a, R, H>
        ensures entered { result.entered ≡ 0 }
        ensures answered { result.answered ≡ nothing_answered }
    {
        LockedDesk {
            rt,
            house,
            entered: 0,
            answered: Answered::new(),
        }
    }
}

impl<'a, R: Wait, H: AtHouse> Desk for LockedDesk<'a, R, H> {
    ghost use Rattle.carol_worker.specs.Answers.{last_more, last_stays};

    ghost tally = { λ d. tally_of d.entered d.answered };

    ghost only = { λ old session new. IsLastOf old.answered.last session new.answered.last };

    ghost stays = { λ desk session. last_stays desk.answered.last session };

    ghost goes_on = { λ old mid new session.
        last_more old.answered.last mid.answered.last new.answered.last session };

    fn step(&mut self, session: u32) -> Result<Moved, HouseError> {
        let given = self.house.lock(self.rt).step_session(session);
        if let Ok(Moved::Entered(_)) = given {
            self.entered = self.entered.saturating_add(1);
        }
        self.answered.note(session, given);
        given
    }

    fn gossip(&mut self, from: u32, to: u32) -> Result<Gossip, HouseError> {
        let given = self.house.lock(self.rt).pass_on(from, to);
        if let Ok(Gossip::Delivered(_)) = given {
            self.entered = self.entered.saturating_add(1);
        }
        given
    }
}

//! What lies under the lock of a run: a house whose type keeps that it goes on from the first one.
ghost use Rattle.std.specs.Prelude.{◌≡◌};
ghost use Rattle.carol_worker.specs.Desks.{GossipsIn, StepsIn};
ghost use Rattle.carol_worker.specs.Running.{Continues};

use carol_house::{Gossip, House, HouseError, Moved};
use std::marker::{Brand, Model, PhantomData};

/// A house, or what holds one: a desk makes its steps there.
pub trait AtHouse {
    ghost use Rattle.carol_house.specs.House.{House};

    ghost house: { Self → House };

    /// A step of the session. `Finished` is answered also where the house has no such session.
    fn step_session(&mut self, session: u32) -> Result<Moved, HouseError>
        ensures { StepsIn (house self.old) session result (house self.new) };

    /// A delivery from the one replica to the other. `CutOff` is answered also where the house has
    /// no two such replicas.
    fn pass_on(&mut self, from: u32, to: u32) -> Result<Gossip, HouseError>
        ensures { GossipsIn (house self.old) from to result (house self.new) };
}

impl AtHouse for House {
    ghost house = { λ h. h };

    fn step_session(&mut self, session: u32) -> Result<Moved, HouseError> {
        if (session as usize) < self.scene().sessions.len() {
            self.advance(session)
        } else {
            Ok(Moved::Finished)
        }
    }

    fn pass_on(&mut self, from: u32, to: u32) -> Result<Gossip, HouseError> {
        let replicas = self.scene().replicas;
        if from < replicas && to < replicas && from != to {
            self.gossip(from, to)
        } else {
            Ok(Gossip::CutOff)
        }
    }
}

/// The house with which a run starts. Each run picks its own.
pub trait Start {
    ghost use Rattle.carol_house.specs.House.{House};

    ghost house: { House };
}

impl Start for Brand {
    ghost use Rattle.carol_worker.specs.Starts.{no_house};

    ghost house = { no_house };
}

/// A house that goes on from the one of the start, with no cut and no join. Contracts see it as the
/// house.
#[derive(Drop)]
pub struct Held<J: Start> {
    house: House,
    of: PhantomData<J>,
}

impl<J: Start> Model for Held<J> {
    ghost use Rattle.std.specs.Coded.{codes};
    ghost use Rattle.carol_formula.specs.contracts.formula.Formula as formula;
    ghost use Rattle.carol_program.specs.contracts.steps.Step as step;
    ghost use Rattle.carol_house.specs.House.{House};
    ghost use Rattle.carol_worker.specs.Running.{Continues};

    ghost Value = { House };

    ghost coded = { Prim.hlevel (codes, formula.the_row.coded, step.the_row.coded) };

    ghost view = { λ h. h.house };

    ghost invariant = { λ h. Continues J.house h.house };
}

impl<J: Start> Held<J> {
    /// The house of the start.
    pub fn new(house: House) -> Held<J>
        requires { house ≡ J.house }
        ensures { result ≡ house }
    {
        Held {
            house,
            of: PhantomData,
        }
    }

    /// The house.
    pub fn into_house(self) -> House
        ensures same { result ≡ self }
        ensures continues { Continues J.house result }
    {
        self.house
    }
}

impl<J: Start> AtHouse for Held<J> {
    ghost house = { λ h. h };

    fn step_session(&mut self, session: u32) -> Result<Moved, HouseError> {
        self.house.step_session(session)
    }

    fn pass_on(&mut self, from: u32, to: u32) -> Result<Gossip, HouseError> {
        self.house.pass_on(from, to)
    }
}

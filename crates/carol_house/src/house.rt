ghost use Rattle.std.specs.Prelude.{◌≡◌, ◌↔◌, ◌<◌, true, length, reverse, [], IfOk};
ghost use Rattle.carol_program.specs.Rules.{rules_in};
ghost use Rattle.carol_program.specs.Scenes.{IsValidScene};
ghost use Rattle.carol_history.specs.Journals.{global, local};
ghost use Rattle.carol_history.specs.Results.{AreDone, result as result_of};
ghost use Rattle.carol_house.specs.Kept.{are_done};

use crate::tables::Tables;
use carol_event::Event;
use carol_history::history_laws;
use carol_machine::Machine;
use carol_program::{Program, Scene};
use carol_reading::{Accepted, Outcome};
use carol_simulation::simulation;
use carol_store::Store;
use std::alloc::{AllocError, Global};
use std::marker::Model;

mod admit;
mod enter;
mod moves;
mod next;

pub use enter::link_event;
pub use moves::kind_of;

/// An accepted program in a scene, with its history so far. Contracts see it as the program with
/// its accords, the scene, the history, the latest event first, and for how many more events there
/// is room.
#[derive(Drop)]
pub struct House {
    accepted: Accepted,
    scene: Scene,
    events: Vec<Event>,
    tables: Tables,
    spare: u32,
}

impl Model for House {
    ghost use Rattle.std.specs.Coded.{codes};
    ghost use Rattle.carol_formula.specs.contracts.formula.Formula as formula;
    ghost use Rattle.carol_program.specs.contracts.steps.Step as step;
    ghost use Rattle.carol_house.specs.House.{House, house_of};

    ghost Value = { House };

    ghost coded = { Prim.hlevel (codes, formula.the_row.coded, step.the_row.coded) };

    ghost view = { λ h. house_of h.accepted h.scene h.events.items h.spare };

    ghost use Rattle.std.specs.Prelude.{vec_capacity};
    ghost use Rattle.carol_house.specs.Kept.{IsKept};

    ghost invariant = { λ h. IsKept (house_of h.accepted h.scene h.events.items h.spare) h.tables
        (vec_capacity h.events) };
}

impl House {
    ghost use Rattle.carol_house.specs.House.{HasPlanned, IsHistory, UpholdsAll, rules_of};
    ghost use Rattle.carol_house.specs.Moves.{HasCommand};

    /// A house over the program and the scene, which is valid for it, with an empty history.
    pub fn new(alloc: Global, accepted: Accepted, scene: Scene) -> Result<House, AllocError>
        requires { IsValidScene (rules_in accepted.program) scene }
        ensures kept { IfOk result (λ house. house.kept ≡ accepted) }
        ensures scene { IfOk result (λ house. house.scene ≡ scene) }
        ensures empty { IfOk result (λ house. house.history ≡ []) }
    {
        let tables = Tables::new(alloc, &accepted, &scene)?;
        Ok(House {
            accepted,
            scene,
            events: Vec::new(alloc),
            tables,
            spare: 0,
        })
    }

    /// The events so far, in order, at most 131,072: a history that the program can make in the
    /// scene. Up to each of its events, each live query stands in its guard's relation to the
    /// global store, the invariant is true of it, the history is that of one store read in order,
    /// replicas that hold the same entries are equal, and no session meets a fault.
    pub fn history(&self) -> &[Event]
        ensures events { result.now ≡ reverse self.now.history }
        ensures history { IsHistory self.now }
        ensures upheld { UpholdsAll self.now }
    {
        simulation();
        self.events.as_slice()
    }

    /// Whether all commands are done.
    pub fn all_done(&self) -> bool
        ensures { (result ≡ true) ↔ AreDone self.now.scene self.now.history }
    {
        history_laws();
        are_done(self.tables.machines.as_slice())
    }

    /// Whether all commands of the session are done, which is in range.
    pub fn finished(&self, session: u32) -> bool
        requires { session < length self.now.scene.sessions }
        ensures { (result ≡ true) ↔ (HasCommand self.now session → ⊥) }
    {
        self.tables.machines[session as usize].present().is_none()
    }

    /// How the session's command with this number came out. Both are in range.
    pub fn outcome(&self, session: u32, command: u32) -> Outcome
        requires { HasPlanned self.now.scene session command }
        ensures { result ≡ result_of self.now.scene session command self.now.history }
    {
        self.tables.machines[session as usize].outcome(command)
    }

    /// The store of the replica, which is in range.
    pub fn local(&self, replica: u32) -> Store
        requires { replica < self.now.scene.replicas }
        ensures { result ≡ local (rules_of self.now) self.now.scene replica self.now.history }
    {
        self.tables.replicas.local(replica).copy()
    }

    /// The store with all entries applied.
    pub fn global(&self) -> Store
        ensures { result ≡ global (rules_of self.now) self.now.history }
    {
        self.tables.replicas.global().copy()
    }

    /// The program that the house was made with.
    pub fn program(&self) -> &Program
        ensures { result.now ≡ self.now.kept.program }
    {
        self.accepted.program()
    }

    /// The program with its accords.
    pub fn accepted(&self) -> &Accepted
        ensures { result.now ≡ self.now.kept }
    {
        &self.accepted
    }

    /// The scene that the house was made with, which is valid for the program.
    pub fn scene(&self) -> &Scene
        ensures scene { result.now ≡ self.now.scene }
        ensures valid { IsValidScene (rules_of self.now) self.now.scene }
    {
        &self.scene
    }
}

// Whether no session has a command under way.
fn are_done(machines: &[Machine]) -> bool
    ensures { result ≡ are_done machines.now }
{
    let mut left = machines;
    while let Some((machine, more)) = left.split_first() {
        if machine.present().is_some() {
            return false;
        }
        left = more;
    }
    true
}

ghost use Rattle.std.specs.Prelude.{◌≡◌, ◌<◌, ◌≤◌, [], length, map, IfOk};
ghost use Rattle.std.specs.List.{AllByRecursion};
ghost use Rattle.carol_program.specs.Limits.{most_commands, most_tries};
ghost use Rattle.carol_program.specs.Rules.{rules_in};
ghost use Rattle.carol_program.specs.Scenes.{IsPlanOf, IsValidScene, commands_in};
ghost use Rattle.carol_machine.specs.States.{state_of};
ghost use Rattle.carol_house.specs.Kept.{AreTables};

use crate::links::Links;
use crate::settled::Settled;
use carol_grant::Grants;
use carol_holding::Holding;
use carol_machine::Machine;
use carol_program::{Scene, SessionPlan};
use carol_reading::Accepted;
use carol_replica::{Journal, Replicas};
use std::alloc::{AllocError, Global};

/// What a house keeps at hand of its history.
#[derive(Drop)]
pub struct Tables {
    /// For each session how far it is.
    pub machines: Vec<Machine>,
    /// The live grants.
    pub grants: Grants,
    /// Which replica holds which entries.
    pub holding: Holding,
    /// The entries.
    pub journal: Journal,
    /// The stores of the replicas, and the global one.
    pub replicas: Replicas,
    /// Which replicas are joined.
    pub links: Links,
    /// For each replica and guard up to where all entries are held or admitted.
    pub settled: Settled,
}

impl Tables {
    /// The tables of a history without events. The scene is valid for the program.
    pub fn new(alloc: Global, accepted: &Accepted, scene: &Scene) -> Result<Tables, AllocError>
        requires { IsValidScene (rules_in accepted.now.program) scene.now }
        ensures { IfOk result (AreTables (rules_in accepted.now.program) accepted.now.accords
            scene.now []) }
    {
        let program = accepted.program();
        let sessions = scene.sessions.len() as u32;
        let guards = program.guards.len() as u32;
        Ok(Tables {
            machines: machines_of(alloc, accepted, scene.sessions.as_slice(), scene.tries)?,
            grants: Grants::new(alloc, &program.shape, accepted.accords(), sessions, guards)?,
            holding: Holding::new(alloc, scene.replicas)?,
            journal: Journal::new(alloc),
            replicas: Replicas::new(alloc, &program.shape, &program.initial, scene.replicas)?,
            links: Links::new(),
            settled: Settled::new(),
        })
    }
}

// A machine for each session. The plans and the tries are those of a valid scene.
fn machines_of(
    alloc: Global,
    accepted: &Accepted,
    plans: &[SessionPlan],
    tries: u32,
) -> Result<Vec<Machine>, AllocError>
    requires plans { AllByRecursion (IsPlanOf (rules_in accepted.now.program) 8) plans.now }
    requires few { commands_in plans.now ≤ most_commands }
    requires some_try { 1 ≤ tries }
    requires few_tries { tries ≤ most_tries }
    ensures { IfOk result (λ machines.
        machines.items ≡ map (λ plan. state_of plan tries) plans.now) }
{
    let mut machines = Vec::new(alloc);
    let mut left = plans;
    while let Some((plan, more)) = left.split_first() {
        machines.push(Machine::new(alloc, accepted, plan, tries)?)?;
        left = more;
    }
    Ok(machines)
}

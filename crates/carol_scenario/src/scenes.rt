ghost use Rattle.std.specs.Prelude.{◌≡◌, [], IfOk, IfErr};
ghost use Rattle.carol_program.specs.Rules.{rules_in};
ghost use Rattle.carol_program.specs.Scenes.{IsValidScene};
ghost use Rattle.carol_program.specs.WellFormed.{IsWellFormed};
ghost use Rattle.carol_scenario.specs.Meaning.{scene_meaning};
ghost use Rattle.carol_scenario.specs.Faults.{Refuses, scene_faults};

use crate::error::{SceneError, SceneLimit};
use crate::limits::{MOST_GOSSIPERS, MOST_TRIES, MOST_WORKERS, number_within};
use crate::sessions::plans_of;
use carol_program::{MOST_REPLICAS, Program, Scene};
use carol_syntax::SceneDecl;
use std::alloc::Global;

/// The scene that a declaration stands for, over a program that is well formed.
pub fn scene(alloc: Global, file: &SceneDecl, program: &Program) -> Result<Scene, SceneError>
    requires { IsWellFormed (rules_in program.now) program.now.names }
    // Nothing is wrong with it, and it is what the declaration says.
    ensures ok { IfOk result
        (λ s. (scene_faults (rules_in program.now) program.now.names file.now ≡ [])
        × (s ≡ scene_meaning program.now.names file.now)) }
    ensures valid { IfOk result (IsValidScene (rules_in program.now)) }
    // What is wrong with it first, unless memory ran out.
    ensures wrong { IfErr result
        (Refuses (scene_faults (rules_in program.now) program.now.names file.now)) }
{
    let replicas = number_within(SceneLimit::Replicas, 1, MOST_REPLICAS as u64, file.replicas)?;
    let tries = number_within(SceneLimit::Tries, 1, MOST_TRIES, file.tries)?;
    let workers = number_within(SceneLimit::Workers, 1, MOST_WORKERS, file.workers)?;
    let gossipers = number_within(SceneLimit::Gossipers, 0, MOST_GOSSIPERS, file.gossipers)?;
    let sessions = plans_of(alloc, program, replicas, file.sessions.as_slice())?;
    Ok(Scene {
        replicas,
        tries,
        workers,
        gossipers,
        sessions,
    })
}

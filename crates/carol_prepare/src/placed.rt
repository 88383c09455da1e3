ghost use Rattle.std.specs.Prelude.{IfErr, IfOk};
ghost use Rattle.carol_prepare.specs.Bytes.{IsSound};
ghost use Rattle.carol_prepare.specs.Parts.{IsFit, IsPlaced};
ghost use Rattle.carol_prepare.specs.Scenes.{IsSceneOf, IsToldScene, PlacedSay};
ghost use Rattle.carol_program.specs.Rules.{rules_in};
ghost use Rattle.carol_program.specs.Scenes.{IsValidScene};
ghost use Rattle.carol_program.specs.WellFormed.{IsWellFormed};
ghost use Rattle.carol_reply.specs.Reply.{HaltSays};
ghost use Rattle.carol_syntax.specs.Files.{file_tree, program_tree};

use super::named::program_of;
use carol_program::{Program, Scene};
use carol_reply::{Halt, Line, tell_line};
use carol_scenario::{SceneError, scene};
use carol_syntax::{File, SceneDecl};
use std::alloc::Global;

/// A program with a scene that is valid for it.
#[derive(Drop)]
pub struct Placed {
    /// The program, which is well formed.
    pub program: Program,
    /// The scene.
    pub scene: Scene,
}

/// The file's program in the scene that is written so.
pub(crate) fn place(alloc: Global, file: &File, written: &SceneDecl) -> Result<Placed, Halt>
    requires { IsSound (file_tree file.now) }
    ensures placed { IfOk result (λ placed. IsPlaced (program_tree file.now.program) written.now
        placed.program placed.scene) }
    ensures fit { IfOk result (λ placed. IsFit placed.program placed.scene) }
    ensures told { IfErr result (HaltSays (PlacedSay (λ _ _ _. ⊥)
        (program_tree file.now.program) written.now)) }
{
    let program = program_of(alloc, file)?;
    let scene = scene_of(alloc, &program, written)?;
    Ok(Placed { program, scene })
}

// The scene of the program that is written so.
fn scene_of(alloc: Global, program: &Program, written: &SceneDecl) -> Result<Scene, Halt>
    requires { IsWellFormed (rules_in program.now) program.now.names }
    ensures scene { IfOk result (IsSceneOf program.now written.now) }
    ensures valid { IfOk result (IsValidScene (rules_in program.now)) }
    ensures told { IfErr result (HaltSays (IsToldScene program.now written.now)) }
{
    match scene(alloc, written, program) {
        Ok(scene) => Ok(scene),
        Err(SceneError::NoMemory) => Err(Halt::NoMemory),
        Err(bad) => Err(tell_line(alloc, Line::BadScene(bad))),
    }
}

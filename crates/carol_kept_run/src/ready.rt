ghost use Rattle.std.specs.Prelude.{◌≡◌, ◌≤◌, length, codes, IfOk, IfErr};
ghost use Rattle.carol_accept.specs.Refusals.{IsKeptAs};
ghost use Rattle.carol_grammar.specs.Outcome.{Means, Read};
ghost use Rattle.carol_kept_run.specs.Asked.{HasScript, IsAsked, Refused, with_any_script};
ghost use Rattle.carol_prepare.specs.Parts.{HasParts, IsFit, Nothing, PartsSay};
ghost use Rattle.carol_prepare.specs.Verdicts.{IsToldRefused};
ghost use Rattle.carol_program.specs.Rules.{rules_in};
ghost use Rattle.carol_program.specs.Scenes.{IsValidScene};
ghost use Rattle.carol_reply.specs.Reply.{HaltSays};
ghost use Rattle.carol_syntax.specs.Files.{FileTree, file_tree};
ghost use Rattle.carol_syntax.specs.Limits.{most_text_bytes};

use carol_history::StatementList;
use carol_parse::{TextError, parse};
use carol_prepare::{Placed, Scripted, accepted, take_scene, take_script};
use carol_program::Scene;
use carol_reading::Accepted;
use carol_reply::Halt;
use carol_syntax::File;
use std::alloc::{AllocError, Global};
use std::thread::Threads;

// Who asks for the parts of a file.
const ASKER: &str = "carol_kept";

/// An accepted program in a scene, which is valid for it, with the statements of a script.
#[derive(Drop)]
pub struct Ready {
    /// The program with its table of accords.
    pub accepted: Accepted,
    /// The scene.
    pub scene: Scene,
    /// The statements, in order; none where there is no script.
    pub script: StatementList,
}

/// What the bytes of an input ask for: a program, a scene, and a script if there is one. What isn't
/// right is told in the order of `step`.
pub fn prepare<R: Threads + Sync>(rt: &R, alloc: Global, bytes: &[u8]) -> Result<Ready, Halt>
    requires { length bytes.now ≤ most_text_bytes }
    ensures asked { IfOk result (IsAsked bytes.now) }
    ensures valid { IfOk result (λ ready.
        IsValidScene (rules_in ready.accepted.program) ready.scene) }
    ensures told { IfErr result (HaltSays
        (PartsSay (codes "carol_kept") with_any_script Refused bytes.now)) }
{
    let taken = parts(alloc, bytes)?;
    judged(rt, alloc, taken.placed, taken.script)
}

// What is asked for, if the program is accepted.
fn judged<R: Threads + Sync>(
    rt: &R,
    alloc: Global,
    placed: Placed,
    script: StatementList,
) -> Result<Ready, Halt>
    requires { IsFit placed.program placed.scene }
    ensures kept { IfOk result (λ ready. IsKeptAs placed.program ready.accepted) }
    ensures scene { IfOk result (λ ready. ready.scene ≡ placed.scene) }
    ensures script { IfOk result (λ ready. ready.script ≡ script) }
    ensures told { IfErr result (HaltSays (IsToldRefused placed.program)) }
{
    let Placed { program, scene } = placed;
    let accepted = accepted(rt, alloc, program)?;
    Ok(Ready {
        accepted,
        scene,
        script,
    })
}

// The program of a file in its scene, with its script, which is empty where there is none.
fn parts(alloc: Global, bytes: &[u8]) -> Result<Scripted, Halt>
    requires { length bytes.now ≤ most_text_bytes }
    ensures parts { IfOk result (λ taken. HasParts with_any_script bytes.now taken.script
        taken.placed.program taken.placed.scene) }
    ensures fit { IfOk result (λ taken. IsFit taken.placed.program taken.placed.scene) }
    ensures told { IfErr result (HaltSays
        (PartsSay (codes "carol_kept") with_any_script Nothing bytes.now)) }
{
    if has_script(alloc, bytes)? {
        return take_script(alloc, bytes, ASKER);
    }
    let placed = take_scene(alloc, bytes, ASKER)?;
    Ok(Scripted {
        placed,
        script: StatementList::new(alloc),
    })
}

// Whether the bytes are a file with a script.
fn has_script(alloc: Global, bytes: &[u8]) -> Result<bool, AllocError>
    requires { length bytes.now ≤ most_text_bytes }
    ensures { IfOk result (λ has. (file : FileTree) → Means bytes.now (Read file) →
        HasScript file has) }
{
    match parse(alloc, bytes) {
        Ok(file) => Ok(is_scripted(&file)),
        Err(error) => not_read(error),
    }
}

// A text that isn't read has none.
fn not_read(error: TextError) -> Result<bool, AllocError>
    ensures { IfOk result (λ _. error ≡ TextError.NoMemory → ⊥) }
{
    match error {
        TextError::NoMemory => Err(AllocError),
        TextError::Bad { .. } | TextError::TooLarge(_) => Ok(false),
    }
}

// Whether the file has a script.
fn is_scripted(file: &File) -> bool
    ensures { HasScript (file_tree file.now) result }
{
    file.script.is_some()
}

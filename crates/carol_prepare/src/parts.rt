ghost use Rattle.std.specs.Prelude.{◌≡◌, ◌≤◌, length, map, IfErr, IfOk};
ghost use Rattle.carol_prepare.specs.Bytes.{IsSound};
ghost use Rattle.carol_prepare.specs.Parts.{AreTaken, HasParts, HasProgram, IsFit, Nothing};
ghost use Rattle.carol_prepare.specs.Parts.{PartsSay, ProgramSays, TakesSay};
ghost use Rattle.carol_prepare.specs.Parts.{scene_alone, statement_of, with_script, with_tail};
ghost use Rattle.carol_program.specs.Rules.{rules_in};
ghost use Rattle.carol_program.specs.WellFormed.{IsWellFormed};
ghost use Rattle.carol_reply.specs.Reply.{HaltSays};
ghost use Rattle.carol_syntax.specs.Files.{file_tree, program_tree};
ghost use Rattle.carol_syntax.specs.Limits.{most_text_bytes};

use super::bytes::file_of;
use super::named::program_of;
use super::placed::{Placed, place};
use carol_history::{MOST_EVENTS, Statement, StatementList};
use carol_program::Program;
use carol_reply::{Halt, tell_parts};
use carol_syntax::{File, ScriptLine};
use std::alloc::{AllocError, Global};

/// A program in a scene, with the statements of a script.
#[derive(Drop)]
pub struct Scripted {
    /// The program and the scene.
    pub placed: Placed,
    /// The statements, in order, at most 131,072.
    pub script: StatementList,
}

/// A program in a scene, with a transcript.
#[derive(Drop)]
pub struct Transcribed {
    /// The program and the scene.
    pub placed: Placed,
    /// Where the transcript's second line begins among the bytes of the file.
    pub offset: u32,
}

/// The program of a file. What stands behind it isn't looked at.
pub fn take_program(alloc: Global, bytes: &[u8]) -> Result<Program, Halt>
    requires { length bytes.now ≤ most_text_bytes }
    ensures program { IfOk result (HasProgram bytes.now) }
    ensures well_formed { IfOk result (λ program. IsWellFormed (rules_in program) program.names) }
    ensures told { IfErr result (HaltSays (ProgramSays (λ _ _. ⊥) bytes.now)) }
{
    let file = file_of(alloc, bytes)?;
    program_of(alloc, &file)
}

/// The program of a file in the scene that it ends with. The word is the one that asks for them.
pub fn take_scene(alloc: Global, bytes: &[u8], word: &str) -> Result<Placed, Halt>
    requires { length bytes.now ≤ most_text_bytes }
    ensures parts { IfOk result (λ placed. HasParts scene_alone bytes.now tt
        placed.program placed.scene) }
    ensures fit { IfOk result (λ placed. IsFit placed.program placed.scene) }
    ensures told { IfErr result (HaltSays (PartsSay word.now scene_alone Nothing bytes.now)) }
{
    let file = file_of(alloc, bytes)?;
    scene_in(alloc, &file, word)
}

/// The program of a file in its scene, with its script. The word is the one that asks for them.
pub fn take_script(alloc: Global, bytes: &[u8], word: &str) -> Result<Scripted, Halt>
    requires { length bytes.now ≤ most_text_bytes }
    ensures parts { IfOk result (λ taken. HasParts with_script bytes.now taken.script
        taken.placed.program taken.placed.scene) }
    ensures fit { IfOk result (λ taken. IsFit taken.placed.program taken.placed.scene) }
    ensures few { IfOk result (λ taken. length taken.script ≤ MOST_EVENTS) }
    ensures told { IfErr result (HaltSays (PartsSay word.now with_script Nothing bytes.now)) }
{
    let file = file_of(alloc, bytes)?;
    script_in(alloc, &file, word)
}

/// The program of a file in its scene, with its transcript. The word is the one that asks for them.
pub fn take_transcript(alloc: Global, bytes: &[u8], word: &str) -> Result<Transcribed, Halt>
    requires { length bytes.now ≤ most_text_bytes }
    ensures parts { IfOk result (λ taken. HasParts with_tail bytes.now taken.offset
        taken.placed.program taken.placed.scene) }
    ensures fit { IfOk result (λ taken. IsFit taken.placed.program taken.placed.scene) }
    ensures told { IfErr result (HaltSays (PartsSay word.now with_tail Nothing bytes.now)) }
{
    let file = file_of(alloc, bytes)?;
    transcript_in(alloc, &file, word)
}

// The parts of a file that ends with a scene.
fn scene_in(alloc: Global, file: &File, word: &str) -> Result<Placed, Halt>
    requires { IsSound (file_tree file.now) }
    ensures parts { IfOk result (λ placed. AreTaken (program_tree file.now.program)
        (scene_alone (file_tree file.now)) tt placed.program placed.scene) }
    ensures fit { IfOk result (λ placed. IsFit placed.program placed.scene) }
    ensures told { IfErr result (HaltSays (TakesSay word.now Nothing
        (program_tree file.now.program) (scene_alone (file_tree file.now)))) }
{
    match (&file.scene, &file.script, &file.tail) {
        (Some(scene), None, None) => place(alloc, file, scene),
        (None, _, _) | (Some(_), Some(_), _) | (Some(_), None, Some(_)) => {
            Err(tell_parts(alloc, word))
        }
    }
}

// The parts of a file with a script.
fn script_in(alloc: Global, file: &File, word: &str) -> Result<Scripted, Halt>
    requires { IsSound (file_tree file.now) }
    ensures parts { IfOk result (λ taken. AreTaken (program_tree file.now.program)
        (with_script (file_tree file.now)) taken.script
        taken.placed.program taken.placed.scene) }
    ensures fit { IfOk result (λ taken. IsFit taken.placed.program taken.placed.scene) }
    ensures few { IfOk result (λ taken. length taken.script ≤ MOST_EVENTS) }
    ensures told { IfErr result (HaltSays (TakesSay word.now Nothing
        (program_tree file.now.program) (with_script (file_tree file.now)))) }
{
    match (&file.scene, &file.script) {
        (Some(scene), Some(script)) => {
            let script = statements_of(alloc, script.as_slice())?;
            let placed = place(alloc, file, scene)?;
            Ok(Scripted { placed, script })
        }
        (Some(_), None) | (None, Some(_)) | (None, None) => Err(tell_parts(alloc, word)),
    }
}

// The parts of a file with a transcript.
fn transcript_in(alloc: Global, file: &File, word: &str) -> Result<Transcribed, Halt>
    requires { IsSound (file_tree file.now) }
    ensures parts { IfOk result (λ taken. AreTaken (program_tree file.now.program)
        (with_tail (file_tree file.now)) taken.offset
        taken.placed.program taken.placed.scene) }
    ensures fit { IfOk result (λ taken. IsFit taken.placed.program taken.placed.scene) }
    ensures told { IfErr result (HaltSays (TakesSay word.now Nothing
        (program_tree file.now.program) (with_tail (file_tree file.now)))) }
{
    match (&file.scene, file.tail) {
        (Some(scene), Some(offset)) => {
            let placed = place(alloc, file, scene)?;
            Ok(Transcribed { placed, offset })
        }
        (Some(_), None) | (None, Some(_)) | (None, None) => Err(tell_parts(alloc, word)),
    }
}

// The statement that a line stands for.
fn statement_of(line: ScriptLine) -> Statement
    ensures { result ≡ statement_of line }
{
    match line {
        ScriptLine::Go(session) => Statement::Go(session),
        ScriptLine::Gossip(source, target) => Statement::Gossip { source, target },
        ScriptLine::Cut(a, b) => Statement::Cut { a, b },
        ScriptLine::Join(a, b) => Statement::Join { a, b },
    }
}

// The statements that the lines stand for.
fn statements_of(alloc: Global, script: &[ScriptLine]) -> Result<StatementList, AllocError>
    ensures { IfOk result (λ lines. lines ≡ map statement_of script.now) }
{
    let mut lines = StatementList::new(alloc);
    for line in script {
        lines.push(statement_of(*line))?;
    }
    Ok(lines)
}

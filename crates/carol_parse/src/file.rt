ghost use Rattle.std.specs.Prelude.{◌≡◌};
ghost use Rattle.carol_syntax.specs.Files.{file_tree, program_tree};
ghost use Rattle.carol_grammar.specs.Rules as rules;
ghost use Rattle.carol_reader.specs.Reads.{Reads, read_by};
ghost use Rattle.carol_parse.specs.Stages.{some_sequel_of, some_stage_of};

use crate::{Sequel, Stage, program, some_stage};
use carol_reader::{Read, Reader};
use carol_syntax::{File, Lexeme, ProgramDecl, SceneDecl};

// A file with a scene, and what stands behind it.
fn staged(program: ProgramDecl, scene: SceneDecl, sequel: Option<Sequel>, tail: u32) -> File
    ensures { file_tree result
        ≡ rules.with_sequel tail (program_tree program) scene (some_sequel_of sequel) }
{
    match sequel {
        None => File {
            program,
            scene: Some(scene),
            script: None,
            tail: None,
        },
        Some(Sequel::Script(lines)) => File {
            program,
            scene: Some(scene),
            script: Some(lines),
            tail: None,
        },
        Some(Sequel::Transcript) => File {
            program,
            scene: Some(scene),
            script: None,
            tail: Some(tail),
        },
    }
}

fn make_file(program: ProgramDecl, stage: Option<Stage>, tail: u32) -> File
    ensures { file_tree result ≡ rules.file_of tail (program_tree program) (some_stage_of stage) }
{
    match stage {
        None => File {
            program,
            scene: None,
            script: None,
            tail: None,
        },
        Some(Stage { scene, sequel }) => staged(program, scene, sequel, tail),
    }
}

/// A file, whose transcript begins behind the offset `tail` if it has one.
#[tactic(auto, unfolding(carol_grammar::specs::Rules::file))]
pub(crate) fn file<'a>(reader: &Reader<'_>, tokens: &'a [Lexeme], tail: u32) -> Read<'a, File>
    ensures { Reads file_tree result
        (read_by reader.now (rules.file reader.now.bytes.now tail) tokens.now) }
{
    let (program, rest) = program(reader, tokens)?;
    let (stage, rest) = some_stage(reader, rest)?;
    Ok((make_file(program, stage, tail), rest))
}

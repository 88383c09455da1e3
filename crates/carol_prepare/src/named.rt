ghost use Rattle.std.specs.Prelude.{IfErr, IfOk};
ghost use Rattle.carol_prepare.specs.Bytes.{IsSound};
ghost use Rattle.carol_prepare.specs.Named.{IsProgramOf, IsToldName, name_answer};
ghost use Rattle.carol_program.specs.Rules.{rules_in};
ghost use Rattle.carol_program.specs.WellFormed.{IsWellFormed};
ghost use Rattle.carol_reply.specs.Reply.{HaltSays, HaltTells};
ghost use Rattle.carol_syntax.specs.Files.{file_tree, program_tree};

use carol_program::Program;
use carol_reply::{Halt, Line, tell_line};
use carol_resolve::{NameError, resolve};
use carol_syntax::File;
use std::alloc::Global;

/// The program that a file stands for.
pub(crate) fn program_of(alloc: Global, file: &File) -> Result<Program, Halt>
    requires { IsSound (file_tree file.now) }
    ensures program { IfOk result (IsProgramOf (program_tree file.now.program)) }
    ensures well_formed { IfOk result (λ program. IsWellFormed (rules_in program) program.names) }
    ensures told { IfErr result (HaltSays (IsToldName (program_tree file.now.program))) }
{
    match resolve(alloc, file) {
        Ok(program) => Ok(program),
        Err(error) => Err(bad_name(alloc, error)),
    }
}

// Tells what is wrong with the names of a program.
fn bad_name(alloc: Global, error: NameError) -> Halt
    ensures { HaltTells (name_answer error) result }
{
    match error {
        NameError::Wrong { kind, span, .. } => {
            let (line, column) = (span.line, span.column);
            tell_line(alloc, Line::BadName { line, column, kind })
        }
        NameError::NoMemory => Halt::NoMemory,
    }
}

ghost use Rattle.std.specs.Prelude.{◌≤◌, length};
ghost use Rattle.carol_program.specs.Rules.{rules_in};
ghost use Rattle.carol_program.specs.WellFormed.{IsWellFormed};
ghost use Rattle.carol_syntax.specs.Limits.{most_text_bytes};

use crate::tally::Tally;
use anyhow::bail;
use carol_obligation::walk_all;
use carol_prepare::take_program;
use carol_program::Program;
use carol_reply::Halt;
use carol_typecheck::{Verdict, typecheck};
use std::alloc::Global;
use std::str;
use std::thread::Threads;

/// The verdict of the type check on the program of the text, or, with `only_counts`, what it has to
/// decide. The text has at most 67,108,864 bytes.
pub(crate) fn checked<R: Print + Threads + Sync>(
    rt: &R,
    alloc: Global,
    bytes: &[u8],
    only_counts: bool,
) -> anyhow::Result<()>
    requires { length bytes.now ≤ most_text_bytes }
{
    match take_program(alloc, bytes) {
        Ok(program) if only_counts => count(rt, alloc, &program),
        Ok(program) => judge(rt, alloc, &program),
        Err(Halt::Told(reply)) => {
            println!(rt; "{}", str::from_utf8(&reply.text)?.trim_end())?;
            Ok(())
        }
        Err(Halt::NoMemory) => bail!("no memory"),
    }
}

fn count(rt: &impl Print, alloc: Global, program: &Program) -> anyhow::Result<()>
    requires { IsWellFormed (rules_in program.now) program.now.names }
{
    let mut tally = Tally {
        obligations: 0,
        nodes: 0,
    };
    walk_all(alloc, program, &mut tally)?;
    println!(rt; "{} obligations, {} nodes", tally.obligations, tally.nodes)?;
    Ok(())
}

fn judge<R: Print + Threads + Sync>(rt: &R, alloc: Global, program: &Program) -> anyhow::Result<()>
    requires { IsWellFormed (rules_in program.now) program.now.names }
{
    match typecheck(rt, alloc, program)? {
        Verdict::Good => println!(rt; "good")?,
        Verdict::Fails(place, _at) => println!(rt; "fails at {place:?}")?,
        Verdict::Undecided(place, _why) => println!(rt; "undecided at {place:?}")?,
    }
    Ok(())
}

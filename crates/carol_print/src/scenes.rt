ghost use Rattle.std.specs.Prelude.{◌≡◌, ◌++◌, OnOk, codes, decimal};
ghost use Rattle.carol_print.specs.Pieces.{Piece, text_of};
ghost use Rattle.carol_print.specs.Canonical as canon;

use crate::printed::{Printed, push_all, push_text, push_with_commas};
use carol_syntax::{CommandDecl, SceneDecl, ScriptLine, SessionDecl};
use carol_text::push_integer;
use std::alloc::AllocError;

// Appends how often a command stands, where that isn't once.
fn push_times(out: &mut Vec<u8>, times: u64) -> Result<(), AllocError>
    ensures { OnOk result (out.new.items ≡ out.old.items ++ text_of (canon.times times)) }
{
    if times == 1 {
        return Ok(());
    }
    push_text(out, " times ")?;
    push_integer(out, times)
}

impl Printed for CommandDecl {
    ghost pieces = { canon.command };

    fn push_to(&self, out: &mut Vec<u8>) -> Result<(), AllocError> {
        self.name.push_to(out)?;
        push_text(out, "(")?;
        push_with_commas(out, self.args.as_slice())?;
        push_text(out, ")")?;
        push_times(out, self.times.value)?;
        push_text(out, ";\n")?;
        Ok(())
    }
}

impl Printed for SessionDecl {
    ghost pieces = { canon.session };

    fn push_to(&self, out: &mut Vec<u8>) -> Result<(), AllocError> {
        push_text(out, "session at ")?;
        push_integer(out, self.replica.value)?;
        push_text(out, " {\n")?;
        push_all(out, self.commands.as_slice())?;
        push_text(out, "}\n")?;
        Ok(())
    }
}

// Appends a line of a word and a number; the word brings its space.
fn push_setting(out: &mut Vec<u8>, word: &str, number: u64) -> Result<(), AllocError>
    ensures { OnOk result
        (out.new.items ≡ out.old.items ++ (word.now ++ (decimal number ++ codes ";\n"))) }
{
    push_text(out, word)?;
    push_integer(out, number)?;
    push_text(out, ";\n")
}

/// Appends the scene part of a file.
pub fn push_scene(out: &mut Vec<u8>, scene: &SceneDecl) -> Result<(), AllocError>
    ensures { OnOk result (out.new.items ≡ out.old.items ++ text_of (canon.scene scene.now)) }
{
    push_text(out, "scene\n")?;
    push_setting(out, "replicas ", scene.replicas.value)?;
    push_setting(out, "tries ", scene.tries.value)?;
    push_setting(out, "workers ", scene.workers.value)?;
    push_setting(out, "gossipers ", scene.gossipers.value)?;
    push_all(out, scene.sessions.as_slice())?;
    push_text(out, "end\n")?;
    Ok(())
}

// Appends a line of a word and two numbers; the word brings its space.
fn push_pair(out: &mut Vec<u8>, word: &str, first: u64, second: u64) -> Result<(), AllocError>
    ensures { OnOk result (out.new.items ≡ out.old.items
        ++ (word.now ++ (decimal first ++ (codes " " ++ (decimal second ++ codes ";\n"))))) }
{
    push_text(out, word)?;
    push_integer(out, first)?;
    push_text(out, " ")?;
    push_integer(out, second)?;
    push_text(out, ";\n")
}

impl Printed for ScriptLine {
    ghost pieces = { canon.line };

    fn push_to(&self, out: &mut Vec<u8>) -> Result<(), AllocError> {
        match *self {
            ScriptLine::Go(session) => push_setting(out, "go ", session),
            ScriptLine::Gossip(from, to) => push_pair(out, "gossip ", from, to),
            ScriptLine::Cut(from, to) => push_pair(out, "cut ", from, to),
            ScriptLine::Join(from, to) => push_pair(out, "join ", from, to),
        }
    }
}

/// Appends the script part of a file.
pub fn push_script(out: &mut Vec<u8>, lines: &[ScriptLine]) -> Result<(), AllocError>
    ensures { OnOk result (out.new.items ≡ out.old.items ++ text_of (canon.script lines.now)) }
{
    push_text(out, "script\n")?;
    push_all(out, lines)?;
    push_text(out, "end\n")?;
    Ok(())
}

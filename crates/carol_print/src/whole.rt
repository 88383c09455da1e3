ghost use Rattle.std.specs.Prelude.{◌≡◌, ◌++◌, OnOk, IfOk};
ghost use Rattle.carol_syntax.specs.Files.{file_tree};
ghost use Rattle.carol_syntax.specs.Shape.{IsFile};
ghost use Rattle.carol_print.specs.Pieces.{text_of};
ghost use Rattle.carol_print.specs.ReadBack.{IsTextOf, IsReadBack};
ghost use Rattle.carol_print.specs.Canonical.{canonical, part_of, scene, script};

use crate::programs::push_program;
use crate::scenes::{push_scene, push_script};
use crate::{canonical_is_laid_out, canonical_is_read, laid_out, small_is_read};
use carol_grammar::{one_bad, one_outcome, one_text};
use carol_syntax::{File, SceneDecl, ScriptLineList};
use std::alloc::{AllocError, Global};

// Appends the scene part, where there is one.
fn push_scene_part(out: &mut Vec<u8>, part: &Option<SceneDecl>) -> Result<(), AllocError>
    ensures { OnOk result (out.new.items ≡ out.old.items ++ text_of (part_of scene part.now)) }
{
    match part {
        Some(part) => push_scene(out, part),
        None => Ok(()),
    }
}

// Appends the script part, where there is one.
fn push_script_part(out: &mut Vec<u8>, part: &Option<ScriptLineList>) -> Result<(), AllocError>
    ensures { OnOk result (out.new.items ≡ out.old.items ++ text_of (part_of script part.now)) }
{
    match part {
        Some(part) => push_script(out, part.as_slice()),
        None => Ok(()),
    }
}

/// Appends the parts of a file.
pub fn push_file(out: &mut Vec<u8>, file: &File) -> Result<(), AllocError>
    ensures { OnOk result
        (out.new.items ≡ out.old.items ++ text_of (canonical (file_tree file.now))) }
{
    push_program(out, &file.program)?;
    push_scene_part(out, &file.scene)?;
    push_script_part(out, &file.script)?;
    Ok(())
}

/// The canonical text of a file whose tree is one of the grammar: its program, its scene and its
/// script. A transcript is no part of it.
pub fn print(alloc: Global, file: &File) -> Result<Vec<u8>, AllocError>
    requires { IsFile (file_tree file.now) }
    ensures text { IfOk result (λ text. text.items ≡ text_of (canonical (file_tree file.now))) }

    // The text is a file with the same tree, and reading it gives that tree unless the tree isn't
    // small: then it may pass a limit.
    ensures file { IfOk result (λ text. IsTextOf text.items (file_tree file.now)) }
    ensures read_back { IfOk result (λ text. IsReadBack text.items (file_tree file.now)) }
{
    canonical_is_laid_out();
    laid_out();
    canonical_is_read();
    small_is_read();
    one_text();
    one_bad();
    one_outcome();
    let mut out = Vec::new(alloc);
    push_file(&mut out, file)?;
    Ok(out)
}

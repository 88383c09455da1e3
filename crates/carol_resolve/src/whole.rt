ghost use Rattle.std.specs.Prelude.{◌≡◌, [], Err, IfOk, map};
ghost use Rattle.carol_formula.specs.Tree.{claim_of};
ghost use Rattle.carol_program.specs.Rules.{guard_claim, op_rules, rules_in};
ghost use Rattle.carol_program.specs.WellFormed.{IsWellFormed};
ghost use Rattle.carol_syntax.specs.Files.{program_tree};
ghost use Rattle.carol_syntax.specs.Shape.{IsProgram};
ghost use Rattle.carol_meaning.specs.Sizes.{IsShortProgram};
ghost use Rattle.carol_meaning.specs.declared.fault.Fault.{Fault};
ghost use Rattle.carol_meaning.specs.Faults.{IsFirst};
ghost use Rattle.carol_meaning.specs.Cells.{cell_faults};
ghost use Rattle.carol_meaning.specs.Programs.{program_faults, rules_of, names_of};

use crate::counts::can_be_numbered;
use crate::error::NameError;
use crate::listed;
use crate::parts::{Parts, find_parts};
use carol_names::{Finder, initial, shape, titles};
use carol_program::{Names, Program};
use carol_syntax::{File, ProgramDecl};
use std::alloc::{AllocError, Global};

// The program of these parts, with whose cells nothing is wrong.
fn whole(alloc: Global, program: &ProgramDecl, parts: Parts) -> Result<Program, AllocError>
    requires cells { cell_faults program.now.cells ≡ [] }
    requires invariant { claim_of parts.invariant ≡
        (rules_of (program_tree program.now)).invariant }
    requires guards { map guard_claim parts.guards ≡
        (rules_of (program_tree program.now)).guards }
    requires ops { map op_rules parts.ops ≡ (rules_of (program_tree program.now)).ops }
    requires names { parts.op_names ≡ (names_of (program_tree program.now)).ops }
    ensures rules { IfOk result (λ p. rules_in p ≡ rules_of (program_tree program.now)) }
    ensures names { IfOk result (λ p. p.names ≡ names_of (program_tree program.now)) }
{
    let cells = program.cells.as_slice();
    let cell_names = titles(alloc, cells)?;
    let guard_names = listed(alloc, program.guards.as_slice())?;
    Ok(Program {
        shape: shape(alloc, cells),
        initial: initial(alloc, cells),
        invariant: parts.invariant,
        guards: parts.guards,
        ops: parts.ops,
        names: Names::new(cell_names, guard_names, parts.op_names),
    })
}

/// The program that a file stands for, with the names of its parts. The program part is a tree of
/// the grammar. Each of its formulas has at most 256 nodes without its products, each of its terms
/// at most 256 products, and each body at most 65,536 statements, nested at most 64 deep. Where
/// there are more than 2^28 cells, guards or parameters of an operation, memory isn't taken for it.
///
/// `Wrong` is the first thing that is wrong with its names: by the place, and at one place by the
/// kind. It comes exactly where something is wrong, unless memory runs out.
pub fn resolve(alloc: Global, file: &File) -> Result<Program, NameError>
    requires shape { IsProgram (program_tree file.now.program) }
    requires size { IsShortProgram (program_tree file.now.program) }
    ensures faultless { IfOk result (λ p. program_faults (program_tree file.now.program) ≡ []) }
    ensures rules { IfOk result (λ p. rules_in p ≡ rules_of (program_tree file.now.program)) }
    ensures names { IfOk result (λ p. p.names ≡ names_of (program_tree file.now.program)) }
    ensures well_formed { IfOk result (λ p. IsWellFormed (rules_in p) p.names) }
    ensures wrong { (f : Fault) → result ≡ Err (NameError.Wrong f.kind f.name f.span)
        → IsFirst f (program_faults (program_tree file.now.program)) }
{
    if !can_be_numbered(&file.program) {
        return Err(NameError::NoMemory);
    }
    let mut finder = Finder::new();
    let parts = find_parts(alloc, &mut finder, &file.program)?;
    match finder.into_first() {
        Some(fault) => Err(NameError::from(fault)),
        None => {
            let program = whole(alloc, &file.program, parts)?;
            Ok(program)
        }
    }
}

ghost use Rattle.std.specs.Prelude.{◌≡◌, OnOk, IfOk, map};
ghost use Rattle.std.specs.List.{flat_map, AllByRecursion};
ghost use Rattle.carol_formula.specs.Tree.{claim_of};
ghost use Rattle.carol_program.specs.Rules.{guard_claim, op_rules};
ghost use Rattle.carol_syntax.specs.Formulas.{formula_tree};
ghost use Rattle.carol_syntax.specs.Files.{guard_tree, op_tree, program_tree};
ghost use Rattle.carol_syntax.specs.Shape.{IsNamed, IsOp, IsProgram};
ghost use Rattle.carol_meaning.specs.Sizes.{IsShortNamed, IsShortOp, IsShortProgram};
ghost use Rattle.carol_meaning.specs.Faults.{earliest};
ghost use Rattle.carol_meaning.specs.Terms.{formula_meaning, formula_faults};
ghost use Rattle.carol_meaning.specs.Stores.{in_guard};
ghost use Rattle.carol_meaning.specs.Operations.{op_faults, op_meaning, op_names};
ghost use Rattle.carol_meaning.specs.Programs.{list_faults, program_faults, rules_of, names_of};
ghost use Rattle.carol_resolve.specs.Counts.{HasFewParams, CanBeNumbered};

use crate::{Around, operation};
use carol_formula::Formula;
use carol_names::{
    Cells, Finder, InGuard, InInvariant, formula, note_cells, note_too_many, note_twice,
};
use carol_program::{Guard, GuardList, MOST_GUARDS, OpList, OpNameList};
use carol_syntax::{GuardDecl, OpDecl, ProgramDecl};
use std::alloc::{AllocError, Global};

/// The most operations of a program.
const MOST_OPS: usize = 64;

/// What the parts of a program mean, and what its operations are called.
#[derive(Drop)]
pub(crate) struct Parts {
    pub invariant: Formula,
    pub guards: GuardList,
    pub ops: OpList,
    pub op_names: OpNameList,
}

// Notes guards that have the same name or are too many, and such operations.
fn note_lists(alloc: Global, finder: &mut Finder, program: &ProgramDecl) -> Result<(), AllocError>
    ensures { OnOk result
        (finder.new ≡ earliest finder.old (list_faults (program_tree program.now))) }
{
    let guards = program.guards.as_slice();
    note_twice(alloc, finder, guards)?;
    note_too_many(alloc, finder, MOST_GUARDS, guards)?;
    let ops = program.ops.as_slice();
    note_twice(alloc, finder, ops)?;
    note_too_many(alloc, finder, MOST_OPS, ops)?;
    Ok(())
}

// What a guard means. Notes its faults.
fn guard(
    alloc: Global,
    finder: &mut Finder,
    cells: &Cells<'_>,
    guard: &GuardDecl,
) -> Result<Guard, AllocError>
    requires shape { IsNamed (guard_tree guard.now) }
    requires sized { IsShortNamed (guard_tree guard.now) }
    ensures faults { OnOk result (finder.new ≡ earliest finder.old
        (formula_faults (in_guard cells.now) (formula_tree guard.now.formula))) }
    ensures meaning { IfOk result (λ g. guard_claim g ≡
        formula_meaning (in_guard cells.now) (formula_tree guard.now.formula)) }
{
    let place = InGuard::new(cells);
    let formula = formula(&place, alloc, finder, &guard.formula)?;
    Ok(Guard { formula })
}

// What guards mean. Notes their faults.
fn guards(
    alloc: Global,
    finder: &mut Finder,
    cells: &Cells<'_>,
    guards: &[GuardDecl],
) -> Result<GuardList, AllocError>
    requires shape { AllByRecursion IsNamed (map guard_tree guards.now) }
    requires sized { AllByRecursion IsShortNamed (map guard_tree guards.now) }
    ensures faults { OnOk result (finder.new ≡ earliest finder.old
        (flat_map (λ g. formula_faults (in_guard cells.now) g.formula)
        (map guard_tree guards.now))) }
    ensures meaning { IfOk result (λ list. map guard_claim list ≡
        map (λ g. formula_meaning (in_guard cells.now) g.formula) (map guard_tree guards.now)) }
{
    let mut list = GuardList::new(alloc);
    for declaration in guards {
        let meant = guard(alloc, finder, cells, declaration)?;
        list.push(meant)?;
    }
    Ok(list)
}

// What operations mean, and what they are called. Notes their faults.
fn operations(
    alloc: Global,
    finder: &mut Finder,
    around: &Around<'_>,
    ops: &[OpDecl],
) -> Result<(OpList, OpNameList), AllocError>
    requires shape { AllByRecursion IsOp (map op_tree ops.now) }
    requires few { AllByRecursion HasFewParams (map op_tree ops.now) }
    requires sized { AllByRecursion IsShortOp (map op_tree ops.now) }
    ensures faults { OnOk result
        (finder.new ≡ earliest finder.old (flat_map (op_faults around.now) (map op_tree ops.now))) }
    ensures meaning { IfOk result (λ r.
        map op_rules r.0 ≡ map (op_meaning around.now) (map op_tree ops.now)) }
    ensures names { IfOk result (λ r. r.1 ≡ map op_names (map op_tree ops.now)) }
{
    let mut list = OpList::new(alloc);
    let mut names = OpNameList::new(alloc);
    for op in ops {
        let (meant, called) = operation(alloc, finder, around, op)?;
        list.push(meant)?;
        names.push(called)?;
    }
    Ok((list, names))
}

/// What the parts of a program mean. Notes all that is wrong with it.
pub(crate) fn find_parts(
    alloc: Global,
    finder: &mut Finder,
    program: &ProgramDecl,
) -> Result<Parts, AllocError>
    requires shape { IsProgram (program_tree program.now) }
    requires few { CanBeNumbered (program_tree program.now) }
    requires sized { IsShortProgram (program_tree program.now) }
    ensures faults { OnOk result
        (finder.new ≡ earliest finder.old (program_faults (program_tree program.now))) }
    ensures invariant { IfOk result (λ p.
        claim_of p.invariant ≡ (rules_of (program_tree program.now)).invariant) }
    ensures guards { IfOk result (λ p.
        map guard_claim p.guards ≡ (rules_of (program_tree program.now)).guards) }
    ensures ops { IfOk result (λ p.
        map op_rules p.ops ≡ (rules_of (program_tree program.now)).ops) }
    ensures names { IfOk result (λ p.
        p.op_names ≡ (names_of (program_tree program.now)).ops) }
{
    let declarations = program.cells.as_slice();
    note_cells(alloc, finder, declarations)?;
    note_lists(alloc, finder, program)?;
    let cells = Cells::new(declarations);
    let place = InInvariant::new(&cells);
    let invariant = formula(&place, alloc, finder, &program.invariant)?;
    let guard_list = program.guards.as_slice();
    let guards = guards(alloc, finder, &cells, guard_list)?;
    let around = Around::new(&cells, guard_list);
    let (ops, op_names) = operations(alloc, finder, &around, program.ops.as_slice())?;
    Ok(Parts {
        invariant,
        guards,
        ops,
        op_names,
    })
}

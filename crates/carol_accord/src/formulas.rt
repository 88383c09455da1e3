ghost use Rattle.std.specs.Prelude.{◌≡◌, ◌+◌, ◌<◌, ◌^◌, length, IfOk};
ghost use Rattle.carol_formula.specs.Tree.{claim_of};
ghost use Rattle.carol_program.specs.Limits.{most_cells};
ghost use Rattle.carol_accord.specs.Formed.{stored, equal_claim, step_claim};
ghost use Rattle.carol_accord.specs.Parts.{IsGuard};

use crate::names::{EqualNames, StepNames};
use carol_formula::{Boxed, Formula, renamed};
use carol_program::{FIRST_THERE, with_kinds};
use carol_store::{CellKind, Direction};
use std::alloc::{AllocError, Global};

// The cells of the store with the variables from `base` on are what cells of these kinds may hold.
fn stored(alloc: Global, kinds: &[CellKind], base: u32) -> Result<Formula, AllocError>
    requires { base + length kinds.now < 2 ^ 32 }
    ensures { IfOk result (λ f. claim_of f ≡ stored kinds.now base) }
{
    let nothing = Boxed::new(alloc, Formula::True)?;
    let stored = with_kinds(alloc, kinds, base, nothing)?;
    Ok(stored.into_inner())
}

/// The stores are equal, and the guard is false of them.
pub(crate) fn equal_formula(
    alloc: Global,
    kinds: &[CellKind],
    guard: &Formula,
) -> Result<Formula, AllocError>
    requires { IsGuard kinds.now (claim_of guard.now) }
    ensures { IfOk result (λ f. claim_of f ≡ equal_claim kinds.now (claim_of guard.now)) }
{
    let stores = stored(alloc, kinds, 0)?;
    let holds = renamed(alloc, guard, &EqualNames)?;
    let fails = Formula::not(alloc, holds)?;
    Formula::and(alloc, stores, fails)
}

/// The guard is true of two stores, and false after a step in the global one, of a cell of this
/// kind.
pub(crate) fn step_formula(
    alloc: Global,
    kinds: &[CellKind],
    guard: &Formula,
    kind: CellKind,
    direction: Direction,
) -> Result<Formula, AllocError>
    requires guard { IsGuard kinds.now (claim_of guard.now) }
    requires cell { direction.cell < most_cells }
    ensures { IfOk result (λ f. claim_of f
        ≡ step_claim kinds.now (claim_of guard.now) kind direction) }
{
    let here = stored(alloc, kinds, 0)?;
    let there = stored(alloc, kinds, FIRST_THERE)?;
    let stores = Formula::and(alloc, here, there)?;
    let before = guard.copy(alloc)?;
    let after = renamed(alloc, guard, &StepNames { kind, direction })?;
    let fails = Formula::not(alloc, after)?;
    let breaks = Formula::and(alloc, before, fails)?;
    Formula::and(alloc, stores, breaks)
}

ghost use Rattle.std.specs.Prelude.{◌≡◌, ◌++◌, ◌≤◌, [], length, IfOk, OnOk};
ghost use Rattle.carol_accord.specs.Inferred.{steps_before, steps_of};

use carol_store::{CellKind, Direction, MOST_CELLS};
use std::alloc::{AllocError, Global};

// Appends the steps of a cell of this kind.
fn push_steps(steps: &mut Vec<Direction>, cell: u32, kind: CellKind) -> Result<(), AllocError>
    ensures { OnOk result (steps.new.items ≡ steps.old.items ++ steps_before cell kind []) }
{
    let mut left = kind.ways();
    while let Some((up, more)) = left.split_first() {
        steps.push(Direction { cell, up: *up })?;
        left = more;
    }
    Ok(())
}

/// All steps of cells of these kinds, by cell, up before down.
pub(crate) fn all_steps(alloc: Global, kinds: &[CellKind]) -> Result<Vec<Direction>, AllocError>
    requires { length kinds.now ≤ MOST_CELLS }
    ensures { IfOk result (λ steps. steps.items ≡ steps_of kinds.now) }
{
    let mut steps = Vec::new(alloc);
    let mut cell = 0;
    let mut left = kinds;
    while let Some((kind, more)) = left.split_first() {
        push_steps(&mut steps, cell, *kind)?;
        cell += 1;
        left = more;
    }
    Ok(steps)
}

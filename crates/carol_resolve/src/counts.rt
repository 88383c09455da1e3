ghost use Rattle.std.specs.Prelude.{◌↔◌, ◌≤◌, map, IsTrue};
ghost use Rattle.std.specs.List.{AllByRecursion};
ghost use Rattle.carol_syntax.specs.Files.{op_tree, program_tree};
ghost use Rattle.carol_syntax.specs.Size.{cell_total};
ghost use Rattle.carol_names.specs.Numbered.{most_numbers};
ghost use Rattle.carol_resolve.specs.Counts.{HasFewParams, CanBeNumbered};

use carol_names::cell_count;
use carol_syntax::{CellDecl, OpDecl, ProgramDecl};

// How many cells, guards or parameters are numbered at the most.
const MOST_NUMBERS: usize = 1 << 28;

// Whether the declarations have few enough cells to be numbered.
fn has_few_cells(declarations: &[CellDecl]) -> bool
    ensures { IsTrue result ↔ (cell_total declarations.now ≤ most_numbers) }
{
    let mut room = MOST_NUMBERS;
    let mut left = declarations;
    while let Some((declaration, more)) = left.split_first() {
        let count = cell_count(declaration);
        if count > room {
            return false;
        }
        room -= count;
        left = more;
    }
    true
}

// Whether each operation has few enough parameters to be numbered.
fn has_few_params(ops: &[OpDecl]) -> bool
    ensures { IsTrue result ↔ AllByRecursion HasFewParams (map op_tree ops.now) }
{
    let mut left = ops;
    while let Some((op, more)) = left.split_first() {
        if op.params.len() > MOST_NUMBERS {
            return false;
        }
        left = more;
    }
    true
}

/// Whether the cells, the guards and the parameters of each operation are few enough to be
/// numbered.
pub(crate) fn can_be_numbered(program: &ProgramDecl) -> bool
    ensures { IsTrue result ↔ CanBeNumbered (program_tree program.now) }
{
    has_few_cells(program.cells.as_slice())
        && program.guards.len() <= MOST_NUMBERS
        && has_few_params(program.ops.as_slice())
}

ghost use Rattle.std.specs.Prelude.{◌≡◌, ◌<◌, ◌≤◌, ◌*◌, length, slice_get, Some};
ghost use Rattle.std.specs.List.{AllByRecursion};
ghost use Rattle.carol_program.specs.Accords.{HasWay};
ghost use Rattle.carol_program.specs.Limits.{most_cells, most_queries};
ghost use Rattle.carol_advise_guards.specs.Bars as total;
ghost use Rattle.carol_advise_guards.specs.Bars.{no_in, noes, noes_of_ways};
ghost use Rattle.carol_store.specs.Kinds.{ways};

use carol_program::{AccordTable, Entry};
use carol_store::CellKind;

/// How much an assignment bars at the most: 8 guards with two entries for each of 16 cells.
pub(crate) const MOST_BARS: u32 = 256;

/// How many No entries the guards have together, which are in range. The table is one of cells of
/// these kinds.
pub fn bars(table: &AccordTable, kinds: &[CellKind], guards: &[u32]) -> u32
    requires kinds { kinds.now ≡ table.now.kinds }
    requires cells { length kinds.now ≤ most_cells }
    requires guards { AllByRecursion (λ g. g < table.now.guards) guards.now }
    requires few { length guards.now ≤ most_queries }
    ensures { result ≡ total.bars table.now guards.now }
{
    let mut left = guards;
    let mut count = 0;
    while let Some((guard, more)) = left.split_first() {
        count += noes(table, kinds, *guard);
        left = more;
    }
    count
}

// How many No entries the guard has.
fn noes(table: &AccordTable, kinds: &[CellKind], guard: u32) -> u32
    requires kinds { kinds.now ≡ table.now.kinds }
    requires cells { length kinds.now ≤ most_cells }
    requires guard { guard < table.now.guards }
    ensures count { result ≡ noes table.now guard }
    ensures few { result ≤ 2 * most_cells }
{
    let mut count = 0;
    for (cell, kind) in kinds.iter().enumerate() {
        count += noes_of(table, guard, cell as u32, *kind);
    }
    count
}

// How many it has for the cell, which has this kind.
fn noes_of(table: &AccordTable, guard: u32, cell: u32, kind: CellKind) -> u32
    requires guard { guard < table.now.guards }
    requires kind { slice_get table.now.kinds cell ≡ Some kind }
    ensures count { result ≡ noes_of_ways table.now guard cell (ways kind) }
    ensures few { result ≤ 2 }
{
    let up = no_in(table.entry(guard, cell, true));
    match kind {
        CellKind::Counter => up + no_in(table.entry(guard, cell, false)),
        CellKind::Peak | CellKind::Flag => up,
    }
}

// One for an entry that is No.
fn no_in(entry: &Entry) -> u32
    ensures count { result ≡ no_in (Some entry.now) }
    ensures few { result ≤ 1 }
{
    match entry {
        Entry::Yes => 0,
        Entry::No(_) => 1,
    }
}

ghost use Rattle.std.specs.Prelude.{◌≡◌, ◌<◌, ◌≤◌, ◌*◌, length, slice_get, Some, IfOk};
ghost use Rattle.carol_store.specs.Effects.{IsEffect};
ghost use Rattle.carol_program.specs.Accords.{Accords, IsTable, row_length, place_of, entry_of, HasWay};
ghost use Rattle.carol_program.specs.Admitting.{admits, admits_all, is_yes};

use crate::copies::copied_list;
use carol_formula::Valuation;
use carol_store::{CellKind, Direction, Effect, MOST_CELLS, Shape};
use sqlite_items::Items;
use std::alloc::{AllocError, Global};
use std::marker::Model;

/// Whether a unit step of a cell keeps a guard true; where not, two stores at which it makes it
/// false.
#[derive(Debug, Drop)]
pub enum Entry {
    Yes,
    No(Valuation),
}

/// Entries by guard, then by cell, up before down.
pub type EntryList = Items<Entry>;

/// The accords of a program's guards.
#[derive(Drop)]
pub struct AccordTable {
    shape: Shape,
    guards: u32,
    entries: EntryList,
}

impl Model for AccordTable {
    ghost use Rattle.carol_program.specs.Accords.{Accords, IsTable};

    ghost Value = { Accords };

    ghost view = { λ t. record { kinds = t.shape; guards = t.guards; entries = t.entries } };

    ghost invariant = { λ t. IsTable (record { kinds = t.shape; guards = t.guards; entries = t.entries }) };
}

impl AccordTable {
    /// The table of these entries, of which there are exactly as many as guards, cells and ways.
    pub fn new(shape: &Shape, guards: u32, entries: EntryList) -> AccordTable
        requires { length entries ≡ guards * row_length shape.now }
        ensures { result ≡ record { kinds = shape.now; guards = guards; entries = entries } }
    {
        AccordTable {
            shape: shape.copy(),
            guards,
            entries,
        }
    }

    /// An equal table.
    pub fn copy(&self, alloc: Global) -> Result<AccordTable, AllocError>
        ensures { IfOk result (λ same. same ≡ self.now) }
    {
        Ok(AccordTable {
            shape: self.shape.copy(),
            guards: self.guards,
            entries: copied_list(alloc, &self.entries)?,
        })
    }

    /// The entry of the guard for the cell's step, up or down. All are in range, and down only for
    /// a counter.
    pub fn entry(&self, guard: u32, cell: u32, up: bool) -> &Entry
        requires guard { guard < self.now.guards }
        requires way { HasWay self.now.kinds cell up }
        ensures { entry_of self.now guard cell up ≡ Some result.now }
    {
        let kinds = self.shape.kinds();
        let place = guard as usize * row_length(kinds) + offset(kinds, cell, up);
        &self.entries.as_slice()[place]
    }

    /// Whether the guard's accord has all directions of the effect. The guard is in range, the
    /// table is one of the shape, and the effect fits it.
    pub fn admits(&self, shape: &Shape, guard: u32, effect: &Effect) -> bool
        requires shape { shape.now ≡ self.now.kinds }
        requires guard { guard < self.now.guards }
        requires effect { IsEffect self.now.kinds effect.now }
        ensures { result ≡ admits self.now guard effect.now }
    {
        let directions = effect.directions(shape);
        let mut left = directions.as_slice();
        while let Some((direction, more)) = left.split_first() {
            if !self.has(guard, *direction) {
                return false;
            }
            left = more;
        }
        true
    }

    // Whether the guard's entry for the direction is Yes.
    fn has(&self, guard: u32, direction: Direction) -> bool
        requires guard { guard < self.now.guards }
        requires way { HasWay self.now.kinds direction.cell direction.up }
        ensures { result ≡ is_yes (entry_of self.now guard direction.cell direction.up) }
    {
        match self.entry(guard, direction.cell, direction.up) {
            Entry::Yes => true,
            Entry::No(_) => false,
        }
    }
}

#[tactic(auto, using(crate::proofs::Ways::row_bounds))]
// How many entries a guard has.
fn row_length(kinds: &[CellKind]) -> usize
    requires { length kinds.now ≤ MOST_CELLS }
    ensures count { result ≡ row_length kinds.now }
    ensures few { result ≤ 2 * MOST_CELLS }
{
    let mut left = kinds;
    let mut count = 0;
    while let Some((kind, more)) = left.split_first() {
        count += kind.ways().len();
        left = more;
    }
    count
}

#[tactic(auto, using(crate::proofs::Ways::places))]
// The place of the cell's way in a guard's row.
fn offset(kinds: &[CellKind], cell: u32, up: bool) -> usize
    requires few { length kinds.now ≤ MOST_CELLS }
    requires way { HasWay kinds.now cell up }
    ensures place { result ≡ place_of kinds.now cell up }
    ensures within { result < row_length kinds.now }
{
    let first = row_length(&kinds[..cell as usize]);
    if up { first } else { first + 1 }
}

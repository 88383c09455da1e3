ghost use Rattle.std.specs.Prelude.{◌≡◌, ◌<◌, ◌≤◌, length, slice_get, Some, FitsSigned};
ghost use Rattle.std.specs.Int.{w64};
ghost use Rattle.carol_store.specs.Effects.{IsEffect, IsAtomOf};
ghost use Rattle.carol_store.specs.Kinds.{changed};
ghost use Rattle.carol_store.specs.Stores.{IsStore, AreWords, StaysInWords, apply, with_cell};

use crate::effect::{Atom, Effect};
use crate::shape::{CellKind, Shape};
use crate::short_list::MOST_CELLS;
use smallvec::SmallVec;
use std::alloc::Global;
use std::marker::Model;

/// The values of a shape's cells. Contracts see it as the list of them.
#[derive(Drop)]
pub struct Store {
    cells: SmallVec<i64, MOST_CELLS>,
}

impl Model for Store {
    ghost use Rattle.std.specs.Prelude.{List, ◌≡◌, ◌≤◌, length};
    ghost use Rattle.carol_store.specs.Kinds.{CellValue};
    ghost use Rattle.carol_store.specs.declared.short_list.TheConstants.{MOST_CELLS};

    ghost Value = { List CellValue };

    ghost view = { λ s. s.cells.items };

    ghost invariant = { λ s. length s.cells.items ≤ MOST_CELLS };
}

impl Store {
    /// The store with these values, one for each cell of the shape, and 0 or 1 for a flag.
    pub fn initial(alloc: Global, shape: &Shape, values: &[i64]) -> Store
        requires { IsStore shape.now values.now }
        ensures { result ≡ values.now }
    {
        let _kinds = shape.kinds();
        Store::from_slice(alloc, values)
    }

    /// The store with these values, of which there are at most sixteen, whatever a shape says of
    /// them.
    pub fn from_slice(alloc: Global, values: &[i64]) -> Store
        requires { length values.now ≤ MOST_CELLS }
        ensures { result ≡ values.now }
    {
        Store {
            cells: SmallVec::from_slice(alloc, values).unwrap(),
        }
    }

    /// An equal store.
    pub fn copy(&self) -> Store
        ensures { result ≡ self.now }
    {
        Store::from_slice(*self.cells.allocator(), self.cells.as_slice())
    }

    /// Applies each atom of the effect: a counter has the amount added, a peak is the greater of
    /// itself and the target, and a flag is 1. No counter may leave the range of `i64`.
    pub fn apply(&mut self, shape: &Shape, effect: &Effect)
        requires store { IsStore shape.now self.old }
        requires effect { IsEffect shape.now effect.now }
        requires words { StaysInWords shape.now effect.now self.old }
        ensures applied { self.new ≡ apply shape.now effect.now self.old }
        ensures store { IsStore shape.now self.new }
    {
        for atom in effect.atoms() {
            self.change(shape, *atom);
        }
    }

    // Changes the atom's cell.
    fn change(&mut self, shape: &Shape, atom: Atom)
        requires store { IsStore shape.now self.old }
        requires atom { IsAtomOf shape.now atom }
        requires words { AreWords (with_cell shape.now atom self.old) }
        ensures { self.new ≡ with_cell shape.now atom self.old }
    {
        let index = atom.cell as usize;
        let number = changed(shape.kinds()[index], self.cells[index], atom.value);
        self.cells[index] = number;
    }

    /// The value of the cell, which is in range.
    pub fn get(&self, cell: u32) -> i64
        requires { cell < length self.now }
        ensures { slice_get self.now cell ≡ Some result }
    {
        self.cells[cell as usize]
    }

    /// The values of the cells, in their order.
    pub fn values(&self) -> &[i64]
        ensures values { result.now ≡ self.now }
        ensures words { AreWords self.now }
    {
        as_words(self.cells.as_slice())
    }

    /// The number of cells, at most sixteen.
    pub fn len(&self) -> u32
        ensures value { result ≡ length self.now }
        ensures few { length self.now ≤ MOST_CELLS }
    {
        self.cells.len() as u32
    }
}

/// The numbers, each of which fits its word, as reading it shows.
pub fn as_words(numbers: &[i64]) -> &[i64]
    ensures numbers { result.now ≡ numbers.now }
    ensures words { AreWords numbers.now }
{
    let mut left = numbers;
    while let Some((number, more)) = left.split_first() {
        let _word = *number;
        left = more;
    }
    numbers
}

// What an atom's value makes of the value of a cell of this kind.
fn changed(kind: CellKind, number: i64, value: i64) -> i64
    requires { FitsSigned w64 (changed kind number value) }
    ensures { result ≡ changed kind number value }
{
    match kind {
        CellKind::Counter => number + value,
        CellKind::Peak => number.max(value),
        CellKind::Flag => 1,
    }
}

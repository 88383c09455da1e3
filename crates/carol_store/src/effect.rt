ghost use Rattle.std.specs.Prelude.{◌≡◌, ◌≤◌, length};
ghost use Rattle.carol_store.specs.Effects.{Ascends, IsEffect};
ghost use Rattle.carol_store.specs.Directions.{directions};

use crate::direction::{DirectionList, direction_of};
use crate::shape::Shape;
use crate::short_list::{MOST_CELLS, ShortList};
use std::alloc::Global;
use std::marker::Model;

/// How much an atom adds to a counter at most, in absolute value.
pub const MOST_AMOUNT: u64 = 1_000_000_000;

/// To how much an atom raises a peak at most, in absolute value.
pub const MOST_TARGET: u64 = 1_000_000_000_000;

/// The change of one cell.
#[derive(Clone, Copy, Debug, Default, PartialEq, Eq)]
pub struct Atom {
    /// The cell's number in its shape, from 0.
    pub cell: u32,
    /// At a counter the amount that is added, at most 10^9 in absolute value; at a peak the target
    /// to which it is raised, at most 10^12 in absolute value; at a flag 1.
    pub value: i64,
}

/// At most sixteen atoms, in any order and of any values.
pub type AtomList = ShortList<Atom>;

/// Changes of several cells, made together. Contracts see it as the list of its atoms, whose cells
/// ascend strictly.
#[derive(Drop)]
pub struct Effect {
    alloc: Global,
    atoms: AtomList,
}

impl Model for Effect {
    ghost use Rattle.std.specs.Prelude.{List};
    ghost use Rattle.carol_store.specs.declared.effect.Atom.{Atom};
    ghost use Rattle.carol_store.specs.Effects.{Ascends};

    ghost Value = { List Atom };

    ghost view = { λ e. e.atoms };

    ghost invariant = { λ e. Ascends e.atoms };
}

impl Effect {
    /// The effect of these atoms, which stand in ascending order of their cells and fit the shape.
    pub fn new(alloc: Global, shape: &Shape, atoms: &[Atom]) -> Effect
        requires { IsEffect shape.now atoms.now }
        ensures { result ≡ atoms.now }
    {
        let _kinds = shape.kinds();
        Effect {
            alloc,
            atoms: AtomList::from_slice(alloc, atoms),
        }
    }

    /// An equal effect.
    pub fn copy(&self) -> Effect
        ensures { result ≡ self.now }
    {
        Effect {
            alloc: self.alloc,
            atoms: self.atoms.copy(),
        }
    }

    /// The atoms, in ascending order of their cells.
    pub fn atoms(&self) -> &[Atom]
        ensures atoms { result.now ≡ self.now }
        ensures ascend { Ascends self.now }
        ensures few { length self.now ≤ MOST_CELLS }
    {
        self.atoms.as_slice()
    }

    /// The directions in which the effect moves its cells, in their order: up for a positive
    /// amount, for each raise and for each flag, down for a negative amount, and none for an amount
    /// of zero. The effect fits the shape.
    pub fn directions(&self, shape: &Shape) -> DirectionList
        requires { IsEffect shape.now self.now }
        ensures { result ≡ directions shape.now self.now }
    {
        let mut directions = DirectionList::new(self.alloc);
        for atom in self.atoms() {
            if let Some(direction) = direction_of(shape, *atom) {
                directions.push(direction);
            }
        }
        directions
    }
}

ghost use Rattle.std.specs.Prelude.{◌≡◌, ◌≤◌, length};
ghost use Rattle.carol_store.specs.Kinds.{ways, can_go};

use crate::short_list::{MOST_CELLS, ShortList};
use std::alloc::Global;
use std::marker::Model;

/// What a cell holds, and how an atom changes it.
#[derive(Clone, Copy, Debug, Default, PartialEq, Eq)]
pub enum CellKind {
    /// A whole number, to which an atom adds its amount.
    #[default]
    Counter,
    /// A whole number, which an atom raises to its target, where that is greater.
    Peak,
    /// 0 or 1, which an atom makes 1.
    Flag,
}

impl CellKind {
    /// The ways that a cell of this kind can go: up, and a counter down, too.
    pub fn ways(self) -> &'static [bool]
        ensures { result.now ≡ ways self }
    {
        match self {
            CellKind::Counter => &[true, false],
            CellKind::Peak | CellKind::Flag => &[true],
        }
    }

    /// Whether a cell of this kind can go up, or down.
    pub fn can_go(self, up: bool) -> bool
        ensures { result ≡ can_go self up }
    {
        match self {
            CellKind::Counter => true,
            CellKind::Peak | CellKind::Flag => up,
        }
    }
}

/// The kinds of a program's cells, in their order. Contracts see it as that list.
#[derive(Drop)]
pub struct Shape {
    kinds: ShortList<CellKind>,
}

impl Model for Shape {
    ghost use Rattle.std.specs.Prelude.{List};
    ghost use Rattle.carol_store.specs.declared.shape.CellKind.{CellKind};

    ghost Value = { List CellKind };

    ghost view = { λ s. s.kinds };
}

impl Shape {
    /// The shape of cells of these kinds, of which there are at most sixteen.
    pub fn new(alloc: Global, kinds: &[CellKind]) -> Shape
        requires { length kinds.now ≤ MOST_CELLS }
        ensures { result ≡ kinds.now }
    {
        Shape {
            kinds: ShortList::from_slice(alloc, kinds),
        }
    }

    /// An equal shape.
    pub fn copy(&self) -> Shape
        ensures { result ≡ self.now }
    {
        Shape {
            kinds: self.kinds.copy(),
        }
    }

    /// The kinds of the cells, in their order.
    pub fn kinds(&self) -> &[CellKind]
        ensures kinds { result.now ≡ self.now }
        ensures few { length self.now ≤ MOST_CELLS }
    {
        self.kinds.as_slice()
    }
}

ghost use Rattle.std.specs.Prelude.{◌≡◌};
ghost use Rattle.carol_store.specs.Directions.{direction_of};
ghost use Rattle.carol_store.specs.Effects.{IsAtomOf};
ghost use Rattle.carol_store.specs.Kinds.{way};

use crate::effect::Atom;
use crate::shape::{CellKind, Shape};
use crate::short_list::ShortList;

/// A way in which one cell may move.
#[derive(Clone, Copy, Debug, Default, PartialEq, Eq)]
pub struct Direction {
    /// The cell's number in its shape, from 0.
    pub cell: u32,
    /// Whether it moves up, and not down.
    pub up: bool,
}

/// At most sixteen directions.
pub type DirectionList = ShortList<Direction>;

/// The direction in which the atom moves its cell, if it moves it.
pub fn direction_of(shape: &Shape, atom: Atom) -> Option<Direction>
    requires { IsAtomOf shape.now atom }
    ensures { result ≡ direction_of shape.now atom }
{
    let kind = shape.kinds()[atom.cell as usize];
    match is_up(kind, atom) {
        Some(up) => Some(Direction {
            cell: atom.cell,
            up,
        }),
        None => None,
    }
}

// Whether the atom moves a cell of this kind up or down, if it moves it.
fn is_up(kind: CellKind, atom: Atom) -> Option<bool>
    ensures { result ≡ way kind atom.value }
{
    match kind {
        CellKind::Counter if atom.value == 0 => None,
        CellKind::Counter => Some(atom.value > 0),
        CellKind::Peak | CellKind::Flag => Some(true),
    }
}

ghost use Rattle.std.specs.Prelude.{◌≡◌};

use crate::store_values::{cell_value, set_value, wrong_kind};
use crate::{Cells, Finder, Ground};
use carol_formula::Term;
use carol_syntax::{ValueDecl, ValueKind};
use std::alloc::{AllocError, Global};
use std::marker::Model;

/// The invariant as a place of values. Contracts see it as the declarations of its cells.
#[derive(Drop)]
pub struct InInvariant<'a, 'c> {
    cells: &'a Cells<'c>,
}

impl<'a, 'c> Model for InInvariant<'a, 'c> {
    ghost use Rattle.std.specs.Prelude.{List};
    ghost use Rattle.carol_syntax.specs.declared.cells.CellDecl.{CellDecl};

    ghost Value = { List CellDecl };

    ghost view = { λ p. p.cells.now };
}

impl<'a, 'c> InInvariant<'a, 'c> {
    /// The invariant over these cells.
    pub fn new(cells: &'a Cells<'c>) -> InInvariant<'a, 'c>
        ensures { result ≡ cells.entry.now }
    {
        InInvariant { cells }
    }
}

#[tactic(auto, using(crate::proofs::Worths::bounded))]
impl<'a, 'c> Ground for InInvariant<'a, 'c> {
    ghost use Rattle.carol_meaning.specs.Stores.{in_invariant};

    ghost look = { in_invariant };

    fn value(
        &self,
        alloc: Global,
        finder: &mut Finder,
        value: &ValueDecl,
    ) -> Result<Option<Term>, AllocError> {
        match value.kind {
            ValueKind::Plain => {
                let named = self.cells.named(value.parts.as_slice());
                cell_value(alloc, finder, 0, value, named)
            }
            ValueKind::Size => {
                let named = self.cells.named(value.parts.as_slice());
                set_value(alloc, finder, 0, value, named)
            }
            ValueKind::Outcome
            | ValueKind::Here
            | ValueKind::There
            | ValueKind::SizeHere
            | ValueKind::SizeThere => wrong_kind(alloc, finder, value),
        }
    }
}

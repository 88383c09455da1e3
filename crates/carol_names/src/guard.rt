ghost use Rattle.std.specs.Prelude.{◌≡◌};

use crate::store_values::{cell_value, no_value, set_value, wrong_kind};
use crate::{Cells, Finder, Ground};
use carol_formula::Term;
use carol_program::FIRST_THERE;
use carol_syntax::{ValueDecl, ValueKind};
use std::alloc::{AllocError, Global};
use std::marker::Model;

/// A guard as a place of values. Contracts see it as the declarations of its cells.
#[derive(Drop)]
pub struct InGuard<'a, 'c> {
    cells: &'a Cells<'c>,
}

impl<'a, 'c> Model for InGuard<'a, 'c> {
    ghost use Rattle.std.specs.Prelude.{List};
    ghost use Rattle.carol_syntax.specs.declared.cells.CellDecl.{CellDecl};

    ghost Value = { List CellDecl };

    ghost view = { λ p. p.cells.now };
}

impl<'a, 'c> InGuard<'a, 'c> {
    /// A guard over these cells.
    pub fn new(cells: &'a Cells<'c>) -> InGuard<'a, 'c>
        ensures { result ≡ cells.entry.now }
    {
        InGuard { cells }
    }
}

#[tactic(auto, using(crate::proofs::Worths::bounded))]
impl<'a, 'c> Ground for InGuard<'a, 'c> {
    ghost use Rattle.carol_meaning.specs.Stores.{in_guard};

    ghost look = { in_guard };

    fn value(
        &self,
        alloc: Global,
        finder: &mut Finder,
        value: &ValueDecl,
    ) -> Result<Option<Term>, AllocError> {
        let named = self.cells.named(value.parts.as_slice());
        match value.kind {
            ValueKind::Here => cell_value(alloc, finder, 0, value, named),
            ValueKind::There => cell_value(alloc, finder, FIRST_THERE, value, named),
            ValueKind::SizeHere => set_value(alloc, finder, 0, value, named),
            ValueKind::SizeThere => set_value(alloc, finder, FIRST_THERE, value, named),
            ValueKind::Plain => no_value(alloc, finder, value, named),
            ValueKind::Outcome | ValueKind::Size => wrong_kind(alloc, finder, value),
        }
    }
}

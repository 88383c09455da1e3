ghost use Rattle.std.specs.Prelude.{◌≡◌, ◌≤◌, length, map};
ghost use Rattle.carol_meaning.specs.Declarations.{place_of};
ghost use Rattle.carol_names.specs.Numbered.{most_numbers};

use carol_names::{Cells, place_of};
use carol_syntax::GuardDecl;
use std::marker::Model;

/// What the program declares that a body can name: its cells and its guards.
#[derive(Drop)]
pub struct Around<'a> {
    cells: &'a Cells<'a>,
    guards: &'a [GuardDecl],
}

impl<'a> Model for Around<'a> {
    ghost use Rattle.std.specs.Prelude.{◌≤◌, length, map};
    ghost use Rattle.carol_meaning.specs.Bodies as bodies;
    ghost use Rattle.carol_names.specs.Numbered.{most_numbers};

    ghost Value = { bodies.Around };

    ghost view = { λ a. record { cells = a.cells.now; guards = map (λ g. g.name) a.guards.now } };

    ghost invariant = { λ a. length a.guards.now ≤ most_numbers };
}

impl<'a> Around<'a> {
    /// These cells, and these guards, of which there are at most 2^28.
    pub fn new(cells: &'a Cells<'a>, guards: &'a [GuardDecl]) -> Around<'a>
        requires { length guards.now ≤ most_numbers }
        ensures { result ≡
            record { cells = cells.entry.now; guards = map (λ g. g.name) guards.entry.now } }
    {
        Around { cells, guards }
    }

    /// Its cells.
    pub fn cells(&self) -> &Cells<'a>
        ensures { result.now ≡ self.now.cells }
    {
        self.cells
    }

    /// The number of the guard with this name.
    pub(crate) fn guard(&self, word: &[u8]) -> Option<u32>
        ensures { result ≡ place_of word.now self.now.guards }
    {
        place_of(self.guards, word)
    }
}

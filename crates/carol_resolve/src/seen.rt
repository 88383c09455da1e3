ghost use Rattle.std.specs.Prelude.{◌≡◌, ◌∷◌, [], OnOk, IfOk, not};
ghost use Rattle.carol_meaning.specs.Bodies.{has_number};
ghost use Rattle.carol_resolve.specs.Issues.{HasSame};

use indexmap::IndexSet;
use std::alloc::{AllocError, Global};
use std::marker::Model;

/// The cells that an issue has changed so far, each once.
#[derive(Drop)]
pub(crate) struct Seen {
    cells: IndexSet<u32>,
}

impl Model for Seen {
    ghost use Rattle.std.specs.Prelude.{List, ℕ};

    ghost Value = { List ℕ };

    ghost view = { λ s. s.cells.keys };
}

impl Seen {
    /// No cell.
    pub(crate) fn new(alloc: Global) -> Seen
        ensures { result ≡ [] }
    {
        Seen {
            cells: IndexSet::new(alloc),
        }
    }

    /// One cell more. Tells whether it was not there.
    pub(crate) fn add(&mut self, cell: u32) -> Result<bool, AllocError>
        ensures fresh { IfOk result (λ fresh. fresh ≡ not (has_number cell self.old)) }
        ensures added { OnOk result (HasSame self.new (cell ∷ self.old)) }
    {
        let fresh = self.cells.insert(cell)?;
        Ok(fresh)
    }
}

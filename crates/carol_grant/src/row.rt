ghost use Rattle.std.specs.Prelude.{◌≡◌, length, IfOk};
ghost use Rattle.std.specs.List.{AllByRecursion};
ghost use Rattle.carol_grant.specs.Kept.{IsBare};

use crate::tally::Tally;
use carol_program::MOST_GUARDS;
use std::alloc::{AllocError, Global};

/// The grants of one session: whether each guard is granted to it, and how many of those that are
/// lack each way.
#[derive(Clone, Copy)]
pub struct Row {
    pub live: [bool; MOST_GUARDS],
    pub tally: Tally,
}

impl Row {
    /// Nothing is granted.
    pub fn new() -> Row
        ensures { IsBare result }
    {
        Row {
            live: [false; MOST_GUARDS],
            tally: Tally::new(),
        }
    }
}

/// This many rows in which nothing is granted.
pub fn bare_rows(alloc: Global, sessions: u32) -> Result<Vec<Row>, AllocError>
    ensures count { IfOk result (λ rows. length rows.items ≡ sessions) }
    ensures bare { IfOk result (λ rows. AllByRecursion IsBare rows.items) }
{
    let mut rows = Vec::new(alloc);
    for _ in 0..sessions {
        rows.push(Row::new())?;
    }
    Ok(rows)
}

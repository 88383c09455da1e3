ghost use Rattle.std.specs.Prelude.{◌≡◌, ℕ, ◌<◌, ◌==◌, ◌&&◌, if◌then◌else◌};
ghost use Rattle.carol_program.specs.Limits.{most_guards, most_replicas};
ghost use Rattle.carol_house.specs.Kept.{settled_below};

use carol_program::{MOST_GUARDS, MOST_REPLICAS};
use std::marker::Model;

/// For each replica and guard an entry below which all are held or admitted. Contracts see it as a
/// row for each replica.
#[derive(Drop)]
pub struct Settled {
    below: [[u32; MOST_GUARDS]; MOST_REPLICAS],
}

impl Model for Settled {
    ghost use Rattle.std.specs.Prelude.{List, ℕ};
    ghost use Rattle.carol_house.specs.Rows.{IsWide};

    ghost Value = { List (List ℕ) };

    ghost view = { λ s. s.below };

    ghost invariant = { λ s. IsWide s.below };
}

impl Settled {
    /// Each is the first entry.
    pub fn new() -> Settled
        ensures { (replica guard : ℕ) → replica < most_replicas → guard < most_guards
            → settled_below result replica guard ≡ 0 }
    {
        Settled {
            below: [[0; MOST_GUARDS]; MOST_REPLICAS],
        }
    }

    /// The entry for the replica and the guard. Both are in range.
    pub fn below(&self, replica: u32, guard: u32) -> u32
        requires replica { replica < most_replicas }
        requires guard { guard < most_guards }
        ensures { result ≡ settled_below self.now replica guard }
    {
        self.below[replica as usize][guard as usize]
    }

    /// Makes it this entry. Both are in range.
    pub fn set(&mut self, replica: u32, guard: u32, entry: u32)
        requires replica { replica < most_replicas }
        requires guard { guard < most_guards }
        ensures { (r g : ℕ) → r < most_replicas → g < most_guards
            → settled_below self.new r g
            ≡ (if (replica == r) && (guard == g) then entry else settled_below self.old r g) }
    {
        self.below[replica as usize][guard as usize] = entry;
    }
}

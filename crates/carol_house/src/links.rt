ghost use Rattle.std.specs.Prelude.{◌≡◌, ℕ, ◌<◌, true, if◌then◌else◌};
ghost use Rattle.carol_program.specs.Limits.{most_replicas};
ghost use Rattle.carol_history.specs.Links.{is_pair};
ghost use Rattle.carol_house.specs.Kept.{are_joined};

use carol_program::MOST_REPLICAS;
use std::marker::Model;

/// Which replicas are joined. Contracts see it as a row for each replica.
#[derive(Drop)]
pub struct Links {
    joined: [[bool; MOST_REPLICAS]; MOST_REPLICAS],
}

impl Model for Links {
    ghost use Rattle.std.specs.Prelude.{List, Bool};
    ghost use Rattle.carol_house.specs.Rows.{IsSquare};

    ghost Value = { List (List Bool) };

    ghost view = { λ l. l.joined };

    ghost invariant = { λ l. IsSquare l.joined };
}

impl Links {
    /// All are joined.
    pub fn new() -> Links
        ensures { (a b : ℕ) → a < most_replicas → b < most_replicas
            → are_joined result a b ≡ true }
    {
        Links {
            joined: [[true; MOST_REPLICAS]; MOST_REPLICAS],
        }
    }

    /// Whether the two are joined. Both are replicas.
    pub fn joined(&self, a: u32, b: u32) -> bool
        requires one { a < most_replicas }
        requires other { b < most_replicas }
        ensures { result ≡ are_joined self.now a b }
    {
        self.joined[a as usize][b as usize]
    }

    /// Joins the two, or cuts them off from each other where `up` is false. Both are replicas.
    pub fn set(&mut self, a: u32, b: u32, up: bool)
        requires one { a < most_replicas }
        requires other { b < most_replicas }
        ensures { (x y : ℕ) → x < most_replicas → y < most_replicas → are_joined self.new x y
            ≡ (if is_pair a b x y then up else are_joined self.old x y) }
    {
        self.joined[a as usize][b as usize] = up;
        self.joined[b as usize][a as usize] = up;
    }
}

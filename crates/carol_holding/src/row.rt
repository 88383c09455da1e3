ghost use Rattle.std.specs.Prelude.{◌≡◌, ℕ, ◌<◌, ◌==◌, ◌||◌, true, false, OnOk};
ghost use Rattle.carol_holding.specs.Held.{has_entry};
ghost use Rattle.carol_holding.specs.Rows.{IsFirstLacked, nothing};

use crate::marks;
use std::alloc::{AllocError, Global};
use std::marker::Model;

/// How many entries there are at most.
pub const MOST_ENTRIES: u32 = 131_072;

/// How many words have a mark for each of them.
pub const MOST_WORDS: usize = (MOST_ENTRIES / u64::BITS) as usize;

/// The entries that one replica holds, each of them marked; all below the front are. Contracts see
/// it as what is held, and whether there is room for any entry.
#[derive(Drop)]
pub struct Row {
    front: u32,
    marks: Vec<u64>,
}

impl Model for Row {
    ghost use Rattle.std.specs.Prelude.{nat_le};
    ghost use Rattle.std.specs.Vec.{vec_capacity};
    ghost use Rattle.carol_holding.specs.declared.row.TheConstants.{MOST_WORDS};
    ghost use Rattle.carol_holding.specs.Rows.{HeldRow, IsKept, held_of};

    ghost Value = { HeldRow };

    ghost view = { λ r. record {
      held = held_of r.front r.marks.items;
      has_room = nat_le MOST_WORDS (vec_capacity r.marks);
    } };

    ghost invariant = { λ r. IsKept r.front r.marks.items };
}

impl Row {
    /// A row that holds nothing.
    pub fn new(alloc: Global) -> Row
        ensures { result.held ≡ nothing }
    {
        Row {
            front: 0,
            marks: Vec::new(alloc),
        }
    }

    /// Whether the entry is held.
    pub fn has(&self, entry: u32) -> bool
        ensures { result ≡ has_entry self.now.held entry }
    {
        marks::is_marked(&self.marks, entry)
    }

    /// The lowest entry that isn't held.
    pub fn front(&self) -> u32
        ensures value { result ≡ self.now.held.front }
        ensures lacks { has_entry self.now.held result ≡ false }
    {
        self.front
    }

    /// The lowest entry that is held here and that the other row lacks. It is looked for 64 at a
    /// time, and not below the other's front.
    pub fn first_beyond(&self, other: &Row) -> Option<u32>
        ensures { IsFirstLacked self.now.held other.now.held result }
    {
        marks::first_beyond(
            &self.marks,
            &other.marks,
            (other.front / u64::BITS) as usize,
        )
    }

    /// Takes room for any entry. What is held stays, whatever is answered.
    pub fn reserve(&mut self) -> Result<(), AllocError>
        ensures held { self.new.held ≡ self.old.held }
        ensures room { self.old.has_room ≡ true → self.new.has_room ≡ true }
        ensures ok { OnOk result (self.new.has_room ≡ true) }
    {
        self.marks.reserve(MOST_WORDS - self.marks.len())
    }

    /// Adds the entry. There is room for any.
    pub fn add(&mut self, entry: u32)
        requires entry { entry < MOST_ENTRIES }
        requires room { self.old.has_room ≡ true }
        ensures each { (i : ℕ) → has_entry self.new.held i
            ≡ ((entry == i) || has_entry self.old.held i) }
        ensures room { self.new.has_room ≡ true }
    {
        marks::mark(&mut self.marks, entry);
        self.front = marks::first_unmarked(&self.marks, self.front);
    }
}

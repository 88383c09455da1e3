ghost use Rattle.std.specs.Prelude.{◌≡◌, ℕ, ◌<◌, ◌≤◌, length, true, false, IfOk, OnOk, OnErr};
ghost use Rattle.carol_holding.specs.Held.{Adds, IsFirstMissing, holds};
ghost use Rattle.carol_holding.specs.Rows.{HaveRoom, held_by};

use crate::row::{MOST_ENTRIES, Row};
use std::alloc::{AllocError, Global};
use std::marker::Model;

/// Which replica holds which entries, and room for a number of entries more. Contracts see it as
/// these.
#[derive(Drop)]
pub struct Holding {
    rows: Vec<Row>,
    spare: u32,
}

impl Model for Holding {
    ghost use Rattle.std.specs.Prelude.{◌≤◌};
    ghost use Rattle.carol_holding.specs.Held as held;
    ghost use Rattle.carol_holding.specs.Rows.{held_by, HaveRoom};

    ghost Value = { held.Holding };

    ghost view = { λ h. record { replicas = held_by h.rows.items; spare = h.spare } };

    ghost invariant = { λ h. 1 ≤ h.spare → HaveRoom h.rows.items };
}

impl Holding {
    /// Of this many replicas, none of which holds an entry.
    pub fn new(alloc: Global, replicas: u32) -> Result<Holding, AllocError>
        ensures count { IfOk result (λ h. length h.replicas ≡ replicas) }
        ensures nothing { IfOk result (λ h. (r i : ℕ) → holds h r i ≡ false) }
    {
        let mut rows = Vec::new(alloc);
        for _ in 0..replicas {
            rows.push(Row::new(alloc))?;
        }
        Ok(Holding { rows, spare: 0 })
    }

    /// Whether the replica, which is in range, holds the entry.
    pub fn has(&self, replica: u32, entry: u32) -> bool
        requires { replica < length self.now.replicas }
        ensures { result ≡ holds self.now replica entry }
    {
        self.rows[replica as usize].has(entry)
    }

    /// The lowest entry that the replica, which is in range, doesn't hold: it is the number of
    /// entries up to which all are held.
    pub fn front(&self, replica: u32) -> u32
        requires { replica < length self.now.replicas }
        ensures below { (i : ℕ) → i < result → holds self.now replica i ≡ true }
        ensures lacks { holds self.now replica result ≡ false }
    {
        self.rows[replica as usize].front()
    }

    /// The lowest entry that the one replica holds and the other lacks. Both are in range.
    pub fn first_missing(&self, from: u32, to: u32) -> Option<u32>
        requires from { from < length self.now.replicas }
        requires to { to < length self.now.replicas }
        ensures { IsFirstMissing self.now from to result }
    {
        self.rows[from as usize].first_beyond(&self.rows[to as usize])
    }

    /// Takes memory for this many entries more. Where there is none nothing changes; while it was
    /// taken before there is some.
    pub fn reserve(&mut self, entries: u32) -> Result<(), AllocError>
        requires { entries ≤ MOST_ENTRIES }
        ensures ok { OnOk result (entries ≤ self.new.spare) }
        ensures replicas { self.new.replicas ≡ self.old.replicas }
        ensures grows { self.old.spare ≤ self.new.spare }
        ensures err { OnErr result ((self.old.spare < entries) × (self.new ≡ self.old)) }
    {
        if self.spare < entries {
            reserve_all(&mut self.rows)?;
            self.spare = entries;
        }
        Ok(())
    }

    /// The replica, which is in range, holds this entry too. Memory was taken for one more.
    pub fn add(&mut self, replica: u32, entry: u32)
        requires spare { 1 ≤ self.old.spare }
        requires replica { replica < length self.old.replicas }
        requires entry { entry < MOST_ENTRIES }
        ensures { Adds self.old replica entry self.new }
    {
        self.rows[replica as usize].add(entry);
        self.spare -= 1;
    }
}

// Takes room for any entry in each row.
fn reserve_all(rows: &mut Vec<Row>) -> Result<(), AllocError>
    ensures held { held_by rows.new.items ≡ held_by rows.old.items }
    ensures room { HaveRoom rows.old.items → HaveRoom rows.new.items }
    ensures ok { OnOk result (HaveRoom rows.new.items) }
{
    for row in rows.iter_mut() {
        row.reserve()?;
    }
    Ok(())
}

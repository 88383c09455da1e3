ghost use Rattle.std.specs.Prelude.{◌≡◌, ◌+◌, ◌<◌, ◌≤◌, [], ◌∷◌, ◌++◌, length, get_or, IfOk, OnOk, OnErr};
ghost use Rattle.carol_store.specs.Effects.{IsEffect};

use carol_holding::MOST_ENTRIES;
use carol_store::{Atom, Effect, MOST_CELLS, Shape};
use std::alloc::{AllocError, Global};
use std::marker::Model;

/// Where the atoms of an entry stand in the journal's list.
#[derive(Clone, Copy)]
pub struct Row {
    /// The place of the first one, from 0.
    pub start: u32,
    /// How many there are.
    pub len: u32,
}

/// The effects that were issued, in order, at most 131,072. Contracts see it as these, with how
/// many can be added before memory is taken again.
#[derive(Drop)]
pub struct Journal {
    rows: Vec<Row>,
    atoms: Vec<Atom>,
    spare: u32,
}

impl Model for Journal {
    ghost use Rattle.std.specs.Prelude.{map};
    ghost use Rattle.std.specs.Vec.{vec_capacity};
    ghost use Rattle.carol_replica.specs.Entries as entries;
    ghost use Rattle.carol_replica.specs.Rows.{IsKept, atoms_of};

    ghost Value = { entries.Journal };

    ghost view = { λ j. record {
      entries = map (atoms_of j.atoms.items) j.rows.items;
      spare = j.spare;
    } };

    ghost invariant = { λ j. IsKept j.rows.items j.atoms.items j.spare (vec_capacity j.rows)
        (vec_capacity j.atoms) };
}

impl Journal {
    /// A journal with no entries.
    pub fn new(alloc: Global) -> Journal
        ensures { result ≡ record { entries = []; spare = 0 } }
    {
        Journal {
            rows: Vec::new(alloc),
            atoms: Vec::new(alloc),
            spare: 0,
        }
    }

    /// Takes memory for this many entries more. Where there is none nothing changes; while it was
    /// taken before there is some.
    pub fn reserve(&mut self, entries: u32) -> Result<(), AllocError>
        requires { entries ≤ MOST_ENTRIES }
        ensures ok { OnOk result (entries ≤ self.new.spare) }
        ensures entries { self.new.entries ≡ self.old.entries }
        ensures grows { self.old.spare ≤ self.new.spare }
        ensures err { OnErr result ((self.old.spare < entries) × (self.new ≡ self.old)) }
    {
        if entries <= self.spare {
            return Ok(());
        }
        self.rows.reserve(entries as usize)?;
        self.atoms.reserve(entries as usize * MOST_CELLS)?;
        self.spare = entries;
        Ok(())
    }

    /// Appends a copy of the effect, and answers the new entry's number. There are fewer than
    /// 131,072 entries. Where there is no memory nothing changes; while it was taken before there
    /// is some.
    pub fn push(&mut self, effect: &Effect) -> Result<u32, AllocError>
        requires { length self.old.entries < MOST_ENTRIES }
        ensures number { IfOk result (λ entry. entry ≡ length self.old.entries) }
        ensures entries { OnOk result (self.new.entries ≡ self.old.entries ++ effect.now ∷ []) }
        ensures spare { OnOk result (self.old.spare ≤ self.new.spare + 1) }
        ensures err { OnErr result ((self.old.spare ≡ 0) × (self.new ≡ self.old)) }
    {
        let entry = self.len();
        self.reserve(1)?;
        self.append(effect.atoms());
        Ok(entry)
    }

    // Appends an entry of these atoms, for which there is room.
    fn append(&mut self, atoms: &[Atom])
        requires few { length self.old.entries < MOST_ENTRIES }
        requires narrow { length atoms.now ≤ MOST_CELLS }
        requires room { 1 ≤ self.old.spare }
        ensures entries { self.new.entries ≡ self.old.entries ++ atoms.now ∷ [] }
        ensures spare { self.old.spare ≡ self.new.spare + 1 }
    {
        let start = self.atoms.len() as u32;
        self.atoms.extend_from_slice(atoms).unwrap();
        self.rows.push_reserved(Row {
            start,
            len: atoms.len() as u32,
        });
        self.spare -= 1;
    }

    /// The effect of the entry, which is in range, and fits the shape.
    pub fn entry(&self, shape: &Shape, i: u32) -> Effect
        requires inside { i < length self.now.entries }
        requires fits { IsEffect shape.now (get_or self.now.entries i []) }
        ensures { result ≡ get_or self.now.entries i [] }
    {
        let row = self.rows[i as usize];
        let (_, behind) = self.atoms.as_slice().split_at(row.start as usize);
        let (atoms, _) = behind.split_at(row.len as usize);
        Effect::new(*self.atoms.allocator(), shape, atoms)
    }

    /// The number of entries.
    pub fn len(&self) -> u32
        ensures value { result ≡ length self.now.entries }
        ensures few { length self.now.entries ≤ MOST_ENTRIES }
    {
        self.rows.len() as u32
    }
}

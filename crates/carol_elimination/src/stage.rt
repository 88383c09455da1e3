ghost use Rattle.std.specs.Prelude.{◌≡◌, ◌<◌, [], ◌∷◌, length, IsTrue, List, OnOk};
ghost use Rattle.carol_formula.specs.Linear.{Linear};
ghost use Rattle.carol_elimination.specs.Tightened.{tightened};
ghost use Rattle.carol_elimination.specs.Derived.{AreDerived};
ghost use Rattle.carol_elimination.specs.Entries.{row_in, rows_in, AreInside, Grow, IsMade};
ghost use Rattle.carol_elimination.specs.declared.stage.Verdict.TheVariants.{LeftOut};
ghost use Rattle.carol_elimination.specs.Extends.{Extend, IsVerdict, IsKnown, placed};

use crate::arena::Arena;
use crate::combination::content;
use carol_cert::RowStep;
use carol_formula::{Term, Variable, is_same};
use std::alloc::{AllocError, Global};
use std::collections::BTreeMap;

/// Numbers of rows that stand for all rows of a stage. Rows with the same coefficients are found by
/// a number that is made of these.
#[derive(Drop)]
pub struct Stage {
    rows: Vec<u32>,
    places: BTreeMap<u64, usize>,
}

/// What becomes of a row that comes to a stage.
#[derive(Clone, Copy)]
pub enum Verdict {
    /// It says no more than a row of the stage.
    LeftOut,
    /// It says more than the row at the place, with the same coefficients.
    Replaces(usize),
    /// It is added.
    New,
}

impl Verdict {
    fn is_left_out(self) -> bool
        ensures { IsTrue result → self ≡ LeftOut }
    {
        matches!(self, Verdict::LeftOut)
    }
}

// A prime below 2^61.
const PRIME: u128 = 2_305_843_009_213_693_951;

const FACTOR: u128 = 1_000_003;

// The key with one product more.
fn mixed(key: u64, product: &(Variable, i128)) -> u64 {
    let Variable(variable) = product.0;
    let sign: u128 = if product.1 < 0 { 1 } else { 2 };
    let size = product.1.unsigned_abs() % PRIME;
    ((u128::from(key) * FACTOR + u128::from(variable) + size * 3 + sign) % PRIME) as u64
}

// A number that is the same for rows with the same coefficients, and seldom for others.
fn key_of(row: &Term) -> u64 {
    let mut key = 0;
    for product in row.pairs() {
        key = mixed(key, product);
    }
    key
}

// Whether the rows have the same coefficients.
fn same_coefficients(one: &Term, other: &Term) -> bool
    ensures { IsTrue result → one.now.pairs ≡ other.now.pairs }
{
    let mut left = one.pairs();
    let mut right = other.pairs();
    while let Some((first, more)) = left.split_first() {
        match right.split_first() {
            Some((second, rest)) if is_same(first, second) => {
                left = more;
                right = rest;
            }
            _ => return false,
        }
    }
    right.is_empty()
}

impl Stage {
    /// No rows.
    pub fn new(alloc: Global) -> Stage
        ensures { result.rows.items ≡ [] }
    {
        Stage {
            rows: Vec::new(alloc),
            places: BTreeMap::new(alloc),
        }
    }

    /// The numbers alone.
    pub fn into_rows(self) -> Vec<u32>
        ensures { result.items ≡ self.rows.items }
    {
        let Stage { rows, places: _ } = self;
        rows
    }

    // What becomes of the row.
    fn verdict(&self, arena: &Arena, row: &Term) -> Verdict
        requires { AreInside arena.now self.now.rows.items }
        ensures { IsVerdict (rows_in arena.now self.now.rows.items) row.now result }
    {
        if row.pairs().is_empty() && row.rest() <= 0 {
            return Verdict::LeftOut;
        }
        let Some(place) = self.places.get(&key_of(row)) else {
            return Verdict::New;
        };
        if *place < self.rows.len() {
            self.compared(arena, row, *place)
        } else {
            Verdict::New
        }
    }

    // What becomes of the row beside the one at the place.
    fn compared(&self, arena: &Arena, row: &Term, place: usize) -> Verdict
        requires inside { AreInside arena.now self.now.rows.items }
        requires known { place < length self.now.rows.items }
        ensures { IsVerdict (rows_in arena.now self.now.rows.items) row.now result }
    {
        let other = arena.row(self.rows[place]);
        if !same_coefficients(row, other) {
            Verdict::New
        } else if row.rest() <= other.rest() {
            Verdict::LeftOut
        } else {
            Verdict::Replaces(place)
        }
    }

    // Puts the number of a row to its place.
    fn put(&mut self, verdict: Verdict, key: u64, at: u32) -> Result<(), AllocError>
        requires { IsKnown verdict (length self.old.rows.items) }
        ensures { OnOk result (self.new.rows.items ≡ placed verdict at self.old.rows.items) }
    {
        match verdict {
            Verdict::LeftOut => Ok(()),
            Verdict::Replaces(place) => {
                self.rows[place] = at;
                Ok(())
            }
            Verdict::New => {
                self.places.insert(key, self.rows.len())?;
                self.rows.push(at)?;
                Ok(())
            }
        }
    }

    /// Takes a row that was made before.
    pub fn keep(&mut self, arena: &Arena, at: u32) -> Result<(), AllocError>
        requires inside { AreInside arena.now self.old.rows.items }
        requires known { at < length arena.now }
        ensures inside { OnOk result (AreInside arena.now self.new.rows.items) }
        ensures extend { OnOk result (Extend (rows_in arena.now self.old.rows.items)
            (rows_in arena.now self.new.rows.items) (row_in arena.now at ∷ [])) }
    {
        let row = arena.row(at);
        let verdict = self.verdict(arena, row);
        self.put(verdict, key_of(row), at)?;
        Ok(())
    }

    /// Takes a row that a step makes, divided by the greatest common divisor of its coefficients.
    pub fn add(&mut self, arena: &mut Arena, step: RowStep, row: Term) -> Result<(), AllocError>
        requires { AreInside arena.old self.old.rows.items }
        ensures inside { OnOk result (AreInside arena.new self.new.rows.items) }
        ensures extend { OnOk result (Extend (rows_in arena.old self.old.rows.items)
            (rows_in arena.new self.new.rows.items) (tightened row ∷ [])) }
        ensures grow { OnOk result (Grow arena.old arena.new) }
        ensures derived { OnOk result ((given : List Linear) → IsMade given arena.old step row
            → AreDerived given arena.old → AreDerived given arena.new) }
    {
        let divisor = content(&row);
        if divisor <= 1 {
            return self.add_whole(arena, step, row);
        }
        let divided = row.divide(divisor as i128)?;
        let verdict = self.verdict(arena, &divided);
        if verdict.is_left_out() {
            return Ok(());
        }
        let key = key_of(&divided);
        let a = arena.push(step, row)?;
        let d = divisor as i128;
        let at = arena.push(RowStep::Tighten { a, d }, divided)?;
        self.put(verdict, key, at)?;
        Ok(())
    }

    // Takes a row that a step makes.
    fn add_whole(&mut self, arena: &mut Arena, step: RowStep, row: Term) -> Result<(), AllocError>
        requires { AreInside arena.old self.old.rows.items }
        ensures inside { OnOk result (AreInside arena.new self.new.rows.items) }
        ensures extend { OnOk result (Extend (rows_in arena.old self.old.rows.items)
            (rows_in arena.new self.new.rows.items) (row ∷ [])) }
        ensures grow { OnOk result (Grow arena.old arena.new) }
        ensures derived { OnOk result ((given : List Linear) → IsMade given arena.old step row
            → AreDerived given arena.old → AreDerived given arena.new) }
    {
        let verdict = self.verdict(arena, &row);
        if verdict.is_left_out() {
            return Ok(());
        }
        let key = key_of(&row);
        let at = arena.push(step, row)?;
        self.put(verdict, key, at)?;
        Ok(())
    }
}

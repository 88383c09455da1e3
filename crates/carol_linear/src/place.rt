ghost use Rattle.std.specs.Prelude.{◌≡◌, ◌<◌, ◌↔◌, length, IfOk, IfSome, IsTrue, OnOk};
ghost use Rattle.carol_elimination.specs.Stands.{Dominates};
ghost use Rattle.carol_elimination.specs.Derived.{row_at};
ghost use Rattle.carol_elimination.specs.Entries.{terms_of};
ghost use Rattle.carol_linear.specs.Near.{Adds, rows_back, names_back};

use carol_cert::RowStep;
use carol_formula::{Row, is_same};
use std::alloc::{AllocError, Global};
use std::mem;

/// A row with its name, and where it stood before another row took its place.
#[derive(Drop)]
pub struct Covered {
    pub place: usize,
    pub row: Row,
    pub name: RowStep,
}

/// Rows that stand for all rows at a place of the search, each with its name.
#[derive(Drop)]
pub struct Place {
    pub rows: Vec<Row>,
    pub names: Vec<RowStep>,
}

// Whether the rows bound one variable from the same side, the first one at least as tightly.
fn is_tighter(row: &Row, other: &Row) -> bool
    ensures { IsTrue result → Dominates row.now.0 other.now.0 }
{
    match (row.0.pairs(), other.0.pairs()) {
        ([one], [same]) => is_same(one, same) && row.0.rest() >= other.0.rest(),
        _ => false,
    }
}

// The number of a row that this one makes needless.
fn looser(rows: &[Row], row: &Row) -> Option<usize>
    ensures { IfSome result (λ at. (at < length rows.now)
        × Dominates row.now.0 (row_at (terms_of rows.now) at)) }
{
    for at in 0..rows.len() {
        if is_tighter(row, &rows[at]) {
            return Some(at);
        }
    }
    None
}

impl Place {
    /// Equal rows and names.
    pub fn new(alloc: Global, rows: &[Row], names: &[RowStep]) -> Result<Place, AllocError>
        ensures rows { IfOk result (λ place. terms_of place.rows.items ≡ terms_of rows.now) }
        ensures names { IfOk result (λ place. place.names.items ≡ names.now) }
    {
        Ok(Place {
            rows: copied(alloc, rows)?,
            names: Vec::from_slice(alloc, names)?,
        })
    }

    /// Appends a row.
    pub fn push(&mut self, row: Row, name: RowStep) -> Result<(), AllocError>
        ensures { OnOk result (Adds self.old self.new row.0 name None) }
    {
        self.rows.push(row)?;
        self.names.push(name)?;
        Ok(())
    }

    /// Takes a row up: in place of one that it makes needless, which is answered, or else as the
    /// last one.
    pub fn add(&mut self, row: Row, name: RowStep) -> Result<Option<Covered>, AllocError>
        ensures { IfOk result (Adds self.old self.new row.0 name) }
    {
        match looser(&self.rows, &row) {
            Some(place) if place < self.names.len() => { Ok(Some(self.exchange(place, row, name))) }
            _ => {
                self.push(row, name)?;
                Ok(None)
            }
        }
    }

    // Puts a row in place of one that it makes needless.
    fn exchange(&mut self, place: usize, row: Row, name: RowStep) -> Covered
        requires known { place < length self.old.rows.items }
        requires named { place < length self.old.names.items }
        requires tighter { Dominates row.0 (row_at (terms_of self.old.rows.items) place) }
        ensures { Adds self.old self.new row.0 name (Some result) }
    {
        let was = mem::replace(&mut self.names[place], name);
        Covered {
            place,
            row: mem::replace(&mut self.rows[place], row),
            name: was,
        }
    }

    /// Takes away the row that was taken up last, and puts back what it covered.
    pub fn take_back(&mut self, covered: Option<Covered>)
        ensures rows { self.new.rows.items ≡ rows_back covered self.old.rows.items }
        ensures names { self.new.names.items ≡ names_back covered self.old.names.items }
    {
        match covered {
            Some(covered) => {
                let Covered { place, row, name } = covered;
                if place < self.rows.len() {
                    self.rows[place] = row;
                }
                if place < self.names.len() {
                    self.names[place] = name;
                }
            }
            None => {
                let _row = self.rows.pop();
                let _name = self.names.pop();
            }
        }
    }
}

// Equal rows.
fn copied(alloc: Global, rows: &[Row]) -> Result<Vec<Row>, AllocError>
    ensures { IfOk result (λ v. terms_of v.items ≡ terms_of rows.now) }
{
    let mut copies = Vec::new(alloc);
    for row in rows {
        copies.push(Row(row.0.copy()?))?;
    }
    Ok(copies)
}

//! The tableau: rows that give forms by others, the bounds of the forms, and what undoes them.

use crate::form::{Bound, Form, Forms, Kind, Product, Reason};
use crate::list::{add, at, get, get_mut};
use crate::number::{Fraction, common_divisor, floor, fused, negated, product, size, sum};
use crate::stop::{Fuel, Stop};
use std::alloc::Global;

/// A row of the tableau: its form, times the denominator, is the sum of the forms of the columns,
/// each with its entry.
#[derive(Debug, Drop)]
pub struct TableauRow {
    pub form: usize,
    pub denominator: i128,
    pub entries: Vec<i128>,
    /// The form's number times the denominator.
    pub value: i128,
}

/// A row that is used so many times.
#[derive(Debug, Clone, Copy)]
pub struct Cited {
    pub reason: Reason,
    pub times: i128,
}

// A bound that was replaced.
#[derive(Debug, Clone, Copy)]
struct Change {
    form: usize,
    is_upper: bool,
    was: Option<Bound>,
}

/// How far bounds had been set.
#[derive(Debug, Clone, Copy)]
pub struct Mark {
    changes: usize,
    listed: usize,
    used: usize,
}

/// The tableau.
#[derive(Debug, Drop)]
pub struct Tableau {
    pub forms: Forms,
    pub rows: Vec<TableauRow>,
    /// The form of each column.
    pub columns: Vec<usize>,
    changes: Vec<Change>,
    /// The forms with bounds that aren't variables, in the order of their bounds.
    pub listed: Vec<usize>,
    /// The parts that these use, one for each use.
    pub used: Vec<usize>,
    pub fuel: Fuel,
}

impl Tableau {
    /// No bounds and no rows.
    pub fn new(alloc: Global, forms: Forms, fuel: Fuel) -> Tableau {
        Tableau {
            forms,
            rows: Vec::new(alloc),
            columns: Vec::new(alloc),
            changes: Vec::new(alloc),
            listed: Vec::new(alloc),
            used: Vec::new(alloc),
            fuel,
        }
    }

    /// The form with the number.
    pub fn form(&self, form: usize) -> Result<&Form, Stop> {
        get(&self.forms.list, form)
    }

    /// The form with the number, to be changed.
    pub fn form_mut(&mut self, form: usize) -> Result<&mut Form, Stop> {
        get_mut(&mut self.forms.list, form)
    }

    /// How far bounds have been set.
    pub fn mark(&self) -> Mark {
        Mark {
            changes: self.changes.len(),
            listed: self.listed.len(),
            used: self.used.len(),
        }
    }

    /// Takes back what was set since. The numbers stay.
    pub fn undo(&mut self, mark: Mark) -> Result<(), Stop> {
        for _ in mark.changes..self.changes.len() {
            if let Some(change) = self.changes.pop() {
                let form = self.form_mut(change.form)?;
                if change.is_upper {
                    form.upper = change.was;
                } else {
                    form.lower = change.was;
                }
            }
        }
        for _ in mark.listed..self.listed.len() {
            if let Some(form) = self.listed.pop() {
                self.form_mut(form)?.is_listed = false;
            }
        }
        for _ in mark.used..self.used.len() {
            if let Some(part) = self.used.pop() {
                let form = self.form_mut(part)?;
                form.uses = form.uses.saturating_sub(1);
            }
        }
        Ok(())
    }

    /// The form's number in the present model.
    pub fn value(&self, form: usize) -> Result<Fraction, Stop> {
        let form = self.form(form)?;
        if let Some(row) = form.row {
            let row = get(&self.rows, row)?;
            return Ok(Fraction {
                numerator: row.value,
                denominator: row.denominator,
            });
        }
        Ok(Fraction::whole(form.value))
    }

    /// The sum of the form's parts in the present model.
    pub fn sum_of_parts(&self, form: usize) -> Result<Fraction, Stop> {
        let mut total = Fraction::whole(0);
        for part in &self.form(form)?.parts {
            total = total.plus(part.times, self.part_value(part.form)?)?;
        }
        Ok(total)
    }

    // The number of a variable or a part.
    fn part_value(&self, form: usize) -> Result<Fraction, Stop> {
        if self.form(form)?.has_value {
            return self.value(form);
        }
        let mut total = Fraction::whole(0);
        for variable in &self.form(form)?.variables {
            total = total.plus(variable.times, self.value(variable.form)?)?;
        }
        Ok(total)
    }

    // Gives the form the number that the sum of its parts has, rounded down, if it has none.
    fn settle(&mut self, form: usize) -> Result<(), Stop> {
        if !self.form(form)?.has_value {
            let value = self.sum_of_parts(form)?.down()?;
            let form = self.form_mut(form)?;
            form.value = value;
            form.has_value = true;
        }
        Ok(())
    }

    // Counts a use of the form, if it is a part.
    fn take_part(&mut self, form: usize) -> Result<(), Stop> {
        if self.form(form)?.kind == Kind::Part {
            let part = self.form_mut(form)?;
            part.uses = part.uses.saturating_add(1);
            add(&mut self.used, form)?;
            self.settle(form)?;
        }
        Ok(())
    }

    // Lists a form that has a bound, with the parts that it uses.
    fn list(&mut self, form: usize) -> Result<(), Stop> {
        let kind = self.form(form)?.kind;
        if kind == Kind::Variable || self.form(form)?.is_listed {
            return Ok(());
        }
        self.form_mut(form)?.is_listed = true;
        add(&mut self.listed, form)?;
        if kind == Kind::Part {
            return self.take_part(form);
        }
        for i in 0..self.form(form)?.parts.len() {
            let part = at(&self.form(form)?.parts, i)?;
            self.take_part(part.form)?;
        }
        Ok(())
    }

    /// Sets a bound, unless one as tight stands. What it contradicts comes back: two bounds of the
    /// form that no number keeps.
    pub fn bound(
        &mut self,
        alloc: Global,
        form: usize,
        is_upper: bool,
        bound: Bound,
    ) -> Result<Option<Vec<Cited>>, Stop> {
        self.fuel.spend(2)?;
        let old = self.form(form)?.bound(is_upper);
        if let Some(old) = old {
            if is_upper && old.value <= bound.value || !is_upper && old.value >= bound.value {
                return Ok(None);
            }
        }
        if let Some(other) = self.form(form)?.bound(!is_upper) {
            if is_upper && other.value > bound.value || !is_upper && other.value < bound.value {
                let mut cited = Vec::new(alloc);
                for reason in [bound.reason, other.reason] {
                    add(&mut cited, Cited { reason, times: 1 })?;
                }
                return Ok(Some(cited));
            }
        }
        let change = Change {
            form,
            is_upper,
            was: old,
        };
        add(&mut self.changes, change)?;
        let changed = self.form_mut(form)?;
        if is_upper {
            changed.upper = Some(bound);
        } else {
            changed.lower = Some(bound);
        }
        self.list(form)?;
        self.follow(form, is_upper, bound.value)?;
        Ok(None)
    }

    // Moves a form that is no row to its new bound, where it breaks it.
    fn follow(&mut self, form: usize, is_upper: bool, bound: i128) -> Result<(), Stop> {
        let moved = self.form(form)?;
        if moved.row.is_some() || (moved.kind == Kind::Whole && moved.column.is_none()) {
            return Ok(());
        }
        if is_upper && moved.value > bound || !is_upper && moved.value < bound {
            self.shift(form, bound)?;
        }
        Ok(())
    }

    // Gives a form that is no row a number.
    fn shift(&mut self, form: usize, value: i128) -> Result<(), Stop> {
        let moved = self.form_mut(form)?;
        let by = sum(value, negated(moved.value)?)?;
        moved.value = value;
        if let Some(column) = moved.column {
            self.fuel.spend(self.rows.len())?;
            for row in &mut self.rows {
                let entry = at(&row.entries, column)?;
                if entry != 0 {
                    row.value = fused(row.value, entry, by)?;
                }
            }
        }
        Ok(())
    }

    // Gives the form a column, if it has neither row nor column.
    fn add_column(&mut self, form: usize) -> Result<(), Stop> {
        if self.form(form)?.row.is_some() || self.form(form)?.column.is_some() {
            return Ok(());
        }
        self.settle(form)?;
        let column = self.columns.len();
        self.form_mut(form)?.column = Some(column);
        add(&mut self.columns, form)?;
        self.fuel.spend(self.rows.len())?;
        for row in &mut self.rows {
            add(&mut row.entries, 0)?;
        }
        Ok(())
    }

    // A number that the denominators of all rows of these forms divide.
    fn denominator_of(&self, parts: &[Product]) -> Result<i128, Stop> {
        let mut denominator = 1;
        for part in parts {
            if let Some(row) = self.form(part.form)?.row {
                let other = get(&self.rows, row)?.denominator;
                if other != 1 {
                    let divisor = common_divisor(denominator, other)?;
                    denominator = product(floor(denominator, divisor)?, other)?;
                }
            }
        }
        Ok(denominator)
    }

    // Adds `times` a form, over the denominator, to the entries.
    fn add_entries(
        &self,
        entries: &mut [i128],
        denominator: i128,
        part: Product,
    ) -> Result<(), Stop> {
        let form = self.form(part.form)?;
        if let Some(row) = form.row {
            let row = get(&self.rows, row)?;
            let times = product(floor(denominator, row.denominator)?, part.times)?;
            for (i, entry) in row.entries.iter().enumerate() {
                if *entry != 0 {
                    let sum = get_mut(entries, i)?;
                    *sum = fused(*sum, times, *entry)?;
                }
            }
        } else if let Some(column) = form.column {
            let sum = get_mut(entries, column)?;
            *sum = fused(*sum, denominator, part.times)?;
        }
        Ok(())
    }

    // The parts of the form.
    fn parts_of(&self, alloc: Global, form: usize) -> Result<Vec<Product>, Stop> {
        let mut parts = Vec::new(alloc);
        for part in &self.form(form)?.parts {
            add(&mut parts, *part)?;
        }
        Ok(parts)
    }

    /// Adds a row for the form, which has no row and no column.
    pub fn add_row(&mut self, alloc: Global, form: usize) -> Result<(), Stop> {
        let parts = self.parts_of(alloc, form)?;
        for part in &parts {
            self.add_column(part.form)?;
        }
        let denominator = self.denominator_of(&parts)?;
        let mut entries = Vec::new(alloc);
        for _ in 0..self.columns.len() {
            add(&mut entries, 0)?;
        }
        for part in &parts {
            self.fuel.spend(entries.len())?;
            self.add_entries(&mut entries, denominator, *part)?;
        }
        let mut row = TableauRow {
            form,
            denominator,
            entries,
            value: 0,
        };
        row.reduce()?;
        let number = self.rows.len();
        self.form_mut(form)?.row = Some(number);
        add(&mut self.rows, row)?;
        self.add_up(number)
    }

    // The number of the row's form, times the denominator.
    fn added_up(&self, row: usize) -> Result<i128, Stop> {
        let mut value = 0;
        for (i, entry) in get(&self.rows, row)?.entries.iter().enumerate() {
            if *entry != 0 {
                let form = at(&self.columns, i)?;
                value = fused(value, *entry, self.form(form)?.value)?;
            }
        }
        Ok(value)
    }

    // Adds up the number of the row's form.
    fn add_up(&mut self, row: usize) -> Result<(), Stop> {
        let value = self.added_up(row)?;
        get_mut(&mut self.rows, row)?.value = value;
        Ok(())
    }

    // The row solved for the form of a column.
    fn solved(&self, alloc: Global, row: usize, column: usize) -> Result<TableauRow, Stop> {
        let old = get(&self.rows, row)?;
        let entry = at(&old.entries, column)?;
        let mut entries = Vec::new(alloc);
        for (i, other) in old.entries.iter().enumerate() {
            let number = if i == column {
                if entry > 0 {
                    old.denominator
                } else {
                    negated(old.denominator)?
                }
            } else if entry > 0 {
                negated(*other)?
            } else {
                *other
            };
            add(&mut entries, number)?;
        }
        Ok(TableauRow {
            form: at(&self.columns, column)?,
            denominator: size(entry)?,
            entries,
            value: 0,
        })
    }

    /// Exchanges the form of the row, which gets the number, with that of the column.
    pub fn pivot(
        &mut self,
        alloc: Global,
        row: usize,
        column: usize,
        value: i128,
    ) -> Result<(), Stop> {
        let solved = self.solved(alloc, row, column)?;
        let leaving = get(&self.rows, row)?.form;
        for i in 0..self.rows.len() {
            if i != row {
                self.fuel.spend(2)?;
                let other = get_mut(&mut self.rows, i)?;
                if at(&other.entries, column)? != 0 {
                    self.fuel.spend(solved.entries.len().saturating_mul(2))?;
                    other.replace(column, &solved)?;
                }
            }
        }
        let entering = self.form_mut(solved.form)?;
        entering.column = None;
        entering.row = Some(row);
        let left = self.form_mut(leaving)?;
        left.row = None;
        left.column = Some(column);
        left.value = value;
        left.has_value = true;
        *get_mut(&mut self.columns, column)? = leaving;
        *get_mut(&mut self.rows, row)? = solved;
        for i in 0..self.rows.len() {
            self.fuel.spend(self.columns.len())?;
            self.add_up(i)?;
        }
        Ok(())
    }
}

impl TableauRow {
    // Divides the denominator and the entries by what divides them all.
    fn reduce(&mut self) -> Result<(), Stop> {
        let mut divisor = self.denominator;
        for entry in &self.entries {
            if divisor == 1 {
                return Ok(());
            }
            if *entry != 0 {
                divisor = common_divisor(divisor, *entry)?;
            }
        }
        self.denominator = floor(self.denominator, divisor)?;
        for entry in &mut self.entries {
            *entry = floor(*entry, divisor)?;
        }
        Ok(())
    }

    // Puts the solved row in place of the form of its column.
    fn replace(&mut self, column: usize, solved: &TableauRow) -> Result<(), Stop> {
        let times = at(&self.entries, column)?;
        let divisor = common_divisor(times, solved.denominator)?;
        let scale = floor(solved.denominator, divisor)?;
        let times = floor(times, divisor)?;
        for (i, entry) in self.entries.iter_mut().enumerate() {
            let other = at(&solved.entries, i)?;
            let old = if i == column { 0 } else { *entry };
            if old != 0 || other != 0 {
                *entry = fused(product(old, scale)?, times, other)?;
            } else {
                *entry = 0;
            }
        }
        self.denominator = product(self.denominator, scale)?;
        self.reduce()
    }
}

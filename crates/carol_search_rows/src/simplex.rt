//! Numbers that keep all bounds, or bounds that no numbers keep.

use crate::form::{Kind, Reason};
use crate::list::{add, at, get};
use crate::number::{common_divisor, floor, product, size};
use crate::stop::Stop;
use crate::tableau::{Cited, Tableau, TableauRow};
use std::alloc::Global;

// How many rounds are made at most.
const ROUNDS: u32 = 1_000_000;

// A row whose form breaks a bound.
#[derive(Debug, Clone, Copy)]
struct Broken {
    row: usize,
    form: usize,
    is_low: bool,
}

impl Tableau {
    // The row's broken bound, if there is one: whether it is the lower one.
    fn broken_bound(&self, row: &TableauRow) -> Result<Option<bool>, Stop> {
        let form = self.form(row.form)?;
        if let Some(lower) = form.lower {
            if row.value < product(lower.value, row.denominator)? {
                return Ok(Some(true));
            }
        }
        if let Some(upper) = form.upper {
            if row.value > product(upper.value, row.denominator)? {
                return Ok(Some(false));
            }
        }
        Ok(None)
    }

    // The row with the least form that breaks a bound.
    fn broken_row(&self) -> Result<Option<Broken>, Stop> {
        let mut found: Option<Broken> = None;
        for (i, row) in self.rows.iter().enumerate() {
            if let Some(is_low) = self.broken_bound(row)? {
                let is_first = match found {
                    Some(other) => row.form < other.form,
                    None => true,
                };
                if is_first {
                    found = Some(Broken {
                        row: i,
                        form: row.form,
                        is_low,
                    });
                }
            }
        }
        Ok(found)
    }

    // The last form with a bound that it breaks and that is neither row nor column.
    fn broken_form(&self) -> Result<Option<usize>, Stop> {
        for number in self.listed.iter().rev() {
            let form = self.form(*number)?;
            if form.kind == Kind::Whole && form.row.is_none() && form.column.is_none() {
                let value = self.sum_of_parts(*number)?;
                if let Some(lower) = form.lower {
                    if !value.is_at_least(lower.value)? {
                        return Ok(Some(*number));
                    }
                }
                if let Some(upper) = form.upper {
                    if !value.is_at_most(upper.value)? {
                        return Ok(Some(*number));
                    }
                }
            }
        }
        Ok(None)
    }

    // The last used part that has another number than the sum of its variables.
    fn broken_link(&self) -> Result<Option<usize>, Stop> {
        for number in self.used.iter().rev() {
            if !self.form(*number)?.is_linked {
                let value = self.value(*number)?;
                if self.sum_of_parts(*number)?.plus(-1, value)?.numerator != 0 {
                    return Ok(Some(*number));
                }
            }
        }
        Ok(None)
    }

    // The column with the least form that can move so that the bound isn't broken.
    fn entering(&self, broken: Broken) -> Result<Option<usize>, Stop> {
        let mut found: Option<(usize, usize)> = None;
        for (i, entry) in get(&self.rows, broken.row)?.entries.iter().enumerate() {
            if *entry != 0 {
                let number = at(&self.columns, i)?;
                let form = self.form(number)?;
                let is_stuck = match form.bound((*entry > 0) == broken.is_low) {
                    Some(bound) => bound.value == form.value,
                    None => false,
                };
                let is_first = match found {
                    Some((other, _)) => number < other,
                    None => true,
                };
                if !is_stuck && is_first {
                    found = Some((number, i));
                }
            }
        }
        Ok(found.map(|(_, column)| column))
    }

    // The bounds of a row none of whose columns can move, with their multipliers.
    fn conflict(&self, alloc: Global, broken: Broken) -> Result<Vec<Cited>, Stop> {
        let mut cited = Vec::new(alloc);
        let row = get(&self.rows, broken.row)?;
        self.cite_bound(&mut cited, broken.form, !broken.is_low, row.denominator)?;
        for (i, entry) in row.entries.iter().enumerate() {
            if *entry != 0 {
                let number = at(&self.columns, i)?;
                let is_upper = (*entry > 0) == broken.is_low;
                self.cite_bound(&mut cited, number, is_upper, size(*entry)?)?;
            }
        }
        let mut divisor = 0;
        for one in &cited {
            divisor = common_divisor(one.times, divisor)?;
        }
        for one in &mut cited {
            one.times = floor(one.times, divisor)?;
        }
        Ok(cited)
    }

    // Cites the bound so many times, unless it only links a part with its variables.
    fn cite_bound(
        &self,
        cited: &mut Vec<Cited>,
        form: usize,
        is_upper: bool,
        times: i128,
    ) -> Result<(), Stop> {
        match self.form(form)?.bound(is_upper) {
            Some(bound) if bound.reason == Reason::Link => Ok(()),
            Some(bound) => add(
                cited,
                Cited {
                    reason: bound.reason,
                    times,
                },
            ),
            None => Err(Stop::GivenUp),
        }
    }

    /// Looks for numbers that keep all bounds. Where there are none, it cites bounds that none
    /// keep, with their multipliers.
    pub fn check(&mut self, alloc: Global) -> Result<Option<Vec<Cited>>, Stop> {
        for _ in 0..ROUNDS {
            self.fuel
                .spend(self.rows.len().saturating_add(self.columns.len()))?;
            self.fuel
                .spend(self.listed.len().saturating_add(self.used.len()))?;
            if let Some(broken) = self.broken_row()? {
                let Some(column) = self.entering(broken)? else {
                    return Ok(Some(self.conflict(alloc, broken)?));
                };
                let Some(bound) = self.form(broken.form)?.bound(!broken.is_low) else {
                    return Err(Stop::GivenUp);
                };
                self.pivot(alloc, broken.row, column, bound.value)?;
            } else if let Some(form) = self.broken_form()? {
                self.add_row(alloc, form)?;
            } else if let Some(part) = self.broken_link()? {
                let link = self.forms.link(alloc, part)?;
                self.add_row(alloc, link)?;
            } else {
                return Ok(None);
            }
        }
        Err(Stop::GivenUp)
    }
}

//! Rows that follow for whole numbers.

use crate::state::{Cut, Refuted, State};
use carol_search_rows::{
    Bound, Cited, Product, Reason, Stop, add, at, divided, divisor_of, floor, fused, get, get_mut,
    negated, remainder, sum,
};
use std::alloc::Global;

// How many cuts are made at a time.
const CUTS: usize = 4;

// A bound that the model reaches, so many times: the form, or with its sign turned, is at most
// `most`.
#[derive(Debug, Clone, Copy)]
struct Share {
    reason: Reason,
    times: i128,
    form: usize,
    is_upper: bool,
    most: i128,
}

/// What came of an attempt to cut.
#[derive(Debug, Drop)]
pub enum Outcome {
    /// No cut was found.
    Nothing,
    /// At least one was made.
    Made,
    /// The bounds contradict one another.
    Refuted(Refuted),
}

// A sum of rows over variables.
#[derive(Debug, Drop)]
struct Total {
    products: Vec<Product>,
    most: i128,
}

impl State {
    // The share of a column in a cut, where its form stands at a bound; nothing where the column
    // has no share.
    fn share(&self, form: usize, entry: i128, denominator: i128) -> Result<Option<Share>, Stop> {
        let times = remainder(entry, denominator)?;
        if times == 0 {
            return Ok(None);
        }
        let column = self.tableau.form(form)?;
        if let Some(upper) = column.upper {
            if upper.value == column.value {
                return Ok(Some(Share {
                    reason: upper.reason,
                    times,
                    form,
                    is_upper: true,
                    most: upper.value,
                }));
            }
        }
        match column.lower {
            Some(lower) if lower.value == column.value => Ok(Some(Share {
                reason: lower.reason,
                times: sum(denominator, negated(times)?)?,
                form,
                is_upper: false,
                most: negated(lower.value)?,
            })),
            _ => Err(Stop::GivenUp),
        }
    }

    // The shares of a row with the sign, unless a form of the row stands at no bound.
    fn shares(&self, alloc: Global, row: usize, sign: i128) -> Result<Option<Vec<Share>>, Stop> {
        let mut shares = Vec::new(alloc);
        let row = get(&self.tableau.rows, row)?;
        for (i, entry) in row.entries.iter().enumerate() {
            if *entry != 0 {
                let form = at(&self.tableau.columns, i)?;
                let entry = if sign < 0 { negated(*entry)? } else { *entry };
                match self.share(form, entry, row.denominator) {
                    Ok(Some(share)) if share.reason == Reason::Link => {}
                    Ok(Some(share)) => add(&mut shares, share)?,
                    Ok(None) => {}
                    Err(Stop::GivenUp) => return Ok(None),
                    Err(Stop::NoMemory) => return Err(Stop::NoMemory),
                }
            }
        }
        Ok(Some(shares))
    }

    // The rows of the shares added up.
    fn total(&self, alloc: Global, shares: &[Share]) -> Result<Total, Stop> {
        let mut coefficients = Vec::new(alloc);
        for _ in 0..self.variables.len() {
            add(&mut coefficients, 0)?;
        }
        let mut most = 0;
        for share in shares {
            most = fused(most, share.times, share.most)?;
            let times = if share.is_upper {
                share.times
            } else {
                negated(share.times)?
            };
            for variable in &self.tableau.form(share.form)?.variables {
                let sum = get_mut(&mut coefficients, variable.form)?;
                *sum = fused(*sum, times, variable.times)?;
            }
        }
        let mut products = Vec::new(alloc);
        for (form, times) in coefficients.iter().enumerate() {
            if *times != 0 {
                add(
                    &mut products,
                    Product {
                        form,
                        times: *times,
                    },
                )?;
            }
        }
        Ok(Total { products, most })
    }

    // Makes a cut of the shares, if there is one.
    fn cut_of(&mut self, alloc: Global, shares: &[Share]) -> Result<Outcome, Stop> {
        let total = self.total(alloc, shares)?;
        let mut cited = Vec::new(alloc);
        for share in shares {
            add(
                &mut cited,
                Cited {
                    reason: share.reason,
                    times: share.times,
                },
            )?;
        }
        let divisor = divisor_of(&total.products)?;
        if divisor == 0 {
            if total.most < 0 {
                return Ok(Outcome::Refuted(Refuted::Rows(cited)));
            }
            return Ok(Outcome::Nothing);
        }
        if remainder(total.most, divisor)? == 0 {
            return Ok(Outcome::Nothing);
        }
        let products = divided(alloc, &total.products, divisor, false)?;
        let signed = self.tableau.forms.signed(alloc, &products)?;
        let most = floor(total.most, divisor)?;
        let levels = self.levels_of(alloc, &cited)?;
        let number = self.cuts.len();
        add(
            &mut self.cuts,
            Cut {
                cited,
                divisor,
                levels,
            },
        )?;
        let bound = Bound {
            value: if signed.is_turned {
                negated(most)?
            } else {
                most
            },
            reason: Reason::Cut(number),
        };
        match self.take_bound(alloc, signed.form, !signed.is_turned, bound)? {
            Some(refuted) => Ok(Outcome::Refuted(refuted)),
            None => Ok(Outcome::Made),
        }
    }

    /// Makes cuts of these rows of the tableau, the shortest first.
    pub fn cut(&mut self, alloc: Global, rows: &[usize]) -> Result<Outcome, Stop> {
        let mut found = Vec::new(alloc);
        for row in rows {
            self.tableau.fuel.spend(self.tableau.columns.len())?;
            for sign in [1, -1] {
                if let Some(shares) = self.shares(alloc, *row, sign)? {
                    if !shares.is_empty() {
                        add(&mut found, shares)?;
                    }
                }
            }
        }
        let mut order = Vec::new(alloc);
        for (i, shares) in found.iter().enumerate() {
            add(&mut order, (shares.len(), i))?;
        }
        order.sort()?;
        let mut outcome = Outcome::Nothing;
        for (count, (_, i)) in order.iter().enumerate() {
            if count >= CUTS {
                break;
            }
            self.tableau.fuel.spend(self.variables.len())?;
            match self.cut_of(alloc, get(&found, *i)?)? {
                Outcome::Nothing => {}
                Outcome::Made => outcome = Outcome::Made,
                Outcome::Refuted(refuted) => return Ok(Outcome::Refuted(refuted)),
            }
        }
        Ok(outcome)
    }

    /// The rows of the tableau whose forms have no whole number.
    pub fn fractions(&self, alloc: Global) -> Result<Vec<usize>, Stop> {
        let mut rows = Vec::new(alloc);
        for (i, row) in self.tableau.rows.iter().enumerate() {
            if remainder(row.value, row.denominator)? != 0 {
                add(&mut rows, i)?;
            }
        }
        Ok(rows)
    }
}

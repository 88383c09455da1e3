//! Bounds of variables that both sides of a choice have.

use crate::node::{Claim, Side, Sort};
use crate::state::State;
use carol_search_rows::{Fraction, Product, Stop, add, at, floor, get, negated, product, sum};
use std::alloc::Global;

/// A bound of a variable.
#[derive(Debug, Clone, Copy)]
pub struct Limit {
    pub form: usize,
    pub is_upper: bool,
    pub value: i128,
}

// Keeps the bound, where it is tighter than what is kept.
fn keep(limits: &mut Vec<Limit>, limit: Limit) -> Result<(), Stop> {
    for other in limits.iter_mut() {
        if other.form == limit.form && other.is_upper == limit.is_upper {
            if limit.is_upper && limit.value < other.value
                || !limit.is_upper && limit.value > other.value
            {
                other.value = limit.value;
            }
            return Ok(());
        }
    }
    add(limits, limit)
}

impl State {
    // The least that the product can be, as far as the bounds of its variable tell.
    fn least_of(&self, product_of: Product) -> Result<Option<i128>, Stop> {
        match self
            .tableau
            .form(product_of.form)?
            .bound(product_of.times < 0)
        {
            Some(bound) => Ok(Some(product(product_of.times, bound.value)?)),
            None => Ok(None),
        }
    }

    // What the row says of each variable, where the others are as small as they can be.
    fn limits_of_row(&self, limits: &mut Vec<Limit>, claim: Claim) -> Result<(), Stop> {
        let Claim::Bound {
            form,
            is_upper,
            value,
            divisor: _,
        } = claim
        else {
            return Ok(());
        };
        let sign = if is_upper { 1 } else { -1 };
        let variables = &self.tableau.form(form)?.variables;
        let mut least = 0;
        let mut unbounded = 0usize;
        for variable in variables {
            let times = product(sign, variable.times)?;
            match self.least_of(Product { times, ..*variable })? {
                Some(number) => least = sum(least, number)?,
                None => unbounded = unbounded.saturating_add(1),
            }
        }
        let left = sum(product(sign, value)?, negated(least)?)?;
        for variable in variables {
            let times = product(sign, variable.times)?;
            let own = self.least_of(Product { times, ..*variable })?;
            let most = match own {
                Some(number) if unbounded == 0 => sum(left, number)?,
                None if unbounded == 1 => left,
                _ => continue,
            };
            let limit = if times > 0 {
                floor(most, times)?
            } else {
                negated(floor(most, negated(times)?)?)?
            };
            keep(
                limits,
                Limit {
                    form: variable.form,
                    is_upper: times > 0,
                    value: limit,
                },
            )?;
        }
        Ok(())
    }

    // What the comparisons of a side that stand outside of choices say of each variable.
    fn limits_of(&self, alloc: Global, side: Side) -> Result<Vec<Limit>, Stop> {
        let mut limits = Vec::new(alloc);
        let root = match side {
            Side::Whole(node) => node,
            Side::Negative(node) => {
                self.limits_of_row(&mut limits, self.node(node)?.first)?;
                return Ok(limits);
            }
            Side::Positive(node) => {
                self.limits_of_row(&mut limits, self.node(node)?.second)?;
                return Ok(limits);
            }
        };
        let mut waiting = Vec::new(alloc);
        add(&mut waiting, root)?;
        for _ in 0..self.nodes.len() {
            let Some(number) = waiting.pop() else {
                break;
            };
            let node = self.node(number)?;
            if node.sort == Sort::And {
                add(&mut waiting, node.left)?;
                add(&mut waiting, node.right)?;
            } else if node.sort == Sort::Le || node.sort == Sort::Eq {
                self.limits_of_row(&mut limits, node.first)?;
                if node.sort == Sort::Eq {
                    self.limits_of_row(&mut limits, node.second)?;
                }
            }
        }
        Ok(limits)
    }

    // The bound that stands, if one does.
    fn standing(&self, limit: Limit) -> Result<Option<i128>, Stop> {
        match self.tableau.form(limit.form)?.bound(limit.is_upper) {
            Some(bound) => Ok(Some(bound.value)),
            None => Ok(None),
        }
    }

    // The looser of a bound of one side and that of the other side.
    fn common(&self, limit: Limit, others: &[Limit]) -> Result<Option<Limit>, Stop> {
        let mut found = self.standing(limit)?;
        for other in others {
            if other.form == limit.form && other.is_upper == limit.is_upper {
                found = Some(other.value);
            }
        }
        let Some(value) = found else {
            return Ok(None);
        };
        let is_looser = if limit.is_upper {
            value > limit.value
        } else {
            value < limit.value
        };
        Ok(Some(if is_looser {
            Limit { value, ..limit }
        } else {
            limit
        }))
    }

    /// A bound that both sides of the choice have and the model breaks.
    pub fn hull(
        &self,
        alloc: Global,
        model: &[Fraction],
        number: usize,
    ) -> Result<Option<Limit>, Stop> {
        let node = get(&self.nodes, number)?;
        let first = self.limits_of(alloc, node.side(number, false))?;
        let second = self.limits_of(alloc, node.side(number, true))?;
        for limit in &first {
            if let Some(limit) = self.common(*limit, &second)? {
                let is_new = match self.standing(limit)? {
                    Some(value) if limit.is_upper => limit.value < value,
                    Some(value) => limit.value > value,
                    None => true,
                };
                let value = at(model, limit.form)?;
                let is_kept = if limit.is_upper {
                    value.is_at_most(limit.value)?
                } else {
                    value.is_at_least(limit.value)?
                };
                if is_new && !is_kept {
                    return Ok(Some(limit));
                }
            }
        }
        Ok(None)
    }
}

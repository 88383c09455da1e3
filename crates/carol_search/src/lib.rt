//! A search for numbers that make a formula true, or for a refutation of it. It is quick on what
//! people write, and promises nothing: what it finds is to be tested.
//!
//! Layer: solver. Called by `carol_decide`, which tests what it finds.
#![tactic(auto)]

mod cut;
mod hull;
mod node;
mod state;
mod tree;
mod walk;

use crate::state::State;
use crate::tree::refutation;
use crate::walk::Task;
use carol_cert::Refutation;
use carol_formula::{Formula, Valuation, Variable};
use carol_search_rows::{Fuel, Stop, at};
use std::alloc::{AllocError, Global};

// How many steps a search takes at most.
const STEPS: u64 = 8_000_000;

/// What a search finds. None of it is tested.
#[derive(Debug, Drop)]
pub enum Found {
    /// A refutation of the formula.
    Tree(Refutation),
    /// Numbers that make the formula true.
    Numbers(Valuation),
    /// Nothing.
    Nothing,
}

// The numbers of the variables.
fn valuation_of(alloc: Global, variables: &[u32], values: &[i128]) -> Result<Valuation, Stop> {
    let mut valuation = Valuation::new(alloc);
    for (i, value) in values.iter().enumerate() {
        if *value != 0 {
            valuation.set(Variable(at(variables, i)?), *value)?;
        }
    }
    Ok(valuation)
}

// What the search finds, unless it gives up.
fn searched(alloc: Global, formula: &Formula) -> Result<Found, Stop> {
    let mut state = State::new(alloc, formula, Fuel::new(STEPS))?;
    let mut task = state.begin(alloc)?;
    for _ in 0..STEPS {
        match task {
            Task::Found(values) => {
                return Ok(Found::Numbers(valuation_of(alloc, &state.variables, &values)?));
            }
            Task::Close(closed) if state.frames.is_empty() => {
                return Ok(Found::Tree(refutation(alloc, &state, closed.tree)?));
            }
            next => task = state.step(alloc, next)?,
        }
    }
    Ok(Found::Nothing)
}

/// Searches for numbers that make the formula true, or for a refutation of it. It ends after a
/// bounded number of steps, and then with nothing.
pub fn search(alloc: Global, formula: &Formula) -> Result<Found, AllocError> {
    match searched(alloc, formula) {
        Ok(found) => Ok(found),
        Err(Stop::GivenUp) => Ok(Found::Nothing),
        Err(Stop::NoMemory) => Err(AllocError),
    }
}

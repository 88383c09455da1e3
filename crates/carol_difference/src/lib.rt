//! A decision procedure for rows of differences, whose every answer carries its evidence: a
//! valuation that makes all rows true, or steps that refute them. Below it are shortest paths over
//! plain edges.
//!
//! Layer: solver. Called by `carol_decide` where all rows are differences.
#![tactic(auto)]

ghost use Rattle.std.specs.Prelude.{◌≡◌, ℕ, ◌^◌, ◌≤◌, ◌↔◌, length, IfNone, IfOk, IfSome, IsTrue, OnOk};
ghost use Rattle.std.specs.List.{All};
ghost use Rattle.carol_difference.specs.Decision.{IsDecision};
ghost use Rattle.carol_difference.specs.Rows.{IsDifference, IsFirstOther, IsNarrow};

use carol_cert::StepList;
use carol_formula::{ROW_LIMIT, Row, Valuation};
use std::alloc::{AllocError, Global};

/// Whether rows can be true together.
#[derive(Debug, Drop)]
pub enum DiffAnswer {
    /// The steps close the list of the rows.
    Refuted(StepList),
    /// The valuation makes every row true.
    Model(Valuation),
}

/// Why there is no answer.
#[derive(Clone, Copy, Debug, PartialEq, Eq)]
pub enum DiffError {
    /// This row is the first with more than two variables, a coefficient other than 1 and -1, or
    /// two equal coefficients.
    NotDifference(u32),
    /// Memory ran out.
    NoMemory,
}

/// Whether each coefficient and constant is below 2^92 in absolute value.
pub fn are_narrow(rows: &[Row]) -> bool
    ensures { IsTrue result ↔ All IsNarrow rows.now }
{
    rows.iter().all(is_narrow)
}

// Whether each coefficient and the constant of the row are below 2^92 in absolute value.
fn is_narrow(row: &Row) -> bool
    ensures { IsTrue result ↔ IsNarrow row.now }
{
    row.0.is_within(ROW_LIMIT)
}

/// Decides whether the rows can be true together.
pub fn decide_difference(alloc: Global, rows: &[Row]) -> Result<DiffAnswer, DiffError>
    requires count { length rows.now ≤ 2 ^ 29 }
    requires narrow { All IsNarrow rows.now }

    ensures decided { IfOk result (IsDecision rows.now) }
    ensures differences { OnOk result (All IsDifference rows.now) }
    ensures not_difference { (i : ℕ) → (result ≡ Err (DiffError.NotDifference i))
        ↔ IsFirstOther rows.now i }
{
    if let Some(number) = first_other(rows) {
        return Err(DiffError::NotDifference(number));
    }
    match decided(alloc, rows) {
        Ok(answer) => Ok(answer),
        Err(_) => Err(DiffError::NoMemory),
    }
}

// The first row that is no row of differences.
fn first_other(rows: &[Row]) -> Option<u32>
    requires { length rows.now ≤ 2 ^ 29 }

    ensures some { IfSome result (IsFirstOther rows.now) }
    ensures none { IfNone result (All IsDifference rows.now) }
{
    for (number, row) in rows.iter().enumerate() {
        if sides::sides_of(row).is_none() {
            return Some(number as u32);
        }
    }
    None
}

// The answer for rows of differences.
fn decided(alloc: Global, rows: &[Row]) -> Result<DiffAnswer, AllocError>
    requires count { length rows.now ≤ 2 ^ 29 }
    requires narrow { All IsNarrow rows.now }
    requires differences { All IsDifference rows.now }

    ensures { IfOk result (IsDecision rows.now) }
{
    let graph = graph::graph_of(alloc, rows)?;
    let nodes = graph.variables.len() as u32 + 1;
    match potentials_or_cycle(alloc, nodes, &graph.edges)? {
        Paths::Potentials(values) => {
            let valuation = evidence::valuation(alloc, &graph.variables, &values)?;
            Ok(DiffAnswer::Model(valuation))
        }
        Paths::Cycle(numbers) => {
            let steps = evidence::summed(alloc, &numbers)?;
            Ok(DiffAnswer::Refuted(steps))
        }
    }
}

mod evidence;
mod forest;
mod graph;
mod paths;
mod sides;

pub use paths::{Edge, Paths, potentials_or_cycle};

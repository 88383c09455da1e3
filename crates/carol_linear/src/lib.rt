//! A decision procedure for rows of whole numbers: elimination of variables, values for them, and
//! branches where a variable has no whole number between its bounds. Each answer carries its
//! evidence. What closes rows is a leaf over the claims that the rows stand for, without the steps
//! that the last row doesn't need.
//!
//! Layer: solver. Called by `carol_decide`.
#![tactic(auto)]

ghost use Rattle.std.specs.Prelude.{◌≡◌, ℕ, ◌≤◌, ◌^◌, List, length, map, IfOk};
ghost use Rattle.carol_formula.specs.Claim.{Claim, Le};
ghost use Rattle.carol_elimination.specs.Entries.{terms_of};
ghost use Rattle.carol_elimination.specs.Due.{rows_at, AreRows};
ghost use Rattle.carol_linear.specs.Names.{AreNamed};
ghost use Rattle.carol_linear.specs.Answer.{IsAnswer};
ghost use Rattle.carol_linear.specs.Place.{names_from};

use crate::state::State;
use carol_cert::RowStep;
use carol_elimination::Allowance;
use carol_formula::Row;
use std::alloc::{AllocError, Global};

// How much is allowed for rows alone.
const ALLOWED: u64 = 4_000_000;

/// Decides whether the rows can be true together, in at most `leaves` turns: leaves that close
/// their lists, and branches.
pub fn decide_rows(alloc: Global, rows: &[Row], leaves: u32) -> Result<RowsAnswer, AllocError>
    requires { length rows.now ≤ 2 ^ 29 }
    ensures { let terms = terms_of rows.now in
        IfOk result (IsAnswer (map Le terms) terms leaves) }
{
    let names = own_names(alloc, rows)?;
    let mut allowance = Allowance::new(ALLOWED);
    search(
        alloc,
        rows,
        &names,
        rows.len() as u32,
        leaves,
        &mut allowance,
    )
}

// The names of rows that are the claims themselves.
fn own_names(alloc: Global, rows: &[Row]) -> Result<Vec<RowStep>, AllocError>
    requires { length rows.now ≤ 2 ^ 29 }
    ensures { IfOk result (λ v. v.items ≡ names_from 0 (terms_of rows.now)) }
{
    let mut names = Vec::new(alloc);
    for at in 0..rows.len() {
        names.push(RowStep::Given { at: at as u32 })?;
    }
    Ok(names)
}

/// Decides whether the claims that the rows stand for can be true together, in at most `leaves`
/// turns. The name of each row is the step that takes it from the claims, and `claims` is how many
/// of these there are. There is no room for more than 2^32 rows or claims, with those of branches,
/// nor for more than is allowed.
pub fn search(
    alloc: Global,
    rows: &[Row],
    names: &[RowStep],
    claims: u32,
    leaves: u32,
    allowance: &mut Allowance,
) -> Result<RowsAnswer, AllocError>
    ensures { IfOk result (λ a. (list : List Claim) → AreNamed list names.now (terms_of rows.now)
        → AreRows list → rows_at list ≡ terms_of rows.now → length list ≡ claims
        → IsAnswer list (terms_of rows.now) leaves a) }
{
    let mut state = State::new(alloc, rows, names, claims, leaves)?;
    loop {
        if let Some(answer) = state.step(alloc, rows, names, allowance)? {
            return Ok(answer);
        }
    }
}

mod answer;
mod branch;
mod place;
mod pruning;
mod state;
mod visit;

pub use answer::{Derived, Far, RowList, RowsAnswer, Wide};
pub use pruning::leaf;

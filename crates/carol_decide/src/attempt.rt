ghost use Rattle.std.specs.Prelude.{◌≤◌, ◌^◌, ◌∷◌, [], List, ℕ, length, map, IfOk, IfSome, IsTrue};
ghost use Rattle.std.specs.List.{All};
ghost use Rattle.carol_formula.specs.Claim.{Claim, ClaimFits, HasNoNot, truth, Le};
ghost use Rattle.carol_formula.specs.Numbers.{number_at};
ghost use Rattle.carol_formula.specs.Tree.{claim_of};
ghost use Rattle.carol_cert.specs.Steps.{Closes};
ghost use Rattle.carol_difference.specs.Rows.{IsDifference, IsNarrow};
ghost use Rattle.carol_elimination.specs.Due.{AreRows};
ghost use Rattle.carol_elimination.specs.Entries.{terms_of};
ghost use Rattle.carol_decide.specs.Sizes.{AreReady};
ghost use Rattle.carol_decide.specs.Piece.{claims_in};
ghost use Rattle.carol_decide.specs.Frames.{Lead};
ghost use Rattle.carol_decide.specs.declared.frame.Frame.{Frame};
ghost use Rattle.carol_decide.specs.Table.{IsTableOf, IsTried, IsDifferenceAnswer, IsFound};

use crate::count::count_turns;
use crate::found::Found;
use crate::piece::Piece;
use crate::table::{Table, table_of};
use carol_cert::{Refutation, StepList};
use carol_difference::{DiffAnswer, DiffError, decide_difference};
use carol_elimination::{Allowance, Choice, Outcome, choose, eliminate, variables_of};
use carol_formula::{Formula, Row, Valuation};
use carol_linear::{RowsAnswer, leaf, search};
use std::alloc::{AllocError, Global};

/// What rows alone say, without branches.
#[derive(Drop)]
pub enum Tried {
    /// The steps close the list of the rows.
    Refuted(StepList),
    /// These numbers may make the whole formula true.
    Numbers(Valuation),
    /// Nothing.
    Nothing,
}

// The answer for rows of differences.
fn differences(alloc: Global, rows: &[Row]) -> Result<Option<DiffAnswer>, AllocError>
    requires count { length rows.now ≤ 2 ^ 29 }
    requires narrow { All IsNarrow rows.now }
    ensures { IfOk result (IsDifferenceAnswer rows.now) }
{
    match decide_difference(alloc, rows) {
        Ok(answer) => Ok(Some(answer)),
        Err(DiffError::NotDifference(_)) => Ok(None),
        Err(DiffError::NoMemory) => Err(AllocError),
    }
}

// What elimination says of the rows: nothing where it finds no room.
fn eliminated(alloc: Global, rows: &[Row], allowance: &mut Allowance) -> Result<Tried, AllocError>
    requires { length rows.now ≤ 2 ^ 29 }
    ensures { IfOk result (IsTried (terms_of rows.now)) }
{
    let variables = variables_of(alloc, rows)?;
    let Ok(outcome) = eliminate(alloc, rows, &variables, allowance) else {
        return Ok(Tried::Nothing);
    };
    match outcome {
        Outcome::Absurd(steps) => Ok(Tried::Refuted(steps)),
        Outcome::Quiet(elimination) => match choose(alloc, rows, &variables, &elimination)? {
            Choice::Model(values) => Ok(Tried::Numbers(values)),
            _ => Ok(Tried::Nothing),
        },
        _ => Ok(Tried::Nothing),
    }
}

// What the rows say, without branches.
fn try_rows(alloc: Global, rows: &[Row], allowance: &mut Allowance) -> Result<Tried, AllocError>
    requires count { length rows.now ≤ 2 ^ 29 }
    requires narrow { All IsNarrow rows.now }
    ensures { IfOk result (IsTried (terms_of rows.now)) }
{
    match differences(alloc, rows)? {
        Some(answer) => match answer {
            DiffAnswer::Refuted(steps) => Ok(Tried::Refuted(steps)),
            DiffAnswer::Model(values) => Ok(Tried::Numbers(values)),
        },
        None => eliminated(alloc, rows, allowance),
    }
}

// The place is closed by steps that close its rows.
fn closed(alloc: Global, steps: &StepList, table: &Table) -> Result<Found, AllocError>
    ensures { IfOk result (λ found. (claim : Claim) → (claims : List Claim) → (left : ℕ)
        → IsTableOf claims table.now → Closes (map Le (terms_of table.now.rows.items)) steps.now
        → 1 ≤ left → IsFound claim claims left found) }
{
    let steps = leaf(alloc, steps, &table.names)?;
    Ok(Found::Closed {
        tree: Refutation::Rows(steps),
        turns: 1,
    })
}

/// Whether the formula is true of the numbers, and each of its terms can be added up.
pub fn is_met(formula: &Formula, values: &Valuation) -> bool
    ensures { IsTrue result → ClaimFits (claim_of formula.now) (number_at values.now)
        × IsTrue (truth (claim_of formula.now) (number_at values.now)) }
{
    formula.fits(values) && formula.holds(values)
}

/// What the rows at a place tell before a side of another formula is taken.
pub fn attempt(
    alloc: Global,
    formula: &Formula,
    pieces: &[Piece<'_>],
    left: u32,
    allowance: &mut Allowance,
) -> Result<Option<Found>, AllocError>
    requires plain { HasNoNot (claim_of formula.now) }
    requires ready { AreReady (claims_in pieces.now) }
    requires count { length pieces.now ≤ 2 ^ 28 }
    requires some { 1 ≤ left }
    ensures { IfOk result (λ o. IfSome o
        (IsFound (claim_of formula.now) (claims_in pieces.now) left)) }
{
    let table = table_of(alloc, pieces)?;
    match try_rows(alloc, &table.rows, allowance)? {
        Tried::Refuted(steps) => Ok(Some(closed(alloc, &steps, &table)?)),
        Tried::Numbers(values) => {
            if is_met(formula, &values) {
                Ok(Some(Found::Model(values)))
            } else {
                Ok(None)
            }
        }
        Tried::Nothing => Ok(None),
    }
}

// What the search finds for the rows at a place.
fn searched(
    alloc: Global,
    pieces: &[Piece<'_>],
    table: &Table,
    left: u32,
    allowance: &mut Allowance,
) -> Result<Found, AllocError>
    requires count { length pieces.now ≤ 2 ^ 28 }
    requires rows { AreRows (claims_in pieces.now) }
    requires table { IsTableOf (claims_in pieces.now) table.now }
    requires other { ¬ All IsDifference table.now.rows.items }
    ensures { IfOk result (λ found. (claim : Claim) → (frames : List Frame)
        → Lead (claim ∷ []) frames (claims_in pieces.now)
        → IsFound claim (claims_in pieces.now) left found) }
{
    match search(
        alloc,
        &table.rows,
        &table.names,
        pieces.len() as u32,
        left,
        allowance,
    )? {
        RowsAnswer::Refuted(tree) => {
            let turns = count_turns(alloc, &tree)?;
            Ok(Found::Closed { tree, turns })
        }
        RowsAnswer::Model(values) => Ok(Found::Model(values)),
        RowsAnswer::Spent(tree) => Ok(Found::Spent(tree)),
        RowsAnswer::Wide(wide) => Ok(Found::Wide(wide)),
        RowsAnswer::Far(far) => Ok(Found::Far(far)),
    }
}

/// What there is at a place where nothing is left to be taken apart.
pub fn settle(
    alloc: Global,
    pieces: &[Piece<'_>],
    left: u32,
    allowance: &mut Allowance,
) -> Result<Found, AllocError>
    requires ready { AreReady (claims_in pieces.now) }
    requires rows { AreRows (claims_in pieces.now) }
    requires count { length pieces.now ≤ 2 ^ 28 }
    requires some { 1 ≤ left }
    ensures { IfOk result (λ found. (claim : Claim) → (frames : List Frame)
        → Lead (claim ∷ []) frames (claims_in pieces.now)
        → IsFound claim (claims_in pieces.now) left found) }
{
    let table = table_of(alloc, pieces)?;
    match differences(alloc, &table.rows)? {
        Some(answer) => match answer {
            DiffAnswer::Refuted(steps) => Ok(closed(alloc, &steps, &table)?),
            DiffAnswer::Model(values) => Ok(Found::Model(values)),
        },
        None => searched(alloc, pieces, &table, left, allowance),
    }
}

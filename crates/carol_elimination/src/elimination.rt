ghost use Rattle.std.specs.Prelude.{◌≡◌, ◌<◌, ◌^◌, ◌↔◌, [], length, IfOk, IfSome, IfNone, IsTrue, OnOk};
ghost use Rattle.carol_formula.specs.Linear.{IsTerm};
ghost use Rattle.carol_elimination.specs.Stage.{first_stage, IsAbsurdRow, variables as all_variables};
ghost use Rattle.carol_elimination.specs.Derived.{AreDerived};
ghost use Rattle.carol_elimination.specs.Stands.{Stand};
ghost use Rattle.carol_elimination.specs.Entries.{terms_of, row_in, rows_in, AreInside};
ghost use Rattle.carol_elimination.specs.Outcome.{AreSound, IsOutcome};

use crate::allowance::Allowance;
use crate::arena::Arena;
use crate::next::{Stop, next};
use crate::stage::Stage;
use carol_cert::{RowStep, StepList};
use carol_formula::{Row, Term, Variable};
use std::alloc::{AllocError, Global};

/// All variables eliminated, one after another.
#[derive(Drop)]
pub struct Elimination {
    /// The rows that were made, with their steps.
    pub arena: Arena,
    /// For each variable the numbers of the rows that stand for all rows of its stage.
    pub stages: Vec<Vec<u32>>,
}

/// What comes of eliminating variables.
#[derive(Drop)]
pub enum Outcome {
    /// No stage has an absurd row.
    Quiet(Elimination),
    /// The steps make an absurd row of the given rows.
    Absurd(StepList),
    /// The least combination of two rows of the arena, which cancels the variable, has a number
    /// that is not below 2^100 in absolute value.
    Wide {
        arena: Arena,
        upper: u32,
        lower: u32,
        variable: u32,
    },
}

// The first stage of the rows.
fn first(alloc: Global, arena: &mut Arena, given: &[Row]) -> Result<Vec<u32>, AllocError>
    requires empty { arena.old ≡ [] }
    requires count { length given.now < 2 ^ 32 }
    ensures inside { IfOk result (λ v. AreInside arena.new v.items) }
    ensures stand { IfOk result (λ v.
        Stand (rows_in arena.new v.items) (first_stage (terms_of given.now))) }
    ensures derived { OnOk result (AreDerived (terms_of given.now) arena.new) }
{
    let mut stage = Stage::new(alloc);
    for at in 0..given.len() {
        let row = given[at].0.copy()?;
        stage.add(arena, RowStep::Given { at: at as u32 }, row)?;
    }
    Ok(stage.into_rows())
}

// The number of an absurd row of the stage.
fn absurd(arena: &Arena, rows: &[u32]) -> Option<u32>
    requires { AreInside arena.now rows.now }
    ensures some { IfSome result (λ at.
        (at < length arena.now) × IsAbsurdRow (row_in arena.now at)) }
    ensures none { IfNone result (AreSound (rows_in arena.now rows.now)) }
{
    for at in rows {
        let row = arena.row(*at);
        if is_absurd(row) {
            return Some(*at);
        }
    }
    None
}

// Whether the row has no variable, and its constant makes it false.
fn is_absurd(row: &Term) -> bool
    ensures value { IsTrue result ↔ IsAbsurdRow row.now }
    ensures term { IsTerm row.now }
{
    row.pairs().is_empty() && row.rest() > 0
}

/// Eliminates all variables, which are those of the given rows in ascending order. It ends at the
/// first stage with an absurd row, and at the first combination that is too wide. Beyond what is
/// allowed there is no room for more rows.
pub fn eliminate(
    alloc: Global,
    given: &[Row],
    variables: &[u32],
    allowance: &mut Allowance,
) -> Result<Outcome, AllocError>
    requires count { length given.now < 2 ^ 32 }
    requires variables { variables.now ≡ all_variables (terms_of given.now) }
    ensures { IfOk result (IsOutcome (terms_of given.now) variables.now) }
{
    let mut arena = Arena::new(alloc);
    let mut rows = first(alloc, &mut arena, given)?;
    let mut stages = Vec::new(alloc);
    for x in variables {
        if let Some(at) = absurd(&arena, &rows) {
            return Ok(Outcome::Absurd(arena.steps_to(alloc, at)?));
        }
        match next(alloc, &mut arena, &rows, Variable(*x), allowance) {
            Ok(more) => {
                stages.push(rows)?;
                rows = more;
            }
            Err(Stop::Wide { upper, lower }) => {
                return Ok(Outcome::Wide {
                    arena,
                    upper,
                    lower,
                    variable: *x,
                });
            }
            Err(Stop::NoMemory) => return Err(AllocError),
        }
    }
    if let Some(at) = absurd(&arena, &rows) {
        return Ok(Outcome::Absurd(arena.steps_to(alloc, at)?));
    }
    Ok(Outcome::Quiet(Elimination { arena, stages }))
}

ghost use Rattle.std.specs.Prelude.{◌≡◌, ◌<◌, ◌^◌, List, length, IfOk};
ghost use Rattle.carol_formula.specs.Linear.{Linear};
ghost use Rattle.carol_elimination.specs.Stage.{variables as all_variables};
ghost use Rattle.carol_elimination.specs.Derived.{AreDerived};
ghost use Rattle.carol_elimination.specs.Entries.{terms_of, row_in};
ghost use Rattle.carol_linear.specs.Answer.{IsDerived};
ghost use Rattle.carol_linear.specs.Visit.{IsVisit};
ghost use Rattle.carol_elimination.specs.Outcome.{IsQuietOutcome};

use crate::answer::Derived;
use crate::branch::Frame;
use crate::leaf;
use carol_cert::{RowStep, StepList};
use carol_elimination::{
    Allowance, Arena, Choice, Elimination, Outcome, choose, eliminate, variables_of,
};
use carol_formula::{Row, Valuation, Variable};
use std::alloc::{AllocError, Global};

/// What there is at a place.
#[derive(Drop)]
pub enum Visit {
    /// The steps close the claims.
    Closed(StepList),
    /// A branch is due.
    Branch(Frame),
    /// The values make the rows true.
    Model(Valuation),
    /// Two rows have no narrow combination.
    Wide {
        upper: Derived,
        lower: Derived,
        variable: Variable,
    },
    /// A row is too large under the values.
    Far {
        row: Derived,
        values: Valuation,
    },
}

// How many rows have a number of their own.
const MOST_ROWS: usize = 1 << 32;

/// Eliminates the variables of the rows at a place, and chooses values for them. There is no room
/// for 2^32 rows, nor for more than is allowed.
pub fn visit_place(
    alloc: Global,
    rows: &[Row],
    names: &[RowStep],
    allowance: &mut Allowance,
) -> Result<Visit, AllocError>
    ensures { IfOk result (IsVisit (terms_of rows.now) names.now) }
{
    if rows.len() >= MOST_ROWS {
        return Err(AllocError);
    }
    let variables = variables_of(alloc, rows)?;
    match eliminate(alloc, rows, &variables, allowance)? {
        Outcome::Quiet(elimination) => chosen(alloc, rows, names, &variables, &elimination),
        Outcome::Absurd(steps) => Ok(Visit::Closed(leaf(alloc, &steps, names)?)),
        Outcome::Wide {
            arena,
            upper,
            lower,
            variable,
        } => Ok(Visit::Wide {
            upper: derived(alloc, &arena, upper)?,
            lower: derived(alloc, &arena, lower)?,
            variable: Variable(variable),
        }),
    }
}

// The row of the arena, with its steps.
fn derived(alloc: Global, arena: &Arena, at: u32) -> Result<Derived, AllocError>
    requires { at < length arena.now }
    ensures derived { IfOk result (λ d. (rows : List Linear) → AreDerived rows arena.now
        → IsDerived rows d) }
    ensures row { IfOk result (λ d. d.row.0 ≡ row_in arena.now at) }
{
    Ok(Derived {
        steps: arena.steps_to(alloc, at)?,
        row: Row(arena.row(at).copy()?),
    })
}

// What comes of choosing values.
fn chosen(
    alloc: Global,
    rows: &[Row],
    names: &[RowStep],
    variables: &[u32],
    elimination: &Elimination,
) -> Result<Visit, AllocError>
    requires count { length rows.now < 2 ^ 32 }
    requires quiet { IsQuietOutcome (terms_of rows.now) variables.now elimination.now }
    requires variables { variables.now ≡ all_variables (terms_of rows.now) }
    ensures { IfOk result (IsVisit (terms_of rows.now) names.now) }
{
    match choose(alloc, rows, variables, elimination)? {
        Choice::Model(values) => Ok(Visit::Model(values)),
        Choice::Stuck { variable, k } => Ok(Visit::Branch(Frame {
            variable,
            k,
            low: None,
            covered: None,
        })),
        Choice::Far { steps, row, values } => Ok(Visit::Far {
            row: Derived { steps, row },
            values,
        }),
    }
}

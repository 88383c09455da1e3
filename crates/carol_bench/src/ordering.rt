ghost use Rattle.std.specs.Prelude.{◌^◌, ◌<◌, unsigned_abs};

use anyhow::bail;
use carol_difference::{DiffAnswer, are_narrow, decide_difference};
use carol_formula::{Row, Term, TermError, Variable};
use std::alloc::{AllocError, Global};

const MOST_VARIABLES: u32 = 2_000;

const MOST_ROWS: usize = 100_000;

/// Decides rows of differences of one kind, one of chain, cycle and grid, over `size` variables, at
/// most 2,000.
pub(crate) fn order(rt: &impl Print, alloc: Global, kind: &str, size: u32) -> anyhow::Result<()> {
    let size = size.min(MOST_VARIABLES);
    let Ok(rows) = rows_of(alloc, kind, size) else {
        bail!("no memory");
    };
    let count = rows.len();
    if count > MOST_ROWS || !are_narrow(&rows) {
        bail!("the rows are too many or too wide");
    }
    let Ok(answer) = decide_difference(alloc, &rows) else {
        bail!("no answer");
    };
    match answer {
        DiffAnswer::Model(_valuation) => println!(rt; "{count} rows: a model")?,
        DiffAnswer::Refuted(steps) => {
            let length = steps.as_slice().len();
            println!(rt; "{count} rows: refuted in {length} steps")?;
        }
    }
    Ok(())
}

fn rows_of(alloc: Global, kind: &str, size: u32) -> Result<Vec<Row>, TermError> {
    let mut rows = Vec::new(alloc);
    match kind {
        "chain" => chain(alloc, &mut rows, size)?,
        "cycle" => {
            chain(alloc, &mut rows, size)?;
            place(alloc, &mut rows, size.saturating_sub(1), 0, 0)?;
        }
        _ => grid(alloc, &mut rows, size)?,
    }
    Ok(rows)
}

// Each variable is above the one before it. The rows stand from the last to the first, so that each
// round lowers one more.
fn chain(alloc: Global, rows: &mut Vec<Row>, size: u32) -> Result<(), TermError> {
    for high in (1..size).rev() {
        place(alloc, rows, high - 1, high, 1)?;
    }
    Ok(())
}

// Each variable is near five others, at places that a grid's neighbours have.
fn grid(alloc: Global, rows: &mut Vec<Row>, size: u32) -> Result<(), TermError> {
    for (distance, gap) in [(1, 2), (39, 5), (40, 7), (41, 11), (80, 13)] {
        for high in distance..size {
            place(alloc, rows, high - distance, high, gap)?;
            place(alloc, rows, high, high - distance, -100)?;
        }
    }
    Ok(())
}

// The variable `high` is at least `low` and the gap.
fn place(
    alloc: Global,
    rows: &mut Vec<Row>,
    low: u32,
    high: u32,
    gap: i128,
) -> Result<(), TermError>
    requires { unsigned_abs gap < 2 ^ 100 }
{
    let low = Term::variable(alloc, Variable(low))?;
    let high = Term::variable(alloc, Variable(high))?;
    let term = low.sub(&high)?.add(&Term::constant(alloc, gap))?;
    rows.push(Row(term)).map_err(AllocError::from)?;
    Ok(())
}

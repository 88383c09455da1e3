//! Measures of what the program stands on, for `bench/`, and a table of systems that are decided
//! with evidence.
//!
//! - `carol_bench table` decides each system of a table, tests the evidence, and prints what came
//!   of it.
//! - `carol_bench decide TURNS` decides the formula that stands on standard input as steps, in at
//!   most so many turns.
//! - `carol_bench order KIND SIZE` decides rows of differences of one kind.
//! - `carol_bench check` gives the verdict of the type check on the program that stands on standard
//!   input, `carol_bench count` how many formulas are decided for it, and how many nodes they have.
//!
//! Layer: program. Called by nobody: it is a program of its own.
#![tactic(auto)]

mod checking;
mod counts;
mod deciding;
mod formulas;
mod ordering;
mod table;
mod tally;

use anyhow::bail;
use carol_outer::{StdinSource, read_all};
use std::env;

const MOST_BYTES: usize = 67_108_864;

fn main(rt: HostRuntime) -> anyhow::Result<()> {
    let mut words = env::args(&rt)?;
    let _program = words.next();
    let Some(word) = words.next() else {
        bail!("table, decide, order, check or count is wanted");
    };
    if word.as_str() == "table" {
        return table::table(&rt, rt.alloc());
    }
    if word.as_str() == "order" {
        let (Some(kind), Some(size)) = (words.next(), words.next()) else {
            bail!("a kind and a size are wanted");
        };
        let size = size.as_str().parse::<u32>()?;
        return ordering::order(&rt, rt.alloc(), kind.as_str(), size);
    }
    let mut source = StdinSource::new(rt.reader());
    let Ok(bytes) = read_all(rt.alloc(), &mut source, MOST_BYTES) else {
        bail!("no input");
    };
    if word.as_str() == "decide" {
        let Some(turns) = words.next() else {
            bail!("a number of turns is wanted");
        };
        let turns = turns.as_str().parse::<u32>()?;
        return deciding::decided(&rt, rt.alloc(), &bytes, turns);
    }
    if bytes.len() > MOST_BYTES {
        bail!("the input is too long");
    }
    checking::checked(&rt, rt.alloc(), &bytes, word.as_str() == "count")
}

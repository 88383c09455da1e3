use crate::counts::{Counts, counts_of};
use crate::formulas::formula_of;
use anyhow::bail;
use carol_decide::{Answer, Why, can_decide, decide};
use std::alloc::Global;

const MOST_LEAVES: u32 = 1_000_000;

/// Decides the formula that the steps make, in at most so many turns, from 1 to 1,000,000.
///
/// Each line is a step. `le K V C V C ..` compares the sum of the constant K and of the products of
/// variables V and coefficients C with 0, and so do `eq` and `ne`; `and` and `or` join the two
/// formulas before them.
pub(crate) fn decided(
    rt: &impl Print,
    alloc: Global,
    steps: &[u8],
    turns: u32,
) -> anyhow::Result<()> {
    let Some(formula) = formula_of(alloc, steps)? else {
        bail!("the steps make no formula");
    };
    if !can_decide(&formula) {
        bail!("the formula is too large or too wide");
    }
    let Ok(answer) = decide(alloc, &formula, turns.clamp(1, MOST_LEAVES)) else {
        bail!("no memory");
    };
    say(rt, &answer)
}

fn say(rt: &impl Print, answer: &Answer) -> anyhow::Result<()> {
    match answer {
        Answer::Sat(_) => println!(rt; "sat")?,
        Answer::Unsat(tree) => {
            let Counts { turns, rows } = counts_of(tree);
            println!(rt; "unsat in {turns} turns, {rows} rows")?;
        }
        Answer::Undecided(Why::Leaves(tree)) => {
            let Counts { turns, rows } = counts_of(tree);
            println!(rt; "undecided after {turns} turns, {rows} rows")?;
        }
        Answer::Undecided(Why::Wide(_)) => println!(rt; "undecided: wide")?,
        Answer::Undecided(Why::Far(_)) => println!(rt; "undecided: far")?,
    }
    Ok(())
}

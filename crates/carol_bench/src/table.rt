use crate::counts::counts_of;
use crate::formulas::formula_of;
use anyhow::bail;
use carol_cert::check;
use carol_decide::{Answer, Why, can_decide, decide};
use carol_formula::{Formula, Valuation};
use std::alloc::Global;

// What is to be answered.
#[derive(Clone, Copy, Debug)]
enum Wanted {
    Unsat,
    Sat,
    Leaves,
}

// Whether the answer is the one that is wanted, and its evidence is right.
fn is_right(formula: &Formula, leaves: u32, answer: &Answer, wanted: Wanted) -> bool {
    match answer {
        Answer::Unsat(tree) => matches!(wanted, Wanted::Unsat) && check(formula, tree),
        Answer::Sat(at) => matches!(wanted, Wanted::Sat) && is_true(formula, at),
        Answer::Undecided(Why::Leaves(tree)) => {
            let spent = counts_of(tree).turns == u64::from(leaves);
            matches!(wanted, Wanted::Leaves) && spent && !check(formula, tree)
        }
        Answer::Undecided(Why::Wide(_) | Why::Far(_)) => false,
    }
}

// Whether the formula is true at the valuation.
fn is_true(formula: &Formula, at: &Valuation) -> bool {
    formula.fits(at) && formula.holds(at)
}

// Each formula in steps, with the number of turns and what is to be answered. The variables are 0,
// 1, ..
const ROWS: [(&[u8], u32, Wanted); 12] = [
    // 2a - 2b - 1 = 0
    (b"eq -1 0 2 1 -2", 20_000, Wanted::Unsat),
    // (a <= 0 or a >= 2) and a = 1, in two turns and in one
    (b"le 0 0 1\nle 2 0 -1\nor\neq -1 0 1\nand", 2, Wanted::Unsat),
    (
        b"le 0 0 1\nle 2 0 -1\nor\neq -1 0 1\nand",
        1,
        Wanted::Leaves,
    ),
    // 27 <= 11x + 13y <= 45 and -10 <= 7x - 9y <= 4: fractions alone
    (
        b"le 27 0 -11 1 -13\nle -45 0 11 1 13\nand\nle -10 0 -7 1 9\nand\nle -4 0 7 1 -9\nand",
        20_000,
        Wanted::Unsat,
    ),
    // the same with 5 for 4: x = 2 and y = 1
    (
        b"le 27 0 -11 1 -13\nle -45 0 11 1 13\nand\nle -10 0 -7 1 9\nand\nle -5 0 7 1 -9\nand",
        20_000,
        Wanted::Sat,
    ),
    // no whole number between 3x >= 1 and 3x <= 2
    (b"le 1 0 -3\nle -2 0 3\nand", 1, Wanted::Unsat),
    // 6x + 10y = 15 has no whole solution, and 6x + 10y = 16 has
    (b"eq -15 0 6 1 10", 1, Wanted::Unsat),
    (b"eq -16 0 6 1 10", 20_000, Wanted::Sat),
    // a row that is absurd by itself
    (b"le 1\nle 0 0 1\nand", 1, Wanted::Unsat),
    // x is not 0, from 0 to 1, and at most 0
    (
        b"ne 0 0 1\nle 0 0 -1\nand\nle -1 0 1\nand\nle 0 0 1\nand",
        20_000,
        Wanted::Unsat,
    ),
    // equal rows, looser ones and `0 <= 3`
    (
        b"le -5 0 2\nle -5 0 2\nand\nle -7 0 2\nand\nle -3\nand\nle 2 0 -1\nand",
        1,
        Wanted::Sat,
    ),
    // nine cases, of which the last alone is true
    (
        b"eq 0 0 3\neq -1 0 3\nor\neq -6 0 3\nor\neq 0 1 3\neq -1 1 3\nor\neq -6 1 3\nor\nand\nle 4 0 -1 1 -1\nand",
        20_000,
        Wanted::Sat,
    ),
];

/// Decides each system of the table, and prints for each what was wanted and whether it was
/// answered with evidence that is right.
pub(crate) fn table(rt: &impl Print, alloc: Global) -> anyhow::Result<()> {
    for (steps, turns, wanted) in &ROWS {
        let Some(formula) = formula_of(alloc, steps)? else {
            bail!("the steps make no formula");
        };
        if !can_decide(&formula) {
            bail!("the formula is too large or too wide");
        }
        let answer = decide(alloc, &formula, (*turns).clamp(1, 1_000_000))?;
        let right = is_right(&formula, *turns, &answer, *wanted);
        println!(rt; "{wanted:?} in {turns}: {right}")?;
    }
    Ok(())
}

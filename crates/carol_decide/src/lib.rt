//! A decision procedure for formulas of linear comparisons over whole numbers. Each answer carries
//! its evidence: a refutation, a valuation, or the reason why the formula stays undecided.
//!
//! Layer: solver. Called by `carol_typecheck` and `carol_accord`.
#![tactic(auto)]

ghost use Rattle.std.specs.Prelude.{◌≤◌, IfOk};
ghost use Rattle.carol_formula.specs.Bounds.{narrow_limit};
ghost use Rattle.carol_formula.specs.Claim.{HasNoNot, ClaimWithin};
ghost use Rattle.carol_formula.specs.Tree.{claim_of};
ghost use Rattle.carol_formula.specs.Size.{nodes_of};
ghost use Rattle.carol_decide.specs.Answer.{IsAnswer, Settles};

mod answer;
mod attempt;
mod count;
mod fitting;
mod fork;
mod found;
mod frame;
mod nearing;
mod piece;
mod table;
mod tested;
mod walk;
mod wish;

use crate::tested::tested;
use crate::walk::Walk;
pub use answer::{Answer, MOST_LEAVES, Why};
use carol_formula::Formula;
pub use fitting::can_decide;
pub use nearing::nearer;
use std::alloc::{AllocError, Global};
pub use wish::{Aim, Wish};

/// Decides whether numbers for the variables make the formula true, in at most `leaves` turns:
/// leaves that close their lists of formulas, and branches. The formula has no `Not` and at most
/// 65,536 nodes, and each of its numbers is below 2^90 in absolute value. Where each comparison is
/// a row of differences and there are as many turns as cases, the answer is never `Undecided`.
pub fn decide(alloc: Global, formula: &Formula, leaves: u32) -> Result<Answer, AllocError>
    requires no_not { HasNoNot (claim_of formula.now) }
    requires narrow { ClaimWithin narrow_limit (claim_of formula.now) }
    requires small { nodes_of (claim_of formula.now) ≤ 65536 }
    requires some { 1 ≤ leaves }
    requires most { leaves ≤ 1000000 }
    ensures answer { IfOk result (IsAnswer (claim_of formula.now) leaves) }
    ensures settles { IfOk result (Settles (claim_of formula.now) leaves) }
{
    if let Some(answer) = tested(alloc, formula, leaves)? {
        return Ok(answer);
    }
    let mut walk = Walk::new(alloc, formula, leaves)?;
    loop {
        if let Some(answer) = walk.step(alloc, formula)? {
            return Ok(answer);
        }
    }
}

/// The same, and numbers that make the formula true are brought near to what is wished, as
/// `nearer` does.
pub fn decide_with(
    alloc: Global,
    formula: &Formula,
    leaves: u32,
    wishes: &[Wish],
) -> Result<Answer, AllocError>
    requires no_not { HasNoNot (claim_of formula.now) }
    requires narrow { ClaimWithin narrow_limit (claim_of formula.now) }
    requires small { nodes_of (claim_of formula.now) ≤ 65536 }
    requires some { 1 ≤ leaves }
    requires most { leaves ≤ 1000000 }
    ensures answer { IfOk result (IsAnswer (claim_of formula.now) leaves) }
    ensures settles { IfOk result (Settles (claim_of formula.now) leaves) }
{
    match decide(alloc, formula, leaves)? {
        Answer::Sat(values) => {
            let values = nearer(formula, values, wishes)?;
            Ok(Answer::Sat(values))
        }
        Answer::Unsat(tree) => Ok(Answer::Unsat(tree)),
        Answer::Undecided(why) => Ok(Answer::Undecided(why)),
    }
}

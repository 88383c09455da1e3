ghost use Rattle.std.specs.Prelude.{◌≤◌, IfOk, IfSome};
ghost use Rattle.carol_formula.specs.Claim.{HasNoNot};
ghost use Rattle.carol_formula.specs.Tree.{claim_of};
ghost use Rattle.carol_decide.specs.Answer.{IsAnswer, IsDecided};

use crate::answer::Answer;
use crate::attempt::is_met;
use carol_cert::{Refutation, check_within};
use carol_formula::{Formula, Valuation};
use carol_search::{Found, search};
use std::alloc::{AllocError, Global};

// The tree, where it refutes the formula in so many turns.
fn refuted(formula: &Formula, leaves: u32, tree: Refutation) -> Option<Answer>
    requires { leaves ≤ 1000000 }
    ensures answer { IfSome result (IsAnswer (claim_of formula.now) leaves) }
    ensures decided { IfSome result IsDecided }
{
    if check_within(formula, &tree, leaves) {
        Some(Answer::Unsat(tree))
    } else {
        None
    }
}

// The numbers, where they make the formula true.
fn met(formula: &Formula, leaves: u32, values: Valuation) -> Option<Answer>
    requires { HasNoNot (claim_of formula.now) }
    ensures answer { IfSome result (IsAnswer (claim_of formula.now) leaves) }
    ensures decided { IfSome result IsDecided }
{
    let _leaves = leaves;
    if is_met(formula, &values) {
        Some(Answer::Sat(values))
    } else {
        None
    }
}

/// What a search finds, which promises nothing, where it stands the test.
pub fn tested(alloc: Global, formula: &Formula, leaves: u32) -> Result<Option<Answer>, AllocError>
    requires no_not { HasNoNot (claim_of formula.now) }
    requires most { leaves ≤ 1000000 }
    ensures answer { IfOk result (λ o. IfSome o (IsAnswer (claim_of formula.now) leaves)) }
    ensures decided { IfOk result (λ o. IfSome o IsDecided) }
{
    match search(alloc, formula)? {
        Found::Tree(tree) => Ok(refuted(formula, leaves, tree)),
        Found::Numbers(values) => Ok(met(formula, leaves, values)),
        Found::Nothing => Ok(None),
    }
}

ghost use Rattle.std.specs.Prelude.{◌≡◌, ◌≤◌, ◌<◌, ◌+◌, IfNone, IfSome, IsTrue};
ghost use Rattle.carol_formula.specs.Bounds.{narrow_limit};
ghost use Rattle.carol_formula.specs.Claim.{HasNoNot, ClaimWithin};
ghost use Rattle.carol_formula.specs.Tree.{claim_of};
ghost use Rattle.carol_formula.specs.Size.{nodes_of};

use carol_formula::{Formula, NARROW_LIMIT};

/// The most nodes of a formula that is decided.
const MOST_NODES: u32 = 65_536;

// What is left of so many nodes, where the formula has no more of them and no `Not`.
fn left_of(most: u32, formula: &Formula) -> Option<u32>
    ensures no_not { IfSome result (λ left. HasNoNot (claim_of formula.now)) }
    ensures left { IfSome result (λ left. nodes_of (claim_of formula.now) + left ≡ most) }
    ensures none { IfNone result (HasNoNot (claim_of formula.now)
        → most < nodes_of (claim_of formula.now)) }
{
    match formula {
        Formula::True | Formula::False | Formula::Le(_) | Formula::Eq(_) | Formula::Ne(_) =>
            most.checked_sub(1),
        Formula::And(one, other) | Formula::Or(one, other) => {
            let behind_one = left_of(most, one.get())?;
            let behind_both = left_of(behind_one, other.get())?;
            behind_both.checked_sub(1)
        }
        Formula::Not(_) => None,
    }
}

/// Whether the formula is one that `decide` takes: it has no `Not`, no wide number, and at most
/// 65,536 nodes.
pub fn can_decide(formula: &Formula) -> bool
    ensures no_not { IsTrue result → HasNoNot (claim_of formula.now) }
    ensures narrow { IsTrue result → ClaimWithin narrow_limit (claim_of formula.now) }
    ensures small { IsTrue result → nodes_of (claim_of formula.now) ≤ 65536 }
    ensures all { let c = claim_of formula.now in
        HasNoNot c → ClaimWithin narrow_limit c → nodes_of c ≤ 65536 → IsTrue result }
{
    formula.is_within(NARROW_LIMIT) && left_of(MOST_NODES, formula).is_some()
}

ghost use Rattle.std.specs.Prelude.{◌≤◌, IfOk};
ghost use Rattle.carol_formula.specs.Size.{IsLight, nodes_of};
ghost use Rattle.carol_formula.specs.Tree.{claim_of};
ghost use Rattle.carol_accord.specs.Parts.{Decides, most_formula};

use carol_decide::{Answer, MOST_LEAVES, Wish, decide_with};
use carol_formula::Formula;
use std::alloc::{AllocError, Global};

/// Whether numbers for the variables make the formula true. Those that do are brought near to what
/// is wished.
pub(crate) fn decided(
    alloc: Global,
    formula: &Formula,
    wishes: &[Wish],
) -> Result<Answer, AllocError>
    requires light { IsLight (claim_of formula.now) }
    requires small { nodes_of (claim_of formula.now) ≤ most_formula }
    ensures { IfOk result (Decides (claim_of formula.now)) }
{
    let plain = formula.negation_form(alloc)?;
    decide_with(alloc, &plain, MOST_LEAVES, wishes)
}

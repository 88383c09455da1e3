ghost use Rattle.std.specs.Prelude.{◌≡◌, ◌<◌, ◌^◌, IfOk};
ghost use Rattle.carol_cert.specs.Proof.{proof_of};
ghost use Rattle.carol_cert.specs.Counts.{turns_of};

use carol_cert::Refutation;
use std::alloc::{AllocError, Global};

/// How many turns the tree has. The trees that are still to be counted wait in a list, since a tree
/// can be deep.
pub fn count_turns(alloc: Global, tree: &Refutation) -> Result<u32, AllocError>
    requires { turns_of (proof_of tree.now) < 2 ^ 32 }
    ensures { IfOk result (λ turns. turns ≡ turns_of (proof_of tree.now)) }
{
    let mut waiting = Vec::new(alloc);
    waiting.push(tree)?;
    let mut turns = 0;
    while let Some(next) = waiting.pop() {
        match next {
            Refutation::Absurd { at: _ } => turns += 1,
            Refutation::Rows(_) => turns += 1,
            Refutation::Unclosed => {}
            Refutation::Part { at: _, rest } => waiting.push(rest.get())?,
            Refutation::Split { at: _, left, right } => {
                waiting.push(left.get())?;
                waiting.push(right.get())?;
            }
            Refutation::Branch {
                variable: _,
                k: _,
                low,
                high,
            } => {
                turns += 1;
                waiting.push(low.get())?;
                waiting.push(high.get())?;
            }
        }
    }
    Ok(turns)
}

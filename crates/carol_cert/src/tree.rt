ghost use Rattle.std.specs.Prelude.{◌≡◌, ◌+◌, ◌<◌, ◌≤◌, ◌↔◌, IsTrue};
ghost use Rattle.carol_cert.specs.Proof.{rank_of};

use crate::StepList;
use carol_formula::{Boxed, Variable};

/// A tree that shows that the formulas of a list are never all true at once. The list grows and
/// changes on the way down, and `at` is a formula's number in it, from 0.
#[derive(Debug)]
pub enum Refutation {
    /// Formula `at` is `False`.
    Absurd {
        at: u32,
    },
    /// Formula `at` is an `And`: its left part stands in its place, and its right part comes last.
    Part {
        at: u32,
        rest: Boxed<Refutation>,
    },
    /// Formula `at` is an `Or` of two cases, or a `Ne` whose term `t` has the cases `t + 1 <= 0`
    /// and `1 - t <= 0`. On each side its case stands in its place.
    Split {
        at: u32,
        left: Boxed<Refutation>,
        right: Boxed<Refutation>,
    },
    /// The variable is at most `k` on the low side and at least `k + 1` on the high side, as the
    /// last formula.
    Branch {
        variable: Variable,
        k: i128,
        low: Boxed<Refutation>,
        high: Boxed<Refutation>,
    },
    /// The steps make an absurd row.
    Rows(StepList),
    /// Nothing is shown.
    Unclosed,
}

impl Refutation {
    /// Whether the tree is a branch.
    pub(crate) fn is_branch(&self) -> bool {
        matches!(self, Refutation::Branch { .. })
    }

    // The tree has trees as its parts.
    fn has_parts(&self) -> bool
        ensures { IsTrue result ↔ (1 < rank_of self.now) }
    {
        match self {
            Refutation::Absurd { .. } | Refutation::Rows(_) | Refutation::Unclosed => false,
            Refutation::Part { .. } | Refutation::Split { .. } | Refutation::Branch { .. } => true,
        }
    }

    // What is left to be dropped of this left side, taken out of its box, and of the right side;
    // and what stood in the box.
    fn turned(
        self,
        mut emptied: Boxed<Refutation>,
        right: Boxed<Refutation>,
    ) -> (Refutation, Refutation)
        requires parts { 1 < rank_of self }
        ensures falls { rank_of result.0 ≤ rank_of self + rank_of self + rank_of right }
        ensures emptied { result.1 ≡ emptied }
    {
        match self {
            Refutation::Part { at, rest } => (split(at, rest, right), emptied.into_inner()),
            Refutation::Split {
                at,
                left: first,
                right: second,
            } => {
                let was = emptied.replace(split(at, second, right));
                (split(at, first, emptied), was)
            }
            Refutation::Branch {
                variable: _,
                k: _,
                low: first,
                high: second,
            } => {
                let was = emptied.replace(split(0, second, right));
                (split(0, first, emptied), was)
            }
            _ => unreachable!(),
        }
    }
}

// Two sides.
fn split(at: u32, left: Boxed<Refutation>, right: Boxed<Refutation>) -> Refutation
    ensures { result ≡ Refutation.Split at left right }
{
    Refutation::Split { at, left, right }
}

// A loop, so that it takes no stack, however deep the tree is. Of two sides the left one is taken
// apart first: its own right side goes before the right one, in the box that it leaves.
impl Drop for Refutation {
    fn drop(mut self) {
        loop {
            match self {
                Refutation::Absurd { at: _ } => return,
                Refutation::Rows(_) => return,
                Refutation::Unclosed => return,
                Refutation::Part { at: _, rest } => self = rest.into_inner(),
                Refutation::Split {
                    at: _,
                    mut left,
                    right,
                }
                | Refutation::Branch {
                    variable: _,
                    k: _,
                    low: mut left,
                    high: right,
                } => {
                    if left.get().has_parts() {
                        let first = left.replace(Refutation::Unclosed);
                        let (next, _emptied) = first.turned(left, right);
                        self = next;
                    } else {
                        let _leaf = left.into_inner();
                        self = right.into_inner();
                    }
                }
            }
        }
    }
}

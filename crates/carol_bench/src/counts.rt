use carol_cert::Refutation;

/// How large a tree is.
#[derive(Clone, Copy, Debug)]
pub struct Counts {
    /// Leaves that close their lists, and branches.
    pub turns: u64,
    /// Rows of all leaves.
    pub rows: u64,
}

impl Counts {
    fn and(self, other: Counts) -> Counts {
        Counts {
            turns: self.turns.saturating_add(other.turns),
            rows: self.rows.saturating_add(other.rows),
        }
    }
}

/// The counts of a tree.
pub fn counts_of(tree: &Refutation) -> Counts {
    let one = Counts { turns: 1, rows: 0 };
    match tree {
        Refutation::Absurd { .. } => one,
        Refutation::Part { rest, .. } => counts_of(rest.get()),
        Refutation::Split { left, right, .. } => {
            counts_of(left.get()).and(counts_of(right.get()))
        }
        Refutation::Branch { low, high, .. } => {
            one.and(counts_of(low.get())).and(counts_of(high.get()))
        }
        Refutation::Rows(steps) => Counts {
            turns: 1,
            rows: steps.as_slice().len() as u64,
        },
        Refutation::Unclosed => Counts { turns: 0, rows: 0 },
    }
}

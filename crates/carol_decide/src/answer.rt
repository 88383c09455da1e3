use carol_cert::Refutation;
use carol_formula::Valuation;
use carol_linear::{Far, Wide};

/// How many turns the decision of a formula of a program may take.
pub const MOST_LEAVES: u32 = 20_000;

/// Why a formula stays undecided.
#[derive(Debug, Drop)]
pub enum Why {
    /// All turns are taken, and the tree has unclosed leaves.
    Leaves(Refutation),
    /// In one case of the formula a combination of two rows is too wide.
    Wide(Wide),
    /// In one case of the formula a row has too large a value.
    Far(Far),
}

/// What is known of a formula.
#[derive(Debug, Drop)]
pub enum Answer {
    /// The tree refutes it.
    Unsat(Refutation),
    /// The valuation makes it true.
    Sat(Valuation),
    /// Neither was found.
    Undecided(Why),
}

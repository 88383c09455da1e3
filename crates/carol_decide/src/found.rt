use carol_cert::Refutation;
use carol_formula::Valuation;
use carol_linear::{Far, Wide};

/// What is found at a place.
#[derive(Drop)]
pub enum Found {
    /// The tree refutes the formulas, in so many turns.
    Closed { tree: Refutation, turns: u32 },
    /// The valuation makes the whole formula true.
    Model(Valuation),
    /// All turns are taken, and the tree has unclosed leaves.
    Spent(Refutation),
    /// A combination of two rows is too wide.
    Wide(Wide),
    /// A row has too large a value.
    Far(Far),
}

use carol_formula::Formula;
use carol_obligation::Collector;
use carol_program::Place;
use std::alloc::{AllocError, Global};

/// How many formulas there are, and how many nodes they have.
#[derive(Drop)]
pub struct Tally {
    pub obligations: u64,
    pub nodes: u64,
}

impl Collector for Tally {
    ghost holds = { λ tally taken. Unit {0} };

    fn take(&mut self, _alloc: Global, _place: Place, formula: Formula) -> Result<(), AllocError> {
        self.obligations = self.obligations.saturating_add(1);
        self.nodes = self.nodes.saturating_add(u64::from(formula.nodes()));
        Ok(())
    }
}

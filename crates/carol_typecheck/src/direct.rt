ghost use Rattle.std.specs.Prelude.{◌≡◌};

use crate::aims::Aims;
use crate::judge::judge;
use crate::verdict::Verdict;
use carol_formula::Formula;
use carol_obligation::{Collector, Obligation};
use carol_program::Place;
use std::alloc::{AllocError, Global};

/// Decides each obligation as it comes, up to the first that isn't proved.
#[derive(Drop)]
pub(crate) struct Judging<'a> {
    aims: Aims<'a>,
    /// The verdict on all that was taken.
    pub(crate) found: Verdict,
}

impl<'a> Judging<'a> {
    /// Nothing is taken yet.
    pub(crate) fn new(aims: Aims<'a>) -> Judging<'a>
        ensures { result.found ≡ Verdict.Good }
    {
        Judging {
            aims,
            found: Verdict::Good,
        }
    }
}

impl<'a> Collector for Judging<'a> {
    ghost use Rattle.carol_typecheck.specs.Formulas.{IsVerdictOn};

    ghost holds = { λ judging taken. IsVerdictOn taken judging.found };

    fn take(&mut self, alloc: Global, place: Place, formula: Formula) -> Result<(), AllocError> {
        if !self.found.is_good() {
            return Ok(());
        }
        self.found = judge(alloc, self.aims, &Obligation { place, formula })?;
        Ok(())
    }
}

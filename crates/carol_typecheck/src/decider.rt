ghost use Rattle.std.specs.Prelude.{◌≡◌, [], List, IfOk};
ghost use Rattle.carol_formula.specs.Claim.{Claim};
ghost use Rattle.carol_program.specs.declared.places.Place.{Place as PlaceOf};
ghost use Rattle.carol_typecheck.specs.Deciding.{IsFoundSoFar};
ghost use Rattle.carol_typecheck.specs.Formulas.{IsVerdictOn};

use crate::aims::Aims;
use crate::batch::Batch;
use crate::verdict::Verdict;
use carol_formula::Formula;
use carol_obligation::{Collector, Obligation};
use carol_program::Place;
use std::alloc::{AllocError, Global};
use std::thread::Threads;

/// Decides the obligations that it takes, a batch at a time, up to the first that isn't proved.
#[derive(Drop)]
pub(crate) struct Decider<'a, R: Threads + Sync> {
    rt: &'a R,
    aims: Aims<'a>,
    batch: Batch,
    found: Verdict,
}

impl<'a, R: Threads + Sync> Decider<'a, R> {
    /// Nothing is taken yet.
    pub(crate) fn new(rt: &'a R, alloc: Global, aims: Aims<'a>) -> Decider<'a, R>
        ensures batch { result.batch ≡ [] }
        ensures found { result.found ≡ Verdict.Good }
    {
        Decider {
            rt,
            aims,
            batch: Batch::new(alloc),
            found: Verdict::Good,
        }
    }

    /// The verdict on all that was taken.
    pub(crate) fn verdict(self, alloc: Global) -> Result<Verdict, AllocError>
        ensures { IfOk result (λ v. (taken : List (PlaceOf × Claim))
            → IsFoundSoFar self.entry.found self.entry.batch taken → IsVerdictOn taken v) }
    {
        let Decider {
            rt,
            aims,
            batch,
            found,
        } = self;
        if found.is_good() {
            batch.verdict(rt, alloc, aims)
        } else {
            Ok(found)
        }
    }
}

impl<'a, R: Threads + Sync> Collector for Decider<'a, R> {
    ghost use Rattle.std.specs.Thread.{IsSync};
    ghost use Rattle.carol_typecheck.specs.Deciding.{IsFoundSoFar};

    ghost holds = { λ decider taken. IsFoundSoFar decider.found decider.batch taken };

    ghost needs = { IsSync R.row };

    fn take(&mut self, alloc: Global, place: Place, formula: Formula) -> Result<(), AllocError> {
        if !self.found.is_good() {
            return Ok(());
        }
        self.batch.push(Obligation { place, formula })?;
        if self.batch.is_full() {
            self.found = self.batch.verdict(self.rt, alloc, self.aims)?;
            self.batch.clear();
        }
        Ok(())
    }
}

use carol_formula::Formula;
use carol_program::Place;
use std::alloc::{AllocError, Global};

/// What takes obligations, one after another.
pub trait Collector {
    ghost use Rattle.std.specs.Prelude.{◌∷◌, [], List, OnOk, ⊤};
    ghost use Rattle.carol_formula.specs.Claim.{Claim};
    ghost use Rattle.carol_formula.specs.Tree.{claim_of};
    ghost use Rattle.carol_program.specs.declared.places.Place.{Place};
    ghost use Rattle.carol_obligation.specs.Budget.{IsDecidable};
    ghost use Rattle.carol_obligation.specs.Passing.{Passes};

    ghost holds: { Self → List (Place × Claim) → Type 0 };

    // What `take` may count on beside its arguments, as that a handle may go to other threads.
    ghost needs: { Type 0 } = { ⊤ };

    /// Takes the formula of a place.
    fn take(&mut self, alloc: Global, place: Place, formula: Formula) -> Result<(), AllocError>
        requires needs { needs }
        requires formula { IsDecidable (claim_of formula) }
        ensures { OnOk result (Passes holds self.old self.new ((place, claim_of formula) ∷ [])) };
}

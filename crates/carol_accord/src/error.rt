ghost use Rattle.std.specs.Prelude.{◌≡◌};

use carol_decide::Why;
use carol_formula::Valuation;
use carol_program::Place;
use std::alloc::AllocError;
use thiserror::Error;

/// Why there is no table of accords.
#[derive(Debug, Drop, Error)]
pub enum AccordError {
    /// The guard is false where both stores have the values of `at`, and all before it is decided.
    #[error("a guard is false of two equal stores")]
    NotReflexive {
        /// The guard's number, from 0.
        guard: u32,
        /// The value of each cell, by its number.
        at: Valuation,
    },
    /// It isn't known whether a guard is true of equal stores, or whether a step keeps it, and all
    /// before it is decided.
    #[error("an accord is undecided")]
    Undecided {
        /// The guard, or its step.
        place: Place,
        /// Why neither a refutation nor stores were found.
        why: Why,
    },
    /// Memory ran out.
    #[error("no memory")]
    NoMemory,
}

impl From<AllocError> for AccordError {
    ghost use Rattle.carol_accord.specs.declared.error.AccordError.TheVariants.{NoMemory};

    ghost from_gives = { λ _ e. e ≡ NoMemory };

    fn from(_: AllocError) -> AccordError {
        AccordError::NoMemory
    }
}

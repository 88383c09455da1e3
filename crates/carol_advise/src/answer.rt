ghost use Rattle.std.specs.Prelude.{◌≡◌};

use carol_advise_guards::GuardNumbers;
use carol_decide::Why;
use carol_formula::Valuation;
use carol_program::Place;
use sqlite_items::Items;
use std::alloc::AllocError;
use thiserror::Error;

/// An assignment under which the operation isn't good.
#[derive(Debug, Drop)]
pub struct Rejected {
    /// A guard for each query, by slot.
    pub guards: GuardNumbers,
    /// The first place that isn't proved.
    pub place: Place,
    /// Numbers that are a breach there.
    pub at: Valuation,
}

/// Rejected assignments, in order.
pub type RejectedList = Items<Rejected>;

/// The guards that are advised.
#[derive(Debug, Drop)]
pub struct Advice {
    /// A guard for each query, by slot.
    pub guards: GuardNumbers,
    /// How many No entries these guards have together.
    pub bars: u32,
    /// The assignments that stand before it in order.
    pub rejected: RejectedList,
}

/// Why nothing is advised.
#[derive(Debug, Drop, Error)]
pub enum AdviseError {
    /// The operation has more than `MOST_ASSIGNMENTS` assignments.
    #[error("the operation has too many assignments")]
    TooMany,
    /// All assignments before this one have a breach, and it isn't known whether this one has.
    #[error("it is undecided whether the operation is good under an assignment")]
    Undecided {
        /// A guard for each query, by slot.
        guards: GuardNumbers,
        /// The first place that isn't proved.
        place: Place,
        /// Why neither a refutation nor a breach was found.
        why: Why,
    },
    /// Memory ran out.
    #[error("no memory")]
    NoMemory,
}

impl From<AllocError> for AdviseError {
    ghost use Rattle.carol_advise.specs.declared.answer.AdviseError.TheVariants.{NoMemory};

    ghost from_gives = { λ _ error. error ≡ NoMemory };

    fn from(_: AllocError) -> AdviseError {
        AdviseError::NoMemory
    }
}

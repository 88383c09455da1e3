use std::alloc::AllocError;
use thiserror::Error;

/// Why a house could not enter an event.
#[derive(Clone, Copy, Debug, PartialEq, Eq, Error)]
pub enum HouseError {
    /// The history has 131,072 events.
    #[error("the history is full")]
    Full,
    /// There is no memory for another event.
    #[error("out of memory")]
    NoMemory,
}

impl From<AllocError> for HouseError {
    ghost use Rattle.std.specs.Prelude.{◌≡◌};
    ghost use Rattle.carol_house.specs.declared.error.HouseError.TheVariants.{NoMemory};

    ghost from_gives = { λ _ e. e ≡ NoMemory };

    fn from(_: AllocError) -> HouseError {
        HouseError::NoMemory
    }
}

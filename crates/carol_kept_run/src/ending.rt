ghost use Rattle.std.specs.Prelude.{◌≡◌};

use carol_history::{BadStatement, ScriptCause};
use carol_vault::VaultError;
use std::alloc::AllocError;
use thiserror::Error;

/// What came of a statement.
#[derive(Clone, Copy, Debug, PartialEq, Eq)]
pub enum Made {
    /// Its event, which is acknowledged.
    Event,
    /// None, for this cause.
    Silent(ScriptCause),
    /// None, as the history has 131,072 events.
    Full,
}

/// How a script ended.
#[derive(Clone, Copy, Debug, PartialEq, Eq)]
pub enum Ending {
    /// Each statement gave an event.
    Done,
    /// This statement gave none.
    Bad(BadStatement),
    /// The statement behind so many others found a history of 131,072 events.
    Full(usize),
}

/// What broke off a script. No more than the acknowledged events were told.
#[derive(Clone, Copy, Debug, PartialEq, Eq, Error)]
pub enum Broken {
    /// The disk failed.
    #[error("the disk failed")]
    Disk,
    /// The sink failed.
    #[error("writing failed")]
    Sink,
    /// There was no memory.
    #[error("out of memory")]
    NoMemory,
}

impl From<AllocError> for Broken {
    ghost use Rattle.carol_kept_run.specs.declared.ending.Broken.TheVariants.{NoMemory};

    ghost from_gives = { λ _ broken. broken ≡ NoMemory };

    fn from(_: AllocError) -> Broken {
        Broken::NoMemory
    }
}

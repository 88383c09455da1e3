ghost use Rattle.std.specs.Prelude.{◌≡◌};
ghost use Rattle.carol_reply.specs.Texts.{stop_answer};

use super::status::Status;
use carol_outer::ReadError;
use std::alloc::AllocError;

/// What keeps a word from being done, whatever the input is. Its text takes no memory.
#[derive(Clone, Copy, Debug, PartialEq, Eq)]
pub enum Stop {
    /// Reading the input failed.
    ReadFault,
    /// There was no memory.
    NoMemory,
    /// The input is too long.
    TooLong,
}

impl Stop {
    /// The status that says it.
    pub fn status(self) -> Status
        ensures { result ≡ (stop_answer self).0 }
    {
        match self {
            Stop::ReadFault => Status::ReadFault,
            Stop::NoMemory => Status::NoMemory,
            Stop::TooLong => Status::TooLong,
        }
    }

    /// The text of that status.
    pub fn text(self) -> &'static [u8]
        ensures { result.now ≡ (stop_answer self).1 }
    {
        match self {
            Stop::ReadFault => b"read fault\n",
            Stop::NoMemory => b"no memory\n",
            Stop::TooLong => b"too long\n",
        }
    }
}

impl From<ReadError> for Stop {
    ghost use Rattle.carol_reply.specs.Texts.{stop_of};

    ghost from_gives = { λ error stop. stop ≡ stop_of error };

    fn from(error: ReadError) -> Stop {
        match error {
            ReadError::Fault => Stop::ReadFault,
            ReadError::TooLong => Stop::TooLong,
            ReadError::NoMemory => Stop::NoMemory,
        }
    }
}

impl From<AllocError> for Stop {
    ghost use Rattle.carol_reply.specs.declared.stop.Stop.TheVariants.{NoMemory};

    ghost from_gives = { λ _ stop. stop ≡ NoMemory };

    fn from(_: AllocError) -> Stop {
        Stop::NoMemory
    }
}

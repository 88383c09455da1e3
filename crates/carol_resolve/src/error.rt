ghost use Rattle.std.specs.Prelude.{◌≡◌};

use carol_meaning::{Fault, NameKind};
use carol_program::Name;
use carol_syntax::Span;
use std::alloc::AllocError;
use thiserror::Error;

/// Why a file stands for no program.
#[derive(Debug, Drop, Error)]
pub enum NameError {
    /// The first thing that is wrong, and the first name of the path at fault; the name is empty
    /// where there is none.
    #[error("{kind:?} at {span:?}")]
    Wrong {
        kind: NameKind,
        name: Name,
        span: Span,
    },
    #[error("no memory")]
    NoMemory,
}

impl From<AllocError> for NameError {
    ghost use Rattle.carol_resolve.specs.declared.error.NameError.TheVariants.{NoMemory};

    ghost from_gives = { λ _ e. e ≡ NoMemory };

    fn from(_: AllocError) -> Self {
        NameError::NoMemory
    }
}

impl From<Fault> for NameError {
    ghost use Rattle.carol_resolve.specs.declared.error.NameError.TheVariants.{Wrong};

    ghost from_gives = { λ f e. e ≡ Wrong f.kind f.name f.span };

    fn from(fault: Fault) -> Self {
        NameError::Wrong {
            kind: fault.kind,
            name: fault.name,
            span: fault.span,
        }
    }
}

ghost use Rattle.std.specs.Prelude.{◌≡◌};

use carol_grammar::TextLimit;
use std::alloc::AllocError;
use thiserror::Error;

/// Why a text is not read.
#[derive(Clone, Copy, Debug, PartialEq, Eq, Error)]
pub enum TextError {
    /// No file goes on with the token here, no token begins with the byte here, or the text ends
    /// here and is no file. Line and column count from 1, columns in bytes.
    #[error("text {line} {column}")]
    Bad { line: u32, column: u32 },
    /// A limit is passed, and nothing before it or at it is bad.
    #[error("a limit is passed")]
    TooLarge(TextLimit),
    #[error("no memory")]
    NoMemory,
}

impl From<AllocError> for TextError {
    ghost use Rattle.carol_parse.specs.declared.error.TextError.TheVariants.{NoMemory};

    ghost from_gives = { λ _ e. e ≡ NoMemory };

    fn from(_: AllocError) -> Self {
        TextError::NoMemory
    }
}

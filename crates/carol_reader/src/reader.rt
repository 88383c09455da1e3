ghost use Rattle.std.specs.Prelude.{◌≡◌, ◌-◌, ◌<◌};

use carol_syntax::Lexeme;
use std::alloc::{AllocError, Global};

/// What readers share: the whole text, and their bounds. A repetition has at most `count` members,
/// and what reaches itself goes at most `depth` levels deep; both as many as there are tokens, and
/// one, is enough for any text.
#[derive(Clone, Copy)]
pub struct Reader<'a> {
    pub alloc: Global,
    pub bytes: &'a [u8],
    pub count: usize,
    pub depth: usize,
}

impl<'a> Reader<'a> {
    /// The reader of what stands a level deeper.
    pub fn below(&self) -> Reader<'a>
        requires { 0 < self.now.depth }
        ensures count { result.count ≡ self.now.count }
        ensures depth { result.depth ≡ self.now.depth - 1 }
        ensures bytes { result.bytes.now ≡ self.now.bytes.now }
    {
        Reader {
            alloc: self.alloc,
            bytes: self.bytes,
            count: self.count,
            depth: self.depth - 1,
        }
    }
}

/// Why a reader stopped.
#[derive(Debug, Drop)]
pub enum Halt<'a> {
    /// With the first of these tokens no sentence goes on, or at the end where there are none.
    At(&'a [Lexeme]),
    NoMemory,
}

impl From<AllocError> for Halt<'_> {
    ghost use Rattle.carol_reader.specs.declared.reader.Halt.TheVariants.{NoMemory};

    ghost from_gives = { λ _ e. e ≡ NoMemory };

    fn from(_: AllocError) -> Self {
        Halt::NoMemory
    }
}

/// A tree and the tokens behind it.
pub type Read<'a, X> = Result<(X, &'a [Lexeme]), Halt<'a>>;

ghost use Rattle.std.specs.Prelude.{◌≡◌};
ghost use Rattle.carol_advise_word.specs.OpWord.{op_word, word_of};

/// How long a word is that may be a name, in bytes.
pub const LONGEST_WORD: usize = 64;

/// A word that may be the name of an operation.
#[derive(Clone, Copy, Debug, PartialEq, Eq)]
pub struct OpWord {
    bytes: [u8; LONGEST_WORD],
    length: u8,
}

impl OpWord {
    /// The word of these bytes. One that is too long to be a name is taken as the empty one, which
    /// is no name either.
    pub fn new(word: &[u8]) -> OpWord
        ensures { result ≡ op_word word.now }
    {
        if word.len() > LONGEST_WORD {
            return OpWord {
                bytes: [0; LONGEST_WORD],
                length: 0,
            };
        }
        let mut bytes = [0; LONGEST_WORD];
        bytes[..word.len()].copy_from_slice(word);
        OpWord {
            bytes,
            length: word.len() as u8,
        }
    }

    /// Its bytes.
    pub fn bytes(&self) -> &[u8]
        ensures { result.now ≡ word_of self.now }
    {
        match self.bytes.get(..self.length as usize) {
            Some(bytes) => bytes,
            None => &self.bytes,
        }
    }
}

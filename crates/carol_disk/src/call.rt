ghost use Rattle.std.specs.Prelude.{◌≡◌};

use std::marker::Model;

/// The bytes of a write. Contracts see them as a list.
#[derive(Drop)]
pub struct Piece {
    bytes: Vec<u8>,
}

impl Model for Piece {
    ghost use Rattle.std.specs.Prelude.{List, ℕ};

    ghost Value = { List ℕ };

    ghost view = { λ p. p.bytes.items };
}

impl Piece {
    /// These bytes.
    pub fn new(bytes: Vec<u8>) -> Piece
        ensures { result ≡ bytes.items }
    {
        Piece { bytes }
    }

    /// The bytes.
    pub fn as_slice(&self) -> &[u8]
        ensures { result.now ≡ self.now }
    {
        self.bytes.as_slice()
    }
}

/// A call of a disk that changed it.
#[derive(Drop)]
pub enum Call {
    /// These bytes were written: they were to stand from `at` on, and stand from `place` on, which
    /// is the end where `at` was beyond it.
    Wrote { at: u64, place: u64, bytes: Piece },
    /// The file was ended after so many bytes.
    Cut(u64),
    /// What was written was brought to the disk.
    Synced,
}

use crate::piece::Piece;
use carol_cert::Refutation;

/// A formula that was taken apart on the way to a place, and its number there.
#[derive(Drop)]
pub enum Frame<'a> {
    /// An `And`, whose parts both stand at the place.
    Parts {
        at: u32,
        whole: Piece<'a>,
    },
    /// An `Or` or a `Ne`, of which the way goes by the low side. The other side is waiting.
    Low {
        at: u32,
        whole: Piece<'a>,
        other: Piece<'a>,
    },
    /// An `Or` or a `Ne`, of which the way goes by the high side. The tree refutes the low one.
    High {
        at: u32,
        whole: Piece<'a>,
        low: Refutation,
    },
}

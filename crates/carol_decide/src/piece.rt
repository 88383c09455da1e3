use carol_formula::{Formula, Term};

/// A formula at a place: the whole one, a part of it, or a case of a `Ne`.
#[derive(Clone, Copy)]
pub enum Piece<'a> {
    /// The formula or a part of it.
    Whole(&'a Formula),
    /// The term is below 0, as `t + 1 <= 0`.
    Negative(&'a Term),
    /// The term is above 0, as `1 - t <= 0`.
    Positive(&'a Term),
}

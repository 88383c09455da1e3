use carol_store::CellKind;

/// What a path of cells names.
#[derive(Clone, Copy, Debug, PartialEq, Eq)]
pub enum Named {
    /// A cell, by its number.
    Cell { number: u32, kind: CellKind },
    /// A set, by the number of its first cell and how many it has.
    Members { first: u32, count: u32 },
    /// Nothing that is declared.
    Missing,
    /// Something that is no cell and no set.
    Misused,
}

use carol_formula::Term;

/// What a name of an operation stands for.
#[derive(Debug, Drop)]
pub enum Meaning {
    /// A parameter, by its number.
    Parameter { number: u32 },
    /// A query, by its slot.
    Queried { slot: u32 },
    /// A term; none where it is at fault.
    Bound { term: Option<Term> },
    /// A query of the body, where none can be used.
    Elsewhere,
}

//! What holds of the program that a tree stands for. In `proofs/`, `Terms` has terms and formulas
//! over any way to look a value up, `Cells` and `Looks` the ways that there are, `Issues`, `Orders`
//! and `Bodies` the parts of a body, `Operations` an operation with its names, and `Programs` the
//! whole, whose `faultless_is_well_formed` a crate above cites.
ghost use Rattle.carol_meaning.specs.Laws.{FaultlessIsWellFormed};

/// What holds of every tree without a fault. It does nothing, and is called for its clause.
pub fn resolve_laws()
    // Where a tree of the grammar is small enough and has no fault, its program is well formed.
    ensures { FaultlessIsWellFormed }
{}

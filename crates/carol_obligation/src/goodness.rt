//! An operation is good exactly where no place of it has a breach. A crate above cites `good-safe`
//! of `Guarded`, that a good operation has no breach, and `safe-good` of `Encoded`, that one
//! without a breach is good. Below them `GoodRounds` has the store of the round that is open first, and
//! `Amounts` the atoms of an issue. For `safe-good` numbers are found for each reading from the
//! outside in: `Settling` says which variables have theirs at a place, `Going` what holds of all
//! numbers that keep those, and `Ends` what follows where the reading ends.
ghost use Rattle.carol_obligation.specs.GoodLaw.{NoBreachIsGood};

/// What holds of the places of every operation. It does nothing, and is called for its clause.
pub fn good_laws()
    // An operation of a well-formed program is good exactly where no place of it has a breach.
    ensures { NoBreachIsGood }
{}

//! What the formula of a place says. In `proofs/`, `TruthForms` has formulas by their form,
//! `Numbers` the terms that stand for variables, `KnownLaws` what is known along a way, and
//! `Readings` that this is a reading; `Effects` and `OwedLaws` have what is asked at a place, and
//! `Exact` the whole, whose `formulas_are_exact` a crate above cites.
ghost use Rattle.carol_obligation.specs.TruthLaw.{FormulasAreExact};

/// What holds of every well-formed operation. It does nothing, and is called for its clause.
pub fn truth_laws()
    // The formula of each place is false of exactly the numbers that are a breach there.
    ensures { FormulasAreExact }
{}

//! The bank of the large inputs is accepted: the law that leaves no reason to refuse it but want of
//! memory. `carol_generator` has the program, and its law that nothing is wrong with its names.
//!
//! `proofs/Meant` says what the truth of a formula comes to. `Spots` has the formula of each place
//! of the bank's operations: it is false of nothing, and its decision doesn't stay open. All but
//! one are formulas of differences, which are always decided; the one that adds two variables up is
//! in `Sums`, the rows that elimination makes of it in `Rows`, and that it is decided in `Closed`.
//! `Guard` has the guard, and `Accepted` the law.
//!
//! Layer: checker. There is no code here that does anything; it is called for its clause.
#![tactic(auto)]

ghost use Rattle.carol_bank.specs.Law.{BankIsAccepted};

use carol_meaning::resolve_laws;
use carol_obligation::{good_laws, truth_laws};

/// The bank is accepted, and each verdict on its guard and its operations is that they are good.
pub fn bank_is_accepted()
    ensures { BankIsAccepted }
{
    resolve_laws();
    good_laws();
    truth_laws();
}

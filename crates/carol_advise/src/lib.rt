//! The guards that an operation needs: of all assignments of declared guards to its queries the
//! first in order under which it is good, where those that bar least stand first, and for each
//! before it a breach.
//!
//! Every assignment is checked by itself, as the operation's own is; nothing is shared between
//! them.
//!
//! Layer: checker. Called by the word `advise`.
#![tactic(auto)]

mod advised;
mod answer;
mod attempt;

pub use advised::advise;
pub use answer::{Advice, AdviseError, Rejected, RejectedList};
pub use carol_advise_guards::GuardNumbers;

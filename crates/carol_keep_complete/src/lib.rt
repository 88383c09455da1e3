//! `keep K` is done where `step` is: the law that joins what `keep` means with an input against
//! which nothing stands. Want of memory, and an input or an output that fails, stand apart from
//! that.
//!
//! Layer: program. There is no code here that does anything; `carol_tool` says it of a whole call.
#![tactic(auto)]

ghost use Rattle.carol_keep_complete.specs.Law.{KeepsSucceed};

use carol_grammar::one_outcome;
use carol_history::history_laws;

/// Each right answer to `keep K` has the status of success where nothing stands against `step` with
/// the same input, whatever K is. It does nothing, and is called for its clause.
pub fn keep_succeeds()
    ensures { KeepsSucceed }
{
    one_outcome();
    history_laws();
}

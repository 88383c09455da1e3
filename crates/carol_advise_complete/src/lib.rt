//! `advise OP` is done where nothing stands against its input: the law that joins what `advise`
//! means with what a user knows of the program and of the operation. Want of memory, and an input
//! or an output that fails, stand apart from that.
//!
//! Layer: program. There is no code here that does anything; `carol_tool` says it of a whole call.
#![tactic(auto)]

ghost use Rattle.carol_advise_complete.specs.Law.{AdvisesSucceed};

use carol_grammar::one_outcome;

/// Each right answer to `advise OP` has the status of success where the program is accepted with
/// nothing open, has the operation, and can be asked under each assignment of guards. It does
/// nothing, and is called for its clause.
pub fn advise_succeeds()
    ensures { AdvisesSucceed }
{
    one_outcome();
}

//! `gen N` succeeds: the law that joins what `gen` means with the file that it makes. That file is
//! read from its text, nothing is wrong with its names and its scene, and its program is accepted
//! with nothing left open; so no refusal is a right answer. Want of memory and an output that fails
//! stand apart from that.
//!
//! Layer: program. There is no code here that does anything; `carol_tool` says it of a whole call.
#![tactic(auto)]

ghost use Rattle.carol_gen.specs.Law.{GenIsOk, GeneratedIsInput};

use carol_bank::bank_is_accepted;
use carol_generator::{generated_is_faultless, generated_is_read};
use carol_grammar::one_outcome;

/// Each right answer to `gen N`, N up to 256, has the status of success: the text that is made is
/// an input against which nothing stands. It does nothing, and is called for its clauses.
pub fn gen_is_ok()
    ensures input { GeneratedIsInput }
    ensures ok { GenIsOk }
{
    generated_is_read();
    generated_is_faultless();
    bank_is_accepted();
    one_outcome();
}

//! What holds of the answers of several words.
//!
//! Layer: program. Exported by `carol_tool`.
#![tactic(auto)]

ghost use Rattle.carol_words_laws.specs.Reports.{RunsAreGenuine, StepsAreGenuine};

/// What holds of the reports of `step` and `run`: behind the same program and scene each is the
/// report of a history that the program can make, so that `audit_laws` speaks of it. It does
/// nothing, and is called for its clauses.
pub fn report_laws()
    ensures steps { StepsAreGenuine }
    ensures runs { RunsAreGenuine }
{}

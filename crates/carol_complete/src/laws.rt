ghost use Rattle.carol_complete.specs.Differences.{DifferencesAreDecided};
ghost use Rattle.carol_complete.specs.Laws.{AuditsSucceed, ChecksSucceed, RunsEnd, RunsSucceed, StepsSucceed};

use carol_grammar::one_outcome;
use carol_history::history_laws;
use carol_words_audit::audit_laws;

/// Each right answer to an input against which nothing stands has the status of success, whatever
/// the word. It does nothing, and is called for its clauses.
pub fn complete_laws()
    // Of a file whose program has right names, is accepted, and leaves nothing open.
    ensures checks { ChecksSucceed }
    // Of such a file with a right scene and a script whose statements all give an event.
    ensures steps { StepsSucceed }
    // With a transcript that is the report of a history which the program can make.
    ensures audits { AuditsSucceed }
    // With a scene alone, whose histories have fewer than 131,072 events.
    ensures runs { RunsSucceed }
    // With any scene alone, where the history that came of it has every command done.
    ensures ends { RunsEnd }
{
    one_outcome();
    history_laws();
    audit_laws();
}

/// A program leaves nothing open if each formula that is asked of it is one of differences, with at
/// most 20,000 cases. It does nothing, and is called for its clause.
pub fn decided_laws()
    ensures { DifferencesAreDecided }
{}

ghost use Rattle.carol_audit.specs.Laws.{FindingsAreSingle, ReportsAreGenuine, ReportsAreRead, ReportsAreSingle};

use crate::event_numbers;

/// What holds of the tails of reports: their lines are those of the history's events, and of no
/// other history. It does nothing, and is called for its clauses.
pub fn transcript_laws()
    ensures read { ReportsAreRead }
    ensures single { ReportsAreSingle }
    // And an audit finds it genuine.
    ensures genuine { ReportsAreGenuine }
    // Whatever the tail, one thing is found.
    ensures found { FindingsAreSingle }
{
    event_numbers();
}

ghost use Rattle.carol_words_audit.specs.AuditLaws.{FoundAreReports, ReportsAreFound};

use carol_audit::{tail_laws, transcript_laws};
use carol_simulation::simulation;

/// What holds of the answers of `audit`: transcripts that are reports of an accepted program are
/// genuine, and no others. It does nothing, and is called for its clauses.
pub fn audit_laws()
    ensures found { ReportsAreFound }
    ensures reports { FoundAreReports }
{
    simulation();
    tail_laws();
    transcript_laws();
}

ghost use Rattle.carol_audit.specs.Fitting.{NumbersFit};

use carol_history::history_laws;
use carol_simulation::simulation;

/// In every history of at most 131,072 events that an accepted program can make, the numbers of
/// each event fit its text. It does nothing, and is called for its clause.
pub fn event_numbers()
    ensures { NumbersFit }
{
    simulation();
    history_laws();
}

ghost use Rattle.carol_simulation.specs.Upheld.{AttemptsAreRead, NobodyIsStuck, RunsUphold, TableDecides};

use carol_history::history_laws;
use carol_store::store_laws;

/// In every history of at most 131,072 events that an accepted program can make, at each of its
/// events, live queries stand in their guards' relation to the global store, the invariant is true of
/// it, the history is that of one store read in order, replicas that hold the same entries are equal,
/// and no session meets a fault. It does nothing, and is called for its clauses.
pub fn simulation()
    ensures uphold { RunsUphold }
    // And a session with a command under way always has an event to go on with.
    ensures going { NobodyIsStuck }
    // Its operation reads what the attempt left, as far as it has come, with rounds as they may be.
    ensures walks { AttemptsAreRead }
    // And a right table of accords decides what guards admit.
    ensures decided { TableDecides }
{
    store_laws();
    history_laws();
}

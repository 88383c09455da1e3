ghost use Rattle.carol_simulation.specs.Laws.{NobodyIsBehind, RunsAreShort};

/// What holds of all runs in a valid scene: they have at most `most_events` events and as many more
/// as replicas are cut or joined, and where none are cut nobody is refused behind an entry. It does
/// nothing, and is called for its clauses.
pub fn bound_laws()
    ensures short { RunsAreShort }
    ensures reach { NobodyIsBehind }
{}

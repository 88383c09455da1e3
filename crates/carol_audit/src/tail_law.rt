ghost use Rattle.carol_audit.specs.TailLaws.{EventsAreSingle, FaultsAreSingle, ReadHasNoFault};

/// What holds of all tails: their lines fix the events, and each has events or one fault. It does
/// nothing, and is called for its clauses.
pub fn tail_laws()
    ensures events { EventsAreSingle }
    ensures read { ReadHasNoFault }
    ensures faults { FaultsAreSingle }
{}

ghost use Rattle.carol_store.specs.Laws.{EffectsAddLittle, EffectsCommute, OrderIsFree, StepsReach};

/// What holds of all effects and stores. It does nothing, and is called for its clauses.
pub fn store_laws()
    // Two effects give the same store in either order, and any number of them in any order.
    ensures two { EffectsCommute }
    ensures all { OrderIsFree }
    // An effect raises the bound of a store by the most amount at most.
    ensures little { EffectsAddLittle }
    // An effect keeps what single steps in its directions keep.
    ensures steps { StepsReach }
{}

ghost use Rattle.std.specs.Prelude.{List, ◌∷◌};
ghost use Rattle.carol_program.specs.Rules.{Rules};
ghost use Rattle.carol_program.specs.Scenes.{IsValidScene};
ghost use Rattle.carol_program.specs.declared.scenes.Scene.{Scene};
ghost use Rattle.carol_event.specs.declared.event.Event.{Event};
ghost use Rattle.carol_history.specs.Runs.{Run};
ghost use Rattle.carol_history.specs.Laws.{DoneIsNoneUnderWay, FewStayLow, ForcedIsLegal, ForcedIsSingle, GlobalGrows, HeldAreEntries, LiveAfter, LiveAreNamed, NamesWhatIs, OrdersAgree, PlaceIsBehind, ReplicasAgree, ScriptIsSingle, ScriptRuns};

use carol_store::store_laws;

/// What holds of all histories that can be made: in which order entries come to a replica makes no
/// difference, replicas that hold the same entries are equal, cells stay low up to 131,072 events
/// from a small start, events and live grants name what is there, what a session is to go on with
/// is one event that may come next, and a script comes to one run. It does nothing, and is called
/// for its clauses.
pub fn history_laws()
    ensures orders { OrdersAgree }
    ensures replicas { (p : Rules) (scene : Scene) (past : List Event) → Run p scene past
        → ReplicasAgree p scene past }
    ensures held { (p : Rules) (scene : Scene) (past : List Event) → Run p scene past
        → HeldAreEntries scene past }
    ensures low { FewStayLow }
    ensures named { (p : Rules) (scene : Scene) (event : Event) (past : List Event)
        → Run p scene (event ∷ past) → NamesWhatIs p scene event past }
    ensures live_named { (p : Rules) (scene : Scene) (past : List Event) → Run p scene past
        → LiveAreNamed p scene past }
    ensures live { (past : List Event) → LiveAfter past }
    ensures forced { (p : Rules) (scene : Scene) (past : List Event) → IsValidScene p scene
        → ForcedIsLegal p scene past }
    ensures single { (p : Rules) (scene : Scene) (past : List Event)
        → ForcedIsSingle p scene past }
    ensures done { (scene : Scene) (past : List Event) → DoneIsNoneUnderWay scene past }
    ensures script { (p : Rules) (scene : Scene) → IsValidScene p scene → ScriptRuns p scene }
    ensures one_script { (p : Rules) (scene : Scene) → IsValidScene p scene
        → ScriptIsSingle p scene }
    ensures grows { (p : Rules) (past : List Event) → GlobalGrows p past }
    ensures place { PlaceIsBehind }
{
    store_laws();
}

ghost use Rattle.std.specs.Prelude.{◌≡◌, ◌<◌, length, true, if◌then◌else◌};
ghost use Rattle.std.specs.List.{AllByRecursion};
ghost use Rattle.carol_store.specs.Effects.{IsEffect};
ghost use Rattle.carol_store.specs.Stores.{IsStore, StaysInWords, apply, apply_all, StayInWords};
ghost use Rattle.carol_holding.specs.Held.{holds};
ghost use Rattle.carol_replica.specs.Entries.{held_entries};

use crate::journal::Journal;
use carol_holding::Holding;
use carol_store::{Effect, Shape, Store};

/// The store of the replica: the initial one with the entries applied that the replica holds, in
/// their order. The entries fit the shape of the store, and no cell leaves its word.
pub fn view(
    shape: &Shape,
    initial: &Store,
    journal: &Journal,
    holding: &Holding,
    replica: u32,
) -> Store
    requires replica { replica < length holding.now.replicas }
    requires store { IsStore shape.now initial.now }
    requires effects { AllByRecursion (IsEffect shape.now) journal.now.entries }
    requires words { StayInWords shape.now (held_entries holding.now replica journal.now.entries)
        initial.now }
    ensures { result ≡ apply_all shape.now (held_entries holding.now replica journal.now.entries)
        initial.now }
{
    let mut store = initial.copy();
    for entry in 0..journal.len() {
        let effect = journal.entry(shape, entry);
        apply_held(shape, &mut store, &effect, holding.has(replica, entry));
    }
    store
}

// Applies the effect to the store where it is held.
fn apply_held(shape: &Shape, store: &mut Store, effect: &Effect, held: bool)
    requires store { IsStore shape.now store.old }
    requires effect { IsEffect shape.now effect.now }
    requires words { held ≡ true → StaysInWords shape.now effect.now store.old }
    ensures applied { store.new
        ≡ (if held then apply shape.now effect.now store.old else store.old) }
    ensures store { IsStore shape.now store.new }
{
    if held {
        store.apply(shape, effect);
    }
}

/// The store of all entries: the initial one with each of them applied. The entries fit the shape
/// of the store, and no cell leaves its word.
pub fn whole(shape: &Shape, initial: &Store, journal: &Journal) -> Store
    requires store { IsStore shape.now initial.now }
    requires effects { AllByRecursion (IsEffect shape.now) journal.now.entries }
    requires words { StayInWords shape.now journal.now.entries initial.now }
    ensures { result ≡ apply_all shape.now journal.now.entries initial.now }
{
    let mut store = initial.copy();
    for entry in 0..journal.len() {
        store.apply(shape, &journal.entry(shape, entry));
    }
    store
}

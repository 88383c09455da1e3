ghost use Rattle.std.specs.Prelude.{◌≡◌, ◌≤◌, Err, OnOk};
ghost use Rattle.carol_outer.specs.Faults.{Rose};
ghost use Rattle.carol_kept_run.specs.Telling.{TellsLatest, TellsLatestPart};

use crate::ending::Broken;
use carol_event::print_event;
use carol_house::House;
use carol_outer::{Sink, write_all};
use std::alloc::Global;

/// Writes the line of the latest event.
pub(crate) fn tell_latest<K: Sink>(alloc: Global, house: &House, sink: &mut K) -> Result<(), Broken>
    ensures ok { OnOk result
        (TellsLatest house.now.history (K.taken sink.old) (K.taken sink.new)) }
    ensures part { TellsLatestPart house.now.history (K.taken sink.old) (K.taken sink.new) }
    ensures fault { result ≡ Err Broken.Sink → Rose (K.faults sink.old) (K.faults sink.new) }
    ensures not_disk { result ≡ Err Broken.Disk → ⊥ }
    ensures counted { K.faults sink.old ≤ K.faults sink.new }
{
    let Some(event) = house.history().last() else {
        return Ok(());
    };
    let mut line = Vec::new(alloc);
    print_event(event, &mut line)?;
    match write_all(sink, &line) {
        Ok(()) => Ok(()),
        Err(_) => Err(Broken::Sink),
    }
}

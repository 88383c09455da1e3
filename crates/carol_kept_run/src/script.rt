ghost use Rattle.std.specs.Prelude.{◌≡◌, ◌≤◌, false, Err, IfOk, OnOk};
ghost use Rattle.carol_outer.specs.Faults.{Rose};
ghost use Rattle.carol_disk.specs.Disk.{LeavesOnly};
ghost use Rattle.carol_vault.specs.Vaults.{Holds, acknowledged};
ghost use Rattle.carol_kept_run.specs.Going.{Ends, IsLater};
ghost use Rattle.carol_kept_run.specs.Telling.{Tells, TellsPart, acknowledged_part};

use crate::ending::{Broken, Ending, Made};
use crate::lines::tell_latest;
use crate::statement::keep_statement;
use carol_history::{BadStatement, Statement};
use carol_outer::Sink;
use carol_vault::{Disk, Vault};
use std::alloc::Global;

/// Carries the statements out in order, up to the first that gives no event, and writes the line of
/// each event once it is acknowledged. Wherever it breaks off, no line of another event was begun.
pub fn keep_script<D: Disk, K: Sink>(
    alloc: Global,
    vault: &mut Vault<D>,
    script: &[Statement],
    sink: &mut K,
) -> Result<Ending, Broken>
    requires open { vault.old.closed ≡ false }
    ensures ends { IfOk result (λ ending.
        Ends vault.old.house script.now ending vault.new.house) }
    ensures told { OnOk result (Tells vault.old.house.history vault.new.house.history
        (K.taken sink.old) (K.taken sink.new)) }
    ensures part { TellsPart vault.old.house.history (acknowledged_part vault.new)
        (K.taken sink.old) (K.taken sink.new) }
    ensures later { IsLater vault.old.house.history vault.new.house.history }

    // A crash at any moment leaves a front of the history that has each event which was
    // acknowledged at the start.
    ensures any_moment { LeavesOnly D.moment D.left_since vault.old.disk vault.new.disk
        (Holds (acknowledged vault.old) vault.new.house) }
    ensures disk_fault { result ≡ Err Broken.Disk →
        Rose (D.faults vault.old.disk) (D.faults vault.new.disk) }
    ensures sink_fault { result ≡ Err Broken.Sink →
        Rose (K.faults sink.old) (K.faults sink.new) }
    ensures disk_counted { D.faults vault.old.disk ≤ D.faults vault.new.disk }
    ensures sink_counted { K.faults sink.old ≤ K.faults sink.new }
{
    let _kept = vault.house();
    for (index, line) in script.iter().enumerate() {
        match keep_statement(vault, *line)? {
            Made::Event => tell_latest(alloc, vault.house(), sink)?,
            Made::Silent(cause) => {
                let number = index as u64 + 1;
                return Ok(Ending::Bad(BadStatement { number, cause }));
            }
            Made::Full => return Ok(Ending::Full(index)),
        }
    }
    Ok(Ending::Done)
}

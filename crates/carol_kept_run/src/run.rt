ghost use Rattle.std.specs.Prelude.{◌≡◌, ◌≤◌, false, Some, Err, IfOk, OnOk};
ghost use Rattle.carol_outer.specs.Faults.{Rose};
ghost use Rattle.carol_disk.specs.Disk.{LeavesOnly};
ghost use Rattle.carol_house.specs.House.{IsHistory, UpholdsAll, rules_of};
ghost use Rattle.carol_program.specs.Rules.{rules_in};
ghost use Rattle.carol_program.specs.Scenes.{IsValidScene};
ghost use Rattle.carol_reply.specs.Reply.{answer_of};
ghost use Rattle.carol_vault.specs.Vaults.{Holds, acknowledged};
ghost use Rattle.carol_kept_run.specs.Going.{GoesOn, IsLater, KeptSays};
ghost use Rattle.carol_kept_run.specs.Going.{ending_answer, unopened_answer};
ghost use Rattle.carol_kept_run.specs.Telling.{Tells, TellsPart, acknowledged_part};

use crate::ending::{Broken, Ending};
use crate::ready::Ready;
use crate::script::keep_script;
use carol_history::Statement;
use carol_house::House;
use carol_outer::Sink;
use carol_reply::{Line, Reply, Status, one_line};
use carol_report::report;
use carol_vault::{Disk, OpenCause, Vault};
use std::alloc::{AllocError, Global};

/// Opens the vault that the disk keeps, and goes on by the script. Where the disk keeps no history
/// of the program in the scene, that is told, and nothing else is written. What a crash leaves at a
/// moment of this the clauses of `Vault::open` and `play` say.
pub fn keep_on<D: Disk + Drop, K: Sink>(
    alloc: Global,
    disk: D,
    ready: Ready,
    sink: &mut K,
) -> Result<Reply, Broken>
    requires valid { IsValidScene (rules_in ready.accepted.program) ready.scene }
    ensures says { IfOk result (λ reply. KeptSays ready.accepted ready.scene ready.script
        (D.seen disk) (K.taken sink.old) (K.taken sink.new) (answer_of reply)) }
    ensures sink_fault { result ≡ Err Broken.Sink →
        Rose (K.faults sink.old) (K.faults sink.new) }
    ensures sink_counted { K.faults sink.old ≤ K.faults sink.new }
{
    let Ready {
        accepted,
        scene,
        script,
    } = ready;
    match Vault::open(alloc, disk, accepted, scene) {
        Ok(mut vault) => play(alloc, &mut vault, script.as_slice(), sink),
        Err(failed) => unopened(alloc, failed.cause),
    }
}

/// Goes on by the script from the history that the vault keeps, and tells what came of it. The
/// lines of the events are written on the way, each once its event is acknowledged.
pub fn play<D: Disk, K: Sink>(
    alloc: Global,
    vault: &mut Vault<D>,
    script: &[Statement],
    sink: &mut K,
) -> Result<Reply, Broken>
    requires open { vault.old.closed ≡ false }
    ensures goes_on { IfOk result (λ reply.
        GoesOn vault.old.house script.now vault.new.house (answer_of reply)) }
    ensures told { OnOk result (Tells vault.old.house.history vault.new.house.history
        (K.taken sink.old) (K.taken sink.new)) }
    ensures part { TellsPart vault.old.house.history (acknowledged_part vault.new)
        (K.taken sink.old) (K.taken sink.new) }
    ensures later { IsLater vault.old.house.history vault.new.house.history }

    // A crash at any moment leaves a front of the history that has each event which was
    // acknowledged at the start.
    ensures any_moment { LeavesOnly D.moment D.left_since vault.old.disk vault.new.disk
        (Holds (acknowledged vault.old) vault.new.house) }
    ensures disk_fault { result ≡ Err Broken.Disk →
        Rose (D.faults vault.old.disk) (D.faults vault.new.disk) }
    ensures sink_fault { result ≡ Err Broken.Sink →
        Rose (K.faults sink.old) (K.faults sink.new) }
    ensures disk_counted { D.faults vault.old.disk ≤ D.faults vault.new.disk }
    ensures sink_counted { K.faults sink.old ≤ K.faults sink.new }
{
    let ending = keep_script(alloc, vault, script, sink)?;
    Ok(ended(alloc, vault.house(), ending)?)
}

// What is told of a history at the end.
fn ended(alloc: Global, house: &House, ending: Ending) -> Result<Reply, AllocError>
    ensures told { IfOk result (λ reply. answer_of reply ≡
        ending_answer (rules_of house.now) house.now.scene house.now.history ending) }
    ensures history { IsHistory house.now }
    ensures upheld { UpholdsAll house.now }
{
    let _upheld = house.history();
    match ending {
        Ending::Done => Ok(Reply {
            status: Status::Ok,
            text: report(alloc, house)?,
        }),
        Ending::Bad(bad) => one_line(alloc, Line::BadStatement(bad)),
        Ending::Full(_) => Ok(Reply {
            status: Status::Full,
            text: report(alloc, house)?,
        }),
    }
}

// What is told where no vault was opened.
fn unopened(alloc: Global, cause: OpenCause) -> Result<Reply, Broken>
    ensures told { IfOk result (λ reply. unopened_answer cause ≡ Some (answer_of reply)) }
    ensures not_sink { result ≡ Err Broken.Sink → ⊥ }
{
    match cause {
        OpenCause::Fault => Err(Broken::Disk),
        OpenCause::NoMemory => Err(Broken::NoMemory),
        OpenCause::Damaged(at) => Ok(Reply {
            status: Status::FalseTranscript,
            text: format!(in alloc; "damaged {at}\n")?.into_bytes(),
        }),
        OpenCause::Illegal(number) => Ok(Reply {
            status: Status::FalseTranscript,
            text: format!(in alloc; "illegal {number}\n")?.into_bytes(),
        }),
    }
}

// Keeping one event that is to come.
ghost use Rattle.std.specs.Prelude.{◌≡◌, ◌+◌, ◌^◌, ◌<◌, ◌≤◌, [], ◌∷◌, ◌++◌, length, IfErr, IfOk, OnErr, OnOk};
ghost use Rattle.carol_outer.specs.Faults.{Rose};
ghost use Rattle.carol_disk.specs.Disk.{LeavesOnly};
ghost use Rattle.carol_disk.specs.Gates.{TicksFour};
ghost use Rattle.carol_history.specs.Legal.{Legal};
ghost use Rattle.carol_house.specs.House.{Enters, Rests, rules_of};
ghost use Rattle.carol_vault_image.specs.Records.{body_of};
ghost use Rattle.carol_vault.specs.Steps.{FailsToPrepare};
ghost use Rattle.carol_vault.specs.Vaults.{Holds, IsKept, IsReady};

use crate::error::VaultError;
use carol_audit::event_numbers;
use carol_disk::{Disk, Failed, append};
use carol_event::Event;
use carol_house::{Admitted, House, MOST_EVENTS};
use carol_vault_image::record_body;
use std::alloc::Global;

/// Takes the memory for the event, which may come next: for its record, which is answered, and in
/// the house.
pub(crate) fn prepare(
    alloc: Global,
    house: &mut House,
    event: &Event,
) -> Result<Vec<u8>, VaultError>
    requires { Legal (rules_of house.old) house.old.scene event.now house.old.history }
    ensures body { IfOk result (λ body. body.items ≡ body_of event.now ++ 0 ∷ []) }
    ensures small { IfOk result (λ body. length body.items ≤ 1000) }
    ensures ready { OnOk result ((length house.old.history < MOST_EVENTS)
        × (1 ≤ house.new.spare) × Rests house.old house.new) }
    ensures err { IfErr result (λ error. FailsToPrepare house.old error house.new) }
{
    event_numbers();
    if house.history().len() >= MOST_EVENTS {
        return Err(VaultError::Full);
    }
    let Ok(body) = record_body(alloc, event) else {
        return Err(VaultError::NoMemory);
    };
    if house.reserve(1).is_err() {
        return Err(VaultError::NoMemory);
    }
    Ok(body)
}

/// Keeps the event, which may come next and for which there is room, with this record behind the
/// shut gate. It is entered whether or not the disk fails.
pub(crate) fn commit<D: Disk>(
    disk: &mut D,
    house: &mut House,
    gate: u64,
    event: &Event,
    body: &[u8],
) -> Result<(), Failed>
    requires legal { Legal (rules_of house.old) house.old.scene event.now house.old.history }
    requires few { length house.old.history < MOST_EVENTS }
    requires spare { 1 ≤ house.old.spare }
    requires body { body.now ≡ body_of event.now ++ 0 ∷ [] }
    requires room { gate + 1 < 2 ^ 64 }
    requires ready { IsReady D.seen D.kept D.may_leave disk.old house.old gate }

    ensures enters { Enters house.old event.now house.new }
    ensures ready { OnOk result
        (IsReady D.seen D.kept D.may_leave disk.new house.new (gate + length body.now)) }
    ensures kept { OnErr result
        (IsKept D.kept D.may_leave (length house.old.history) disk.new house.new) }
    ensures any_moment { LeavesOnly D.moment D.left_since disk.old disk.new
        (Holds (length house.old.history) house.new) }
    ensures ticks { TicksFour (D.moment disk.old) (D.moment disk.new) result }
    ensures failed { OnErr result (Rose (D.faults disk.old) (D.faults disk.new)) }
    ensures counted { D.faults disk.old ≤ D.faults disk.new }
    ensures limit { D.limit disk.new ≡ D.limit disk.old }
{
    let done = append(disk, gate, body);
    enter(house, event);
    done
}

// Enters the event, which may come next and for which there is room.
fn enter(house: &mut House, event: &Event)
    requires legal { Legal (rules_of house.old) house.old.scene event.now house.old.history }
    requires few { length house.old.history < MOST_EVENTS }
    requires spare { 1 ≤ house.old.spare }
    ensures { Enters house.old event.now house.new }
{
    match house.admit(event) {
        Ok(Admitted::Entered) => {}
        _ => unreachable!(),
    }
}

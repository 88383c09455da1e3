// Opening a vault for the program and the scene of a house.
ghost use Rattle.std.specs.Prelude.{◌≡◌, ◌⊎◌, ◌+◌, ◌<◌, ◌≤◌, false, length, IfErr, IfOk};
ghost use Rattle.carol_disk.specs.Tapes.{kept_after, seen_of};
ghost use Rattle.carol_house.specs.House.{rules_of};
ghost use Rattle.carol_vault.specs.Opening.{IsCause, Opens, StandsFor, calls_to_open, disk_of};

use carol_house::House;
use carol_vault::{MemoryDisk, OpenCause, OpenFailed, Vault};
use std::alloc::Global;

/// Opens the vault that the disk keeps, for copies of the house's program and scene.
pub(crate) fn open_for(
    alloc: Global,
    disk: MemoryDisk,
    house: &House,
) -> Result<Vault<MemoryDisk>, OpenFailed<MemoryDisk>>
    ensures ok { IfOk result (λ vault.
        Opens house.now.kept house.now.scene (seen_of disk) vault.house) }
    ensures open { IfOk result (λ vault. vault.closed ≡ false) }
    ensures err { IfErr result (λ failed.
        IsCause (rules_of house.now) house.now.scene (seen_of disk) failed.cause) }
    ensures kept { let after = disk_of result in
        (kept_after after.first after.past ≡ kept_after disk.first disk.past)
        ⊎ StandsFor (rules_of house.now) house.now.scene (seen_of disk)
        (kept_after after.first after.past) }
    ensures ticks { IfOk result (λ vault. length vault.disk.past
        ≡ length disk.past + calls_to_open (seen_of disk)) }
    ensures fewer { IfErr result (λ failed. length failed.disk.past
        < length disk.past + calls_to_open (seen_of disk)) }
    ensures fault { IfErr result (λ failed. failed.cause ≡ OpenCause.Fault →
        1 ≤ failed.disk.failures) }
    ensures limit { (disk_of result).stop ≡ disk.stop }
{
    let _valid = house.scene();
    let Ok(accepted) = house.accepted().copy(alloc) else {
        let cause = OpenCause::NoMemory;
        return Err(OpenFailed { disk, cause });
    };
    let Ok(scene) = house.scene().copy(alloc) else {
        let cause = OpenCause::NoMemory;
        return Err(OpenFailed { disk, cause });
    };
    Vault::open(alloc, disk, accepted, scene)
}

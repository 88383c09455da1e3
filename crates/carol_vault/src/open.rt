ghost use Rattle.std.specs.Prelude.{◌≡◌, ◌⊎◌, ◌+◌, ◌<◌, ◌≤◌, ℕ, List, length, false, Err, IfErr, IfOk, OnErr, OnOk};
ghost use Rattle.carol_outer.specs.Faults.{Rose};
ghost use Rattle.carol_disk.specs.Disk.{LeavesOnly, Only};
ghost use Rattle.carol_program.specs.Rules.{rules_in};
ghost use Rattle.carol_program.specs.Scenes.{IsValidScene};
ghost use Rattle.carol_house.specs.House.{rules_of};
ghost use Rattle.carol_vault_image.specs.Records.{Shows, records};
ghost use Rattle.carol_vault.specs.Finding.{IsSound};
ghost use Rattle.carol_vault.specs.Opening.{IsCause, Opens, StandsFor, calls_to_open, disk_of};
ghost use Rattle.carol_vault.specs.Vaults.{IsReady, events_of};

use crate::error::{OpenCause, OpenFailed};
use crate::found::{Found, find};
use crate::vault::Vault;
use carol_disk::{Disk, Failed, WholeError, read_whole, settle};
use carol_house::House;
use carol_program::Scene;
use carol_reading::Accepted;
use std::alloc::Global;

impl<D: Disk> Vault<D> {
    /// Opens the vault of the program in the scene, which is valid for it, that a disk keeps: the
    /// file is synced and read, and ended behind its records. A file of at most one byte keeps no
    /// event. `Damaged` and `Illegal` are answered exactly where the file is so, a fault or want of
    /// memory aside. They and `NoMemory` come before anything is written. `Fault` comes only where
    /// the disk's count of faults rose.
    pub fn open(
        alloc: Global,
        disk: D,
        accepted: Accepted,
        scene: Scene,
    ) -> Result<Vault<D>, OpenFailed<D>>
        requires valid { IsValidScene (rules_in accepted.program) scene }
        ensures ok { IfOk result (λ vault.
            Opens accepted scene (D.seen disk) vault.house × (vault.closed ≡ false)) }
        ensures err { IfErr result (λ failed.
            IsCause (rules_in accepted.program) scene (D.seen disk) failed.cause) }

        // Whatever a crash leaves at a moment of the call stands for the same history, or might
        // have been left before it; once the first sync has succeeded, it stands for it.
        ensures any_moment { let after = disk_of result in
            LeavesOnly D.moment D.left_since disk after
            (λ c. D.may_leave disk c
            ⊎ StandsFor (rules_in accepted.program) scene (D.seen disk) c) }
        ensures synced { let after = disk_of result in
            D.moment disk < D.moment after → (c : List ℕ) →
            D.left_since after (D.moment disk + 1) c →
            StandsFor (rules_in accepted.program) scene (D.seen disk) c }
        ensures kept { let after = disk_of result in (D.kept after ≡ D.kept disk)
            ⊎ StandsFor (rules_in accepted.program) scene (D.seen disk) (D.kept after) }
        ensures ticks { IfOk result (λ vault.
            D.moment vault.disk ≡ D.moment disk + calls_to_open (D.seen disk)) }
        ensures fewer { IfErr result (λ failed.
            D.moment failed.disk < D.moment disk + calls_to_open (D.seen disk)) }
        ensures fault { IfErr result (λ failed. failed.cause ≡ OpenCause.Fault →
            Rose (D.faults disk) (D.faults failed.disk)) }
        ensures counted { D.faults disk ≤ D.faults (disk_of result) }
        ensures limit { D.limit (disk_of result) ≡ D.limit disk }
    {
        let mut disk = disk;
        match begin(alloc, &mut disk, accepted, scene) {
            Ok(begun) => Ok(Vault {
                alloc,
                disk,
                house: begun.house,
                gate: begun.gate,
                closed: false,
            }),
            Err(cause) => Err(OpenFailed { disk, cause }),
        }
    }
}

// A house with the history that a disk keeps, and the place of the shut gate behind its records.
#[derive(Drop)]
struct Begun {
    house: House,
    gate: u64,
}

// Syncs and reads the file, and ends it behind its records.
fn begin<D: Disk>(
    alloc: Global,
    disk: &mut D,
    accepted: Accepted,
    scene: Scene,
) -> Result<Begun, OpenCause>
    requires valid { IsValidScene (rules_in accepted.program) scene }
    ensures ok { IfOk result (λ begun. Opens accepted scene (D.seen disk.old) begun.house) }
    ensures ready { IfOk result (λ begun.
        IsReady D.seen D.kept D.may_leave disk.new begun.house begun.gate) }
    ensures err { IfErr result (IsCause (rules_in accepted.program) scene (D.seen disk.old)) }
    ensures any_moment { LeavesOnly D.moment D.left_since disk.old disk.new
        (λ c. D.may_leave disk.old c
        ⊎ StandsFor (rules_in accepted.program) scene (D.seen disk.old) c) }
    ensures synced { D.moment disk.old < D.moment disk.new → (c : List ℕ) →
        D.left_since disk.new (D.moment disk.old + 1) c →
        StandsFor (rules_in accepted.program) scene (D.seen disk.old) c }
    ensures kept { (D.kept disk.new ≡ D.kept disk.old)
        ⊎ StandsFor (rules_in accepted.program) scene (D.seen disk.old) (D.kept disk.new) }
    ensures ticks { OnOk result
        (D.moment disk.new ≡ D.moment disk.old + calls_to_open (D.seen disk.old)) }
    ensures fewer { OnErr result
        (D.moment disk.new < D.moment disk.old + calls_to_open (D.seen disk.old)) }
    ensures fault { result ≡ Err OpenCause.Fault →
        Rose (D.faults disk.old) (D.faults disk.new) }
    ensures counted { D.faults disk.old ≤ D.faults disk.new }
    ensures limit { D.limit disk.new ≡ D.limit disk.old }
{
    match disk.sync() {
        Ok(()) => recover(alloc, disk, accepted, scene),
        Err(Failed) => Err(OpenCause::Fault),
    }
}

// Reads the file, of which a crash leaves what a read gives, and ends it behind its records.
fn recover<D: Disk>(
    alloc: Global,
    disk: &mut D,
    accepted: Accepted,
    scene: Scene,
) -> Result<Begun, OpenCause>
    requires valid { IsValidScene (rules_in accepted.program) scene }
    requires durable { Only (D.seen disk.old) (D.may_leave disk.old) }
    ensures ok { IfOk result (λ begun. Opens accepted scene (D.seen disk.old) begun.house) }
    ensures ready { IfOk result (λ begun.
        IsReady D.seen D.kept D.may_leave disk.new begun.house begun.gate) }
    ensures err { IfErr result (IsCause (rules_in accepted.program) scene (D.seen disk.old)) }
    ensures any_moment { LeavesOnly D.moment D.left_since disk.old disk.new
        (StandsFor (rules_in accepted.program) scene (D.seen disk.old)) }
    ensures kept { (D.kept disk.new ≡ D.kept disk.old)
        ⊎ StandsFor (rules_in accepted.program) scene (D.seen disk.old) (D.kept disk.new) }
    ensures ticks { OnOk result
        (D.moment disk.new + 1 ≡ D.moment disk.old + calls_to_open (D.seen disk.old)) }
    ensures fewer { OnErr result
        (D.moment disk.new + 1 < D.moment disk.old + calls_to_open (D.seen disk.old)) }
    ensures fault { result ≡ Err OpenCause.Fault →
        Rose (D.faults disk.old) (D.faults disk.new) }
    ensures counted { D.faults disk.old ≤ D.faults disk.new }
    ensures limit { D.limit disk.new ≡ D.limit disk.old }
{
    let bytes = match read_whole(alloc, disk) {
        Ok(bytes) => bytes,
        Err(WholeError::Fault) => return Err(OpenCause::Fault),
        Err(WholeError::NoMemory) => return Err(OpenCause::NoMemory),
    };
    let size = bytes.len() as u64;
    match find(alloc, accepted, scene, bytes.as_slice()) {
        Ok(Found::Sound(house, place)) => {
            let gate = place as u64;
            match finish(disk, &house, gate, size) {
                Ok(()) => Ok(Begun { house, gate }),
                Err(Failed) => Err(OpenCause::Fault),
            }
        }
        Ok(Found::Damaged(at)) => Err(OpenCause::Damaged(at as u64)),
        Ok(Found::Illegal(number)) => Err(OpenCause::Illegal(number)),
        Err(_) => Err(OpenCause::NoMemory),
    }
}

// Ends the file, which keeps the history of the house and has so many bytes, behind its records.
fn finish<D: Disk>(disk: &mut D, house: &House, gate: u64, size: u64) -> Result<(), Failed>
    requires durable { Only (D.seen disk.old) (D.may_leave disk.old) }
    requires sound { IsSound (rules_of house.now) house.now.scene (D.seen disk.old)
        (events_of house.now) }
    requires place { gate ≡ length (records (events_of house.now)) }
    requires size { size ≡ length (D.seen disk.old) }
    ensures ready { OnOk result (IsReady D.seen D.kept D.may_leave disk.new house.now gate) }
    ensures any_moment { LeavesOnly D.moment D.left_since disk.old disk.new
        (λ c. Shows c (events_of house.now)) }
    ensures kept { (D.kept disk.new ≡ D.kept disk.old)
        ⊎ Shows (D.kept disk.new) (events_of house.now) }
    ensures ticks { OnOk result
        (D.moment disk.new + 1 ≡ D.moment disk.old + calls_to_open (D.seen disk.old)) }
    ensures fewer { OnErr result
        (D.moment disk.new + 1 < D.moment disk.old + calls_to_open (D.seen disk.old)) }
    ensures failed { OnErr result (Rose (D.faults disk.old) (D.faults disk.new)) }
    ensures counted { D.faults disk.old ≤ D.faults disk.new }
    ensures limit { D.limit disk.new ≡ D.limit disk.old }
{
    settle(disk, gate, size)
}

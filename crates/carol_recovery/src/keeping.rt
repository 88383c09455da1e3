// Keeping a script's history on a disk that stops, and reading it back.
ghost use Rattle.std.specs.Prelude.{◌≡◌, ◌≤◌, length, take, IfOk};
ghost use Rattle.carol_disk.specs.Tapes.{seen_of};
ghost use Rattle.carol_house.specs.House.{rules_of};
ghost use Rattle.carol_recovery.specs.Counts.{events_kept, history_kept};
ghost use Rattle.carol_recovery.specs.Disks.{KeepsFront, Makes};
ghost use Rattle.carol_report.specs.Report.{report_text};
ghost use Rattle.carol_vault.specs.Vaults.{events_of};
ghost use Rattle.carol_vault_image.specs.Records.{Shows};

use crate::opening::open_for;
use crate::statement::keep_statement;
use carol_history::{MOST_EVENTS, Statement, history_laws};
use carol_house::House;
use carol_report::report;
use carol_vault::{MemoryDisk, OpenCause, VaultError, vault_laws};
use std::alloc::{AllocError, Global};

/// The report of what is read back of the house's history, which the lines make, after a crash of
/// a disk that kept it and stopped at the call with this number.
pub fn read_back(
    alloc: Global,
    stop: u32,
    house: &House,
    lines: &[Statement],
) -> Result<Vec<u8>, AllocError>
    requires makes { Makes house.now lines.now house.now.history }
    requires few { length lines.now ≤ MOST_EVENTS }
    ensures { IfOk result (λ text. text.items ≡ report_text (rules_of house.now) house.now.scene
        (history_kept stop house.now.history)) }
{
    vault_laws();
    let _history = house.history();
    let disk = crashed(alloc, stop, house, lines)?;
    match open_for(alloc, disk, house) {
        Ok(vault) => report(alloc, vault.house()),
        Err(failed) => match failed.cause {
            OpenCause::Fault | OpenCause::NoMemory => Err(AllocError),
            OpenCause::Damaged(_) | OpenCause::Illegal(_) => unreachable!(),
        },
    }
}

// The disk that kept the history, after a crash. It failed only because it had stopped.
fn crashed(
    alloc: Global,
    stop: u32,
    house: &House,
    lines: &[Statement],
) -> Result<MemoryDisk, AllocError>
    requires makes { Makes house.now lines.now house.now.history }
    requires few { length lines.now ≤ MOST_EVENTS }
    ensures { IfOk result (λ disk. Shows (seen_of disk)
        (take (events_kept stop (length house.now.history)) (events_of house.now))) }
{
    let disk = stopped(alloc, stop, house, lines)?;
    if disk.starved() {
        return Err(AllocError);
    }
    Ok(disk.crash())
}

// The disk on which the history was kept, up to the first call that failed.
fn stopped(
    alloc: Global,
    stop: u32,
    house: &House,
    lines: &[Statement],
) -> Result<MemoryDisk, AllocError>
    requires makes { Makes house.now lines.now house.now.history }
    requires few { length lines.now ≤ MOST_EVENTS }
    ensures { IfOk result (KeepsFront stop house.now.history) }
{
    history_laws();
    vault_laws();
    let _history = house.history();
    let disk = MemoryDisk::new(Vec::new(alloc), Some(u64::from(stop)));
    let mut vault = match open_for(alloc, disk, house) {
        Ok(vault) => vault,
        Err(failed) => match failed.cause {
            OpenCause::Fault => return Ok(failed.disk),
            OpenCause::NoMemory => return Err(AllocError),
            OpenCause::Damaged(_) | OpenCause::Illegal(_) => unreachable!(),
        },
    };
    for line in lines {
        match keep_statement(&mut vault, *line) {
            Ok(()) => {}
            Err(VaultError::Fault) => return Ok(vault.close()),
            Err(VaultError::NoMemory) => return Err(AllocError),
            Err(VaultError::Full) | Err(VaultError::Closed) => unreachable!(),
        }
    }
    Ok(vault.close())
}

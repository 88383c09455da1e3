// Keeping the event that a statement gives.
ghost use Rattle.std.specs.Prelude.{◌≡◌, ◌≤◌, Err, length, IfErr, OnOk};
ghost use Rattle.carol_recovery.specs.Disks.{GivesTo, KeepsGiven};
ghost use Rattle.carol_vault.specs.Steps.{FailsToKeep, HasNext, KeepsTime};

use carol_history::{Statement, history_laws};
use carol_vault::{MemoryDisk, Vault, VaultError};

/// Keeps the event that the statement gives.
pub(crate) fn keep_statement(
    vault: &mut Vault<MemoryDisk>,
    line: Statement,
) -> Result<(), VaultError>
    requires { HasNext (GivesTo vault.old.house line) }
    ensures ok { OnOk result (KeepsGiven vault.old line vault.new) }
    ensures err { IfErr result (λ error. FailsToKeep (GivesTo vault.old.house line)
        vault.old error vault.new) }
    ensures ticks { KeepsTime (length vault.old.disk.past) (length vault.new.disk.past)
        vault.old.house vault.new.house result }
    ensures fault { result ≡ Err VaultError.Fault → 1 ≤ vault.new.disk.failures }
    ensures limit { vault.new.disk.stop ≡ vault.old.disk.stop }
{
    history_laws();
    let _valid = vault.house().scene();
    let _run = vault.house().history();
    match line {
        Statement::Go(session) => {
            vault.advance(session as u32)?;
        }
        Statement::Gossip { source, target } => {
            vault.gossip(source as u32, target as u32)?;
        }
        Statement::Cut { a, b } => vault.link(a as u32, b as u32, false)?,
        Statement::Join { a, b } => vault.link(a as u32, b as u32, true)?,
    }
    Ok(())
}

// One statement of a script on a vault.
ghost use Rattle.std.specs.Prelude.{◌≡◌, ◌↔◌, ◌≤◌, true, false, Err, IfErr, IfOk};
ghost use Rattle.carol_outer.specs.Faults.{Rose};
ghost use Rattle.carol_disk.specs.Disk.{LeavesOnly};
ghost use Rattle.carol_history.specs.Legal.{MayLink};
ghost use Rattle.carol_history.specs.declared.script.Statement.TheVariants as statement;
ghost use Rattle.carol_report.specs.Plays.{link_of};
ghost use Rattle.carol_vault.specs.Vaults.{Holds, acknowledged};
ghost use Rattle.carol_kept_run.specs.Going.{FailsToYield, Yields, failed_as};

use crate::ending::{Broken, Made};
use carol_history::{ScriptCause, Statement};
use carol_house::{Gossip, Moved};
use carol_program::Scene;
use carol_vault::{Disk, Vault, VaultError};

/// Carries out one statement, and answers once its event is acknowledged, or why it gave none: a
/// session that is not there comes before one that is finished, a pair that is not there before one
/// that is cut off, which comes before nothing new, and each of these before a full history.
pub fn keep_statement<D: Disk>(vault: &mut Vault<D>, line: Statement) -> Result<Made, Broken>
    requires open { vault.old.closed ≡ false }
    ensures ok { IfOk result (λ made. Yields vault.old line made vault.new) }
    ensures err { IfErr result (λ broken. FailsToYield vault.old line broken vault.new) }
    ensures any_moment { LeavesOnly D.moment D.left_since vault.old.disk vault.new.disk
        (Holds (acknowledged vault.old) vault.new.house) }
    ensures fault { result ≡ Err Broken.Disk →
        Rose (D.faults vault.old.disk) (D.faults vault.new.disk) }
    ensures counted { D.faults vault.old.disk ≤ D.faults vault.new.disk }
{
    match line {
        Statement::Go(session) => go(vault, session),
        Statement::Gossip { source, target } => pass_on(vault, source, target),
        Statement::Cut { a, b } => link(vault, a, b, false),
        Statement::Join { a, b } => link(vault, a, b, true),
    }
}

// Advances a session.
fn go<D: Disk>(vault: &mut Vault<D>, session: u64) -> Result<Made, Broken>
    requires open { vault.old.closed ≡ false }
    ensures ok { IfOk result (λ made. Yields vault.old (statement.Go session) made vault.new) }
    ensures err { IfErr result (λ broken.
        FailsToYield vault.old (statement.Go session) broken vault.new) }
    ensures any_moment { LeavesOnly D.moment D.left_since vault.old.disk vault.new.disk
        (Holds (acknowledged vault.old) vault.new.house) }
    ensures fault { result ≡ Err Broken.Disk →
        Rose (D.faults vault.old.disk) (D.faults vault.new.disk) }
    ensures counted { D.faults vault.old.disk ≤ D.faults vault.new.disk }
{
    if session >= vault.house().scene().sessions.len() as u64 {
        return Ok(Made::Silent(ScriptCause::NoSuchSession));
    }
    match vault.advance(session as u32) {
        Ok(Moved::Entered(_)) => Ok(Made::Event),
        Ok(Moved::Finished) => Ok(Made::Silent(ScriptCause::Finished)),
        Err(error) => failed(error),
    }
}

// Passes an entry on.
fn pass_on<D: Disk>(vault: &mut Vault<D>, source: u64, target: u64) -> Result<Made, Broken>
    requires open { vault.old.closed ≡ false }
    ensures ok { IfOk result (λ made.
        Yields vault.old (statement.Gossip source target) made vault.new) }
    ensures err { IfErr result (λ broken.
        FailsToYield vault.old (statement.Gossip source target) broken vault.new) }
    ensures any_moment { LeavesOnly D.moment D.left_since vault.old.disk vault.new.disk
        (Holds (acknowledged vault.old) vault.new.house) }
    ensures fault { result ≡ Err Broken.Disk →
        Rose (D.faults vault.old.disk) (D.faults vault.new.disk) }
    ensures counted { D.faults vault.old.disk ≤ D.faults vault.new.disk }
{
    if !are_two(vault.house().scene(), source, target) {
        return Ok(Made::Silent(ScriptCause::NoSuchPair));
    }
    match vault.gossip(source as u32, target as u32) {
        Ok(Gossip::Delivered(_)) => Ok(Made::Event),
        Ok(Gossip::NothingNew) => Ok(Made::Silent(ScriptCause::NothingNew)),
        Ok(Gossip::CutOff) => Ok(Made::Silent(ScriptCause::CutOff)),
        Err(error) => failed(error),
    }
}

// Joins two replicas, or cuts them off from each other.
fn link<D: Disk>(vault: &mut Vault<D>, a: u64, b: u64, up: bool) -> Result<Made, Broken>
    requires open { vault.old.closed ≡ false }
    ensures ok { IfOk result (λ made. Yields vault.old (link_of a b up) made vault.new) }
    ensures err { IfErr result (λ broken.
        FailsToYield vault.old (link_of a b up) broken vault.new) }
    ensures any_moment { LeavesOnly D.moment D.left_since vault.old.disk vault.new.disk
        (Holds (acknowledged vault.old) vault.new.house) }
    ensures fault { result ≡ Err Broken.Disk →
        Rose (D.faults vault.old.disk) (D.faults vault.new.disk) }
    ensures counted { D.faults vault.old.disk ≤ D.faults vault.new.disk }
{
    if !are_two(vault.house().scene(), a, b) {
        return Ok(Made::Silent(ScriptCause::NoSuchPair));
    }
    match vault.link(a as u32, b as u32, up) {
        Ok(()) => Ok(Made::Event),
        Err(error) => failed(error),
    }
}

// What a step comes to that kept no event.
fn failed(error: VaultError) -> Result<Made, Broken>
    ensures { result ≡ failed_as error }
{
    match error {
        VaultError::Full => Ok(Made::Full),
        VaultError::Fault | VaultError::Closed => Err(Broken::Disk),
        VaultError::NoMemory => Err(Broken::NoMemory),
    }
}

// Whether these are two different replicas of the scene.
fn are_two(scene: &Scene, a: u64, b: u64) -> bool
    ensures { (result ≡ true) ↔ MayLink scene.now a b }
{
    let replicas = u64::from(scene.replicas);
    a < replicas && b < replicas && a != b
}

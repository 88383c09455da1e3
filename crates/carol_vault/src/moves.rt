ghost use Rattle.std.specs.Prelude.{◌≡◌, ◌<◌, ◌≤◌, false, length, Err, IfErr, IfOk, OnOk};
ghost use Rattle.carol_outer.specs.Faults.{Rose};
ghost use Rattle.carol_disk.specs.Disk.{LeavesOnly};
ghost use Rattle.carol_history.specs.Forced.{Forced};
ghost use Rattle.carol_history.specs.Legal.{Legal, MayLink};
ghost use Rattle.carol_history.specs.Scripts.{IsGossip};
ghost use Rattle.carol_house.specs.House.{rules_of};
ghost use Rattle.carol_house.specs.Moves.{link_event};
ghost use Rattle.carol_vault.specs.Steps.{Advances, FailsToKeep, Gossips, Keeps, KeepsTime};
ghost use Rattle.carol_vault.specs.Vaults.{Holds, acknowledged};

use crate::error::VaultError;
use crate::keeping::{commit, prepare};
use crate::vault::Vault;
use carol_audit::event_numbers;
use carol_disk::{Disk, Failed};
use carol_event::Event;
use carol_history::history_laws;
use carol_house::{Gossip, Moved, kind_of, link_event};

/// The steps of a vault. Each keeps its event before it answers `Ok`, in four calls of the disk. At
/// each moment of the call, whatever a crash leaves shows a front of the history that has each
/// event which was acknowledged when the call began. `Closed` is answered exactly where an earlier
/// call answered `Fault`, and nothing changes. Else `Full` and what `Ok` tells are the house's.
/// `Fault` comes only where the disk's count of faults rose: the event stands in the history then,
/// and isn't acknowledged. `NoMemory` comes before anything is written, and leaves the history.
impl<D: Disk> Vault<D> {
    /// The session, which is in range, makes the one step that it can make.
    pub fn advance(&mut self, session: u32) -> Result<Moved, VaultError>
        requires { session < length self.old.house.scene.sessions }
        ensures ok { IfOk result (λ moved. Advances self.old session moved self.new) }
        ensures err { IfErr result (λ error. FailsToKeep
            (λ event. Forced (rules_of self.old.house) self.old.house.scene session event
            self.old.house.history)
            self.old error self.new) }
        ensures any_moment { LeavesOnly D.moment D.left_since self.old.disk self.new.disk
            (Holds (acknowledged self.old) self.new.house) }
        ensures ticks { KeepsTime (D.moment self.old.disk) (D.moment self.new.disk)
            self.old.house self.new.house result }
        ensures fault { result ≡ Err VaultError.Fault →
            Rose (D.faults self.old.disk) (D.faults self.new.disk) }
        ensures counted { D.faults self.old.disk ≤ D.faults self.new.disk }
        ensures limit { D.limit self.new.disk ≡ D.limit self.old.disk }
    {
        history_laws();
        if self.closed {
            return Err(VaultError::Closed);
        }
        let Some(event) = self.house.next(session) else {
            return Ok(Moved::Finished);
        };
        let _valid = self.house.scene();
        let kind = kind_of(&event);
        self.keep(&event)?;
        Ok(Moved::Entered(kind))
    }

    /// Delivers the lowest entry that the replica `from` holds and `to` lacks. They are two
    /// different replicas of the scene.
    pub fn gossip(&mut self, from: u32, to: u32) -> Result<Gossip, VaultError>
        requires { MayLink self.old.house.scene from to }
        ensures ok { IfOk result (λ gossip. Gossips self.old from to gossip self.new) }
        ensures err { IfErr result (λ error. FailsToKeep
            (λ event. IsGossip self.old.house.scene from to event self.old.house.history)
            self.old error self.new) }
        ensures any_moment { LeavesOnly D.moment D.left_since self.old.disk self.new.disk
            (Holds (acknowledged self.old) self.new.house) }
        ensures ticks { KeepsTime (D.moment self.old.disk) (D.moment self.new.disk)
            self.old.house self.new.house result }
        ensures fault { result ≡ Err VaultError.Fault →
            Rose (D.faults self.old.disk) (D.faults self.new.disk) }
        ensures counted { D.faults self.old.disk ≤ D.faults self.new.disk }
        ensures limit { D.limit self.new.disk ≡ D.limit self.old.disk }
    {
        if self.closed {
            return Err(VaultError::Closed);
        }
        match self.house.offer(from, to) {
            Gossip::Delivered(entry) => {
                self.keep(&Event::Deliver {
                    source: from,
                    target: to,
                    entry,
                })?;
                Ok(Gossip::Delivered(entry))
            }
            Gossip::NothingNew => Ok(Gossip::NothingNew),
            Gossip::CutOff => Ok(Gossip::CutOff),
        }
    }

    /// Joins two different replicas of the scene, or cuts them off from each other where `up` is
    /// false.
    pub fn link(&mut self, a: u32, b: u32, up: bool) -> Result<(), VaultError>
        requires { MayLink self.old.house.scene a b }
        ensures ok { OnOk result (Keeps self.old (link_event a b up) self.new) }
        ensures err { IfErr result (λ error. FailsToKeep (λ event. event ≡ link_event a b up)
            self.old error self.new) }
        ensures any_moment { LeavesOnly D.moment D.left_since self.old.disk self.new.disk
            (Holds (acknowledged self.old) self.new.house) }
        ensures ticks { KeepsTime (D.moment self.old.disk) (D.moment self.new.disk)
            self.old.house self.new.house result }
        ensures fault { result ≡ Err VaultError.Fault →
            Rose (D.faults self.old.disk) (D.faults self.new.disk) }
        ensures counted { D.faults self.old.disk ≤ D.faults self.new.disk }
        ensures limit { D.limit self.new.disk ≡ D.limit self.old.disk }
    {
        if self.closed {
            return Err(VaultError::Closed);
        }
        self.keep(&link_event(a, b, up))
    }

    // Keeps the event, which may come next.
    fn keep(&mut self, event: &Event) -> Result<(), VaultError>
        requires open { self.old.closed ≡ false }
        requires legal { Legal (rules_of self.old.house) self.old.house.scene event.now
            self.old.house.history }
        ensures ok { OnOk result (Keeps self.old event.now self.new) }
        ensures err { IfErr result (λ error. FailsToKeep (λ next. next ≡ event.now)
            self.old error self.new) }
        ensures any_moment { LeavesOnly D.moment D.left_since self.old.disk self.new.disk
            (Holds (acknowledged self.old) self.new.house) }
        ensures ticks { KeepsTime (D.moment self.old.disk) (D.moment self.new.disk)
            self.old.house self.new.house result }
        ensures fault { result ≡ Err VaultError.Fault →
            Rose (D.faults self.old.disk) (D.faults self.new.disk) }
        ensures counted { D.faults self.old.disk ≤ D.faults self.new.disk }
        ensures limit { D.limit self.new.disk ≡ D.limit self.old.disk }
    {
        event_numbers();
        let body = prepare(self.alloc, &mut self.house, event)?;
        let _history = self.house.history();
        let part = body.as_slice();
        let size = part.len() as u64;
        match commit(&mut self.disk, &mut self.house, self.gate, event, part) {
            Ok(()) => {
                self.gate += size;
                Ok(())
            }
            Err(Failed) => {
                self.closed = true;
                Err(VaultError::Fault)
            }
        }
    }
}

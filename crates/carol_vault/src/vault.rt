ghost use Rattle.std.specs.Prelude.{◌≡◌, ℕ, List};
ghost use Rattle.carol_vault.specs.Vaults.{IsKept, acknowledged};

use carol_disk::Disk;
use carol_house::House;
use std::alloc::Global;
use std::marker::Model;

/// A history that a disk keeps. Contracts see it as the disk, the house with the history, and
/// whether a call answered `Fault`. At each moment, whatever a crash leaves of the disk shows a
/// front of the history with every acknowledged event.
#[derive(Drop)]
pub struct Vault<D: Disk> {
    pub(crate) alloc: Global,
    pub(crate) disk: D,
    pub(crate) house: House,
    pub(crate) gate: u64,
    pub(crate) closed: bool,
}

impl<D: Disk> Model for Vault<D> {
    ghost use Rattle.std.specs.Coded.{codes};
    ghost use Rattle.carol_formula.specs.contracts.formula.Formula as formula;
    ghost use Rattle.carol_program.specs.contracts.steps.Step as step;
    ghost use Rattle.carol_vault.specs.Vaults.{Vaulted};

    ghost Value = { Vaulted D };

    ghost coded = { Prim.hlevel (codes, D.code, formula.the_row.coded, step.the_row.coded) };

    ghost view = { λ v. record { disk = v.disk; house = v.house; closed = v.closed } };

    ghost use Rattle.carol_vault.specs.States.{IsVault};

    ghost invariant = { λ v. IsVault D.seen D.kept D.may_leave
        (record { disk = v.disk; house = v.house; closed = v.closed }) v.gate };
}

impl<D: Disk> Vault<D> {
    /// How many events are acknowledged: those of the history, or one fewer exactly where a call
    /// answered `Fault`.
    pub fn acknowledged(&self) -> u32
        ensures number { result ≡ acknowledged self.now }
        ensures kept { IsKept D.kept D.may_leave (acknowledged self.now) self.now.disk
            self.now.house }
    {
        let events = self.house.history().len() as u32;
        if self.closed {
            events.saturating_sub(1)
        } else {
            events
        }
    }

    /// The house with the history.
    pub fn house(&self) -> &House
        ensures house { result.now ≡ self.now.house }
        ensures kept { IsKept D.kept D.may_leave (acknowledged self.now) self.now.disk
            self.now.house }
    {
        let _closed = self.closed;
        &self.house
    }

    /// The disk.
    pub fn close(self) -> D
        ensures disk { result ≡ self.disk }
        ensures kept { IsKept D.kept D.may_leave (acknowledged self) self.disk self.house }
    {
        self.disk
    }
}

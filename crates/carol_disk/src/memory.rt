ghost use Rattle.std.specs.Prelude.{◌≡◌, ◌↔◌, ◌+◌, ◌-◌, ◌≤◌, ℕ, List, [], false, true, Option, Some, None, length, min, reverse, take, drop, IsErr, IfOk, OnOk, OnErr};
ghost use Rattle.carol_outer.specs.Faults.{Rose};
ghost use Rattle.carol_disk.specs.declared.call.Call.TheVariants.{Wrote, Cut, Synced};
ghost use Rattle.carol_disk.specs.Disk.{CutBack, Elapses, Follows, Only, Torn, ticks_of, written};
ghost use Rattle.carol_disk.specs.Tapes.{IsAtStop, IsWithin, LeftSince, Makes, MayLeave, after, failing, kept_after, seen_after, seen_of, starving, synced_part};

use crate::call::{Call, Piece};
use crate::disk::Disk;
use crate::overlay::read_calls;
use carol_outer::Failed;
use std::alloc::AllocError;
use std::marker::Model;

/// A disk in memory that notes its calls, and so leaves after a crash whatever it may. Its writes,
/// cuts and syncs are numbered from 0, and all from the number `stop` on fail and do nothing. So
/// does one that finds no memory for its note. Its reads never fail.
#[derive(Drop)]
pub struct MemoryDisk {
    first: Vec<u8>,
    calls: Vec<Call>,
    size: u64,
    safe: u64,
    stop: Option<u64>,
    failures: u64,
    starved: bool,
}

impl Model for MemoryDisk {
    ghost use Rattle.carol_disk.specs.Tapes.{IsTape, Tape, tape_of};

    ghost Value = { Tape };

    ghost view = { λ d. tape_of d.first.items d.calls.items d.stop d.failures d.starved };

    ghost invariant = { λ d.
        IsTape (tape_of d.first.items d.calls.items d.stop d.failures d.starved) d.size d.safe };
}

impl MemoryDisk {
    /// A disk with these bytes, all of them kept, that stops at the call with the number `stop`.
    pub fn new(bytes: Vec<u8>, stop: Option<u64>) -> MemoryDisk
        ensures { result ≡ record {
          first = bytes.items;
          past = [];
          stop = stop;
          failures = 0;
          starved = false;
        } }
    {
        let size = bytes.len() as u64;
        MemoryDisk {
            calls: Vec::new(*bytes.allocator()),
            first: bytes,
            size,
            safe: size,
            stop,
            failures: 0,
            starved: false,
        }
    }

    /// Whether a call found no memory. Where none did, a call failed only because the disk had
    /// stopped.
    pub fn starved(&self) -> bool
        ensures starved { result ≡ self.now.starved }
        ensures within { IsWithin self.now.stop (length self.now.past) }
        ensures stopped { result ≡ false → 1 ≤ self.now.failures →
            self.now.stop ≡ Some (length self.now.past) }
    {
        self.starved
    }

    /// The disk after a crash that lost all that it could: the bytes of the last sync, or those
    /// that it was made with where there was none. It doesn't stop any more.
    pub fn crash(self) -> MemoryDisk
        ensures calls { result ≡ record {
          first = self.first;
          past = synced_part self.past;
          stop = None;
          failures = 0;
          starved = false;
        } }
        ensures seen { seen_of result ≡ kept_after self.first self.past }
        ensures kept { kept_after result.first result.past ≡ kept_after self.first self.past }
        ensures only { Only (seen_of result) (MayLeave result.first result.past) }
    {
        let mut calls = self.calls;
        calls.truncate(synced_count(calls.as_slice()));
        MemoryDisk {
            first: self.first,
            calls,
            size: self.safe,
            safe: self.safe,
            stop: None,
            failures: 0,
            starved: false,
        }
    }

    // Whether all calls fail from now on.
    fn has_stopped(&self) -> bool
        ensures { (result ≡ true) ↔ IsAtStop self.now.stop (length self.now.past) }
    {
        match self.stop {
            Some(stop) => stop <= self.calls.len() as u64,
            None => false,
        }
    }

    // Counts a call that failed since the disk had stopped.
    fn fail(&mut self) -> Result<(), Failed>
        requires { IsAtStop self.old.stop (length self.old.past) }
        ensures failed { IsErr result }
        ensures counted { self.new ≡ failing self.old }
        ensures risen { self.old.failures ≤ self.new.failures }
    {
        self.failures = self.failures.saturating_add(1);
        Err(Failed)
    }

    // Counts a call that found no memory.
    fn starve(&mut self) -> Result<(), Failed>
        ensures failed { IsErr result }
        ensures counted { self.new ≡ starving self.old }
        ensures risen { self.old.failures ≤ self.new.failures }
    {
        self.failures = self.failures.saturating_add(1);
        self.starved = true;
        Err(Failed)
    }

    // Notes a write, which stands at the end where its place is beyond it.
    fn note_write(&mut self, at: u64, bytes: &[u8]) -> Result<(), AllocError>
        requires { IsAtStop self.old.stop (length self.old.past) → ⊥ }
        ensures noted { OnOk result (self.new ≡
            after self.old (Wrote at (min at (length (seen_of self.old))) bytes.now)) }
        ensures same { OnErr result (self.new ≡ self.old) }
    {
        let place = at.min(self.size);
        let Some(end) = place.checked_add(bytes.len() as u64) else {
            return Err(AllocError);
        };
        let copy = bytes.to_vec(*self.first.allocator())?;
        let bytes = Piece::new(copy);
        self.calls.push(Call::Wrote { at, place, bytes })?;
        self.size = self.size.max(end);
        Ok(())
    }

    // Notes a cut.
    fn note_cut(&mut self, end: u64) -> Result<(), AllocError>
        requires { IsAtStop self.old.stop (length self.old.past) → ⊥ }
        ensures noted { OnOk result (self.new ≡ after self.old (Cut end)) }
        ensures same { OnErr result (self.new ≡ self.old) }
    {
        self.calls.push(Call::Cut(end))?;
        self.size = self.size.min(end);
        Ok(())
    }

    // Notes a sync.
    fn note_sync(&mut self) -> Result<(), AllocError>
        requires { IsAtStop self.old.stop (length self.old.past) → ⊥ }
        ensures noted { OnOk result (self.new ≡ after self.old Synced) }
        ensures same { OnErr result (self.new ≡ self.old) }
    {
        self.calls.push(Call::Synced)?;
        self.safe = self.size;
        Ok(())
    }
}

// How many calls there are up to the last sync.
fn synced_count(calls: &[Call]) -> usize
    ensures within { result ≤ length calls.now }
    ensures calls { reverse (take result calls.now) ≡ synced_part (reverse calls.now) }
{
    let mut left = calls;
    while let Some((call, before)) = left.split_last() {
        if let Call::Synced = call {
            return left.len();
        }
        left = before;
    }
    0
}

impl Disk for MemoryDisk {
    ghost use Rattle.carol_disk.specs.Laws.{counts_now, only_now, seen_may_stay};

    ghost seen = { λ d. seen_after d.first d.past };

    ghost kept = { λ d. kept_after d.first d.past };

    ghost may_leave = { λ d c. MayLeave d.first d.past c };

    ghost moment = { λ d. length d.past };

    ghost left_since = { λ d t c. LeftSince d.first t d.past c };

    ghost faults = { λ d. d.failures };

    ghost limit = { λ d. d.stop };

    ghost seen_may_stay = { λ d. seen_may_stay d.first d.past };

    ghost counts_now = { λ d t c le now. counts_now d.first d.past t c le now };

    ghost only_now = { λ d c left. only_now d.first d.past c left };

    fn read(&mut self, at: u64, into: &mut [u8]) -> Result<usize, Failed> {
        let left = self.size.saturating_sub(at);
        let count = (into.len() as u64).min(left) as usize;
        read_calls(
            self.first.as_slice(),
            self.calls.as_slice(),
            at,
            &mut into[..count],
        );
        Ok(count)
    }

    fn write_at(&mut self, at: u64, bytes: &[u8]) -> Result<(), Failed>
        ensures makes { Makes self.old (Wrote at (min at (length (seen_of self.old))) bytes.now)
            result self.new }
        ensures written { OnOk result (at ≤ length (seen_of self.old) →
            seen_of self.new ≡ written (seen_of self.old) at bytes.now) }
        ensures kept { kept_after self.new.first self.new.past
            ≡ kept_after self.old.first self.old.past }
        ensures crash { Follows (Torn at (at + length bytes.now))
            (MayLeave self.old.first self.old.past) (MayLeave self.new.first self.new.past) }
        ensures ticks { length self.new.past ≡ length self.old.past + ticks_of result }
        ensures time { Elapses (length self.old.past)
            (λ t c. LeftSince self.old.first t self.old.past c)
            (λ t c. LeftSince self.new.first t self.new.past c)
            (MayLeave self.new.first self.new.past) }
        ensures failed { OnErr result (Rose self.old.failures self.new.failures) }
        ensures counted { self.old.failures ≤ self.new.failures }
        ensures limit { self.new.stop ≡ self.old.stop }
    {
        if self.has_stopped() {
            return self.fail();
        }
        if self.note_write(at, bytes).is_err() {
            return self.starve();
        }
        Ok(())
    }

    fn cut(&mut self, end: u64) -> Result<(), Failed>
        ensures makes { Makes self.old (Cut end) result self.new }
        ensures cut { OnOk result (end ≤ length (seen_of self.old) →
            seen_of self.new ≡ take end (seen_of self.old)) }
        ensures kept { kept_after self.new.first self.new.past
            ≡ kept_after self.old.first self.old.past }
        ensures crash { Follows (CutBack end)
            (MayLeave self.old.first self.old.past) (MayLeave self.new.first self.new.past) }
        ensures ticks { length self.new.past ≡ length self.old.past + ticks_of result }
        ensures time { Elapses (length self.old.past)
            (λ t c. LeftSince self.old.first t self.old.past c)
            (λ t c. LeftSince self.new.first t self.new.past c)
            (MayLeave self.new.first self.new.past) }
        ensures failed { OnErr result (Rose self.old.failures self.new.failures) }
        ensures counted { self.old.failures ≤ self.new.failures }
        ensures limit { self.new.stop ≡ self.old.stop }
    {
        if self.has_stopped() {
            return self.fail();
        }
        if self.note_cut(end).is_err() {
            return self.starve();
        }
        Ok(())
    }

    fn sync(&mut self) -> Result<(), Failed>
        ensures makes { Makes self.old Synced result self.new }
        ensures durable { OnOk result
            (Only (seen_of self.old) (MayLeave self.new.first self.new.past)) }
        ensures synced { OnOk result
            (kept_after self.new.first self.new.past ≡ seen_of self.old) }
        ensures kept { OnErr result (kept_after self.new.first self.new.past
            ≡ kept_after self.old.first self.old.past) }
        ensures seen { seen_of self.new ≡ seen_of self.old }
        ensures crash { (c : List ℕ) → MayLeave self.new.first self.new.past c →
            MayLeave self.old.first self.old.past c }
        ensures ticks { length self.new.past ≡ length self.old.past + ticks_of result }
        ensures time { Elapses (length self.old.past)
            (λ t c. LeftSince self.old.first t self.old.past c)
            (λ t c. LeftSince self.new.first t self.new.past c)
            (MayLeave self.new.first self.new.past) }
        ensures failed { OnErr result (Rose self.old.failures self.new.failures) }
        ensures counted { self.old.failures ≤ self.new.failures }
        ensures limit { self.new.stop ≡ self.old.stop }
    {
        if self.has_stopped() {
            return self.fail();
        }
        if self.note_sync().is_err() {
            return self.starve();
        }
        Ok(())
    }
}

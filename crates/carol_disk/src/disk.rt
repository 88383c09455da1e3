ghost use Rattle.std.specs.Prelude.{◌≡◌, ◌+◌, ◌-◌, ◌≤◌, ℕ, List, Option, length, min, take, drop, IfOk, OnOk, OnErr};
ghost use Rattle.carol_outer.specs.Faults.{Rose};
ghost use Rattle.carol_disk.specs.Disk.{CutBack, Elapses, Follows, Only, Torn, ticks_of, written};

use carol_outer::Failed;

/// A file of bytes that is changed by calls which may be cut off by a crash. What was written since
/// the last sync that succeeded may come out of a crash torn. A call that failed counts as one that
/// may have been made in part.
pub trait Disk {
    // The bytes that a read gives.
    ghost seen: { Self → List ℕ };

    // The bytes that a read gave at the last sync that succeeded.
    ghost kept: { Self → List ℕ };

    // What a crash at this moment may leave.
    ghost may_leave: { Self → List ℕ → Type 0 };

    // The clock: how many writes, cuts and syncs have succeeded.
    ghost moment: { Self → ℕ };

    // What a crash at some moment from this one on might have left, during a call or between two.
    ghost left_since: { Self → ℕ → List ℕ → Type 0 };

    // How many faults there were. It never falls.
    ghost faults: { Self → ℕ };

    // At which moment the disk stops, where it is to stop. No call changes it.
    ghost limit: { Self → Option ℕ };

    /// Puts the bytes that stand from `at` on at the front of `into` and answers how many: fewer
    /// than there is room for only at the end of the file. It changes nothing.
    fn read(&mut self, at: u64, into: &mut [u8]) -> Result<usize, Failed>
        ensures count { IfOk result
            (λ n. n ≡ min (length into.old) (length (seen self.old) - at)) }
        ensures bytes { IfOk result (λ n. take n into.new ≡ take n (drop at (seen self.old))) }
        ensures seen { seen self.new ≡ seen self.old }
        ensures kept { kept self.new ≡ kept self.old }
        ensures crash { (c : List ℕ) → may_leave self.new c → may_leave self.old c }
        ensures ticks { moment self.new ≡ moment self.old }
        ensures time { Elapses (moment self.old) (left_since self.old) (left_since self.new)
            (may_leave self.new) }
        ensures failed { OnErr result (Rose (faults self.old) (faults self.new)) }
        ensures counted { faults self.old ≤ faults self.new }
        ensures limit { limit self.new ≡ limit self.old };

    /// Writes the bytes over those that stand from `at` on, and past the end. Until a sync a crash
    /// may leave anything in their place. Where `at` is beyond the end no more is said.
    fn write_at(&mut self, at: u64, bytes: &[u8]) -> Result<(), Failed>
        ensures written { OnOk result (at ≤ length (seen self.old) →
            seen self.new ≡ written (seen self.old) at bytes.now) }
        ensures kept { kept self.new ≡ kept self.old }
        ensures crash { Follows (Torn at (at + length bytes.now))
            (may_leave self.old) (may_leave self.new) }
        ensures ticks { moment self.new ≡ moment self.old + ticks_of result }
        ensures time { Elapses (moment self.old) (left_since self.old) (left_since self.new)
            (may_leave self.new) }
        ensures failed { OnErr result (Rose (faults self.old) (faults self.new)) }
        ensures counted { faults self.old ≤ faults self.new }
        ensures limit { limit self.new ≡ limit self.old };

    /// Ends the file after `end` bytes. Until a sync a crash may leave anything behind them. Where
    /// `end` is beyond the end no more is said.
    fn cut(&mut self, end: u64) -> Result<(), Failed>
        ensures cut { OnOk result (end ≤ length (seen self.old) →
            seen self.new ≡ take end (seen self.old)) }
        ensures kept { kept self.new ≡ kept self.old }
        ensures crash { Follows (CutBack end) (may_leave self.old) (may_leave self.new) }
        ensures ticks { moment self.new ≡ moment self.old + ticks_of result }
        ensures time { Elapses (moment self.old) (left_since self.old) (left_since self.new)
            (may_leave self.new) }
        ensures failed { OnErr result (Rose (faults self.old) (faults self.new)) }
        ensures counted { faults self.old ≤ faults self.new }
        ensures limit { limit self.new ≡ limit self.old };

    /// Brings to the disk what was written: from then on a crash leaves what a read gives.
    fn sync(&mut self) -> Result<(), Failed>
        ensures durable { OnOk result (Only (seen self.old) (may_leave self.new)) }
        ensures synced { OnOk result (kept self.new ≡ seen self.old) }
        ensures kept { OnErr result (kept self.new ≡ kept self.old) }
        ensures seen { seen self.new ≡ seen self.old }
        ensures crash { (c : List ℕ) → may_leave self.new c → may_leave self.old c }
        ensures ticks { moment self.new ≡ moment self.old + ticks_of result }
        ensures time { Elapses (moment self.old) (left_since self.old) (left_since self.new)
            (may_leave self.new) }
        ensures failed { OnErr result (Rose (faults self.old) (faults self.new)) }
        ensures counted { faults self.old ≤ faults self.new }
        ensures limit { limit self.new ≡ limit self.old };

    // A crash may leave what a read gives.
    ghost seen_may_stay: { (d : Self) → may_leave d (seen d) };

    // This moment is one of those since an earlier one.
    ghost counts_now: { (d : Self) (t : ℕ) (c : List ℕ) → t ≤ moment d →
        may_leave d c → left_since d t c };

    // Since this moment there was no other.
    ghost only_now: { (d : Self) (c : List ℕ) → left_since d (moment d) c → may_leave d c };
}

ghost use Rattle.std.specs.Prelude.{◌≡◌, ◌+◌, ◌≤◌, length, take, OnOk, OnErr};
ghost use Rattle.carol_outer.specs.Faults.{Rose};
ghost use Rattle.carol_disk.specs.Disk.{CutBack, LeavesOnly, Only, TicksTwice, Torn, written};

use crate::disk::Disk;
use carol_outer::Failed;

/// Writes the bytes from `at` on and syncs them, on a disk of which a crash leaves what a read
/// gives, and at `Ok` leaves it again.
pub fn write_through<D: Disk>(disk: &mut D, at: u64, bytes: &[u8]) -> Result<(), Failed>
    requires { Only (D.seen disk.old) (D.may_leave disk.old) }
    ensures written { OnOk result (at ≤ length (D.seen disk.old) →
        D.seen disk.new ≡ written (D.seen disk.old) at bytes.now) }
    ensures durable { OnOk result (Only (D.seen disk.new) (D.may_leave disk.new)) }
    ensures kept { OnOk result (D.kept disk.new ≡ D.seen disk.new) }
    ensures unkept { OnErr result (D.kept disk.new ≡ D.kept disk.old) }

    // A crash at any moment leaves the file with the write done, torn or not begun.
    ensures any_moment { LeavesOnly D.moment D.left_since disk.old disk.new
        (Torn at (at + length bytes.now) (D.seen disk.old)) }
    ensures ticks { TicksTwice (D.moment disk.old) (D.moment disk.new) result }
    ensures failed { OnErr result (Rose (D.faults disk.old) (D.faults disk.new)) }
    ensures counted { D.faults disk.old ≤ D.faults disk.new }
    ensures limit { D.limit disk.new ≡ D.limit disk.old }
{
    disk.write_at(at, bytes)?;
    disk.sync()
}

/// Ends the file after `end` bytes and syncs it, on a disk of which a crash leaves what a read
/// gives, and at `Ok` leaves it again.
pub fn cut_through<D: Disk>(disk: &mut D, end: u64) -> Result<(), Failed>
    requires { Only (D.seen disk.old) (D.may_leave disk.old) }
    ensures cut { OnOk result (end ≤ length (D.seen disk.old) →
        D.seen disk.new ≡ take end (D.seen disk.old)) }
    ensures durable { OnOk result (Only (D.seen disk.new) (D.may_leave disk.new)) }
    ensures kept { OnOk result (D.kept disk.new ≡ D.seen disk.new) }
    ensures unkept { OnErr result (D.kept disk.new ≡ D.kept disk.old) }

    // A crash at any moment leaves the file with the cut done, torn or not begun.
    ensures any_moment { LeavesOnly D.moment D.left_since disk.old disk.new
        (CutBack end (D.seen disk.old)) }
    ensures ticks { TicksTwice (D.moment disk.old) (D.moment disk.new) result }
    ensures failed { OnErr result (Rose (D.faults disk.old) (D.faults disk.new)) }
    ensures counted { D.faults disk.old ≤ D.faults disk.new }
    ensures limit { D.limit disk.new ≡ D.limit disk.old }
{
    disk.cut(end)?;
    disk.sync()
}

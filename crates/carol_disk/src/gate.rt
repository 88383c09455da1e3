ghost use Rattle.std.specs.Prelude.{◌≡◌, ◌⊎◌, ◌+◌, ◌^◌, ◌<◌, ◌≤◌, ◌∷◌, ◌++◌, length, take, drop, if◌then◌else◌, nat_le, OnOk, OnErr};
ghost use Rattle.carol_outer.specs.Faults.{Rose};
ghost use Rattle.carol_disk.specs.Disk.{LeavesOnly, Only};
ghost use Rattle.carol_disk.specs.Gates.{EndsBehind, GrowsBy, IsShut, TicksFour};

use crate::disk::Disk;
use crate::through::{cut_through, write_through};
use carol_outer::Failed;

/// Puts a part behind the front of a file, which ends with a shut gate at the place `gate`. The
/// part is written and synced behind the gate before the gate is opened, so that after a crash it
/// counts whole or not at all.
pub fn append<D: Disk>(disk: &mut D, gate: u64, part: &[u8]) -> Result<(), Failed>
    requires room { gate + 1 < 2 ^ 64 }
    requires durable { Only (D.seen disk.old) (D.may_leave disk.old) }
    requires kept { D.kept disk.old ≡ D.seen disk.old }
    requires long { length (D.seen disk.old) ≡ gate + 1 }
    requires shut { IsShut (drop gate (D.seen disk.old)) }

    ensures written { OnOk result
        (D.seen disk.new ≡ take gate (D.seen disk.old) ++ 1 ∷ part.now) }
    ensures durable { OnOk result (Only (D.seen disk.new) (D.may_leave disk.new)) }
    ensures kept { OnOk result (D.kept disk.new ≡ D.seen disk.new) }
    ensures unkept { OnErr result (EndsBehind (take gate (D.seen disk.old)) (D.kept disk.new)) }

    // A crash at any moment leaves the front alone, or with the part.
    ensures any_moment { LeavesOnly D.moment D.left_since disk.old disk.new
        (GrowsBy (take gate (D.seen disk.old)) part.now) }
    ensures ticks { TicksFour (D.moment disk.old) (D.moment disk.new) result }
    ensures failed { OnErr result (Rose (D.faults disk.old) (D.faults disk.new)) }
    ensures counted { D.faults disk.old ≤ D.faults disk.new }
    ensures limit { D.limit disk.new ≡ D.limit disk.old }
{
    write_through(disk, gate + 1, part)?;
    write_through(disk, gate, &[1])
}

/// Ends a file, which has `size` bytes, with the shut gate that stands at the place `gate`. A file
/// of at most one byte gets a shut gate for its only byte.
pub fn settle<D: Disk>(disk: &mut D, gate: u64, size: u64) -> Result<(), Failed>
    requires durable { Only (D.seen disk.old) (D.may_leave disk.old) }
    requires size { size ≡ length (D.seen disk.old) }
    requires begins { size ≤ 1 → gate ≡ 0 }
    requires shut { 1 < size → IsShut (drop gate (D.seen disk.old)) }

    ensures front { OnOk result (take gate (D.seen disk.new) ≡ take gate (D.seen disk.old)) }
    ensures long { OnOk result (length (D.seen disk.new) ≡ gate + 1) }
    ensures shut { OnOk result (IsShut (drop gate (D.seen disk.new))) }
    ensures durable { OnOk result (Only (D.seen disk.new) (D.may_leave disk.new)) }
    ensures kept { OnOk result (D.kept disk.new ≡ D.seen disk.new) }
    ensures unkept { OnErr result ((D.kept disk.new ≡ D.kept disk.old)
        ⊎ EndsBehind (take gate (D.seen disk.old)) (D.kept disk.new)) }

    // A crash at any moment leaves the front.
    ensures any_moment { LeavesOnly D.moment D.left_since disk.old disk.new
        (EndsBehind (take gate (D.seen disk.old))) }
    ensures ticks { OnOk result (D.moment disk.new ≡
        D.moment disk.old + (if nat_le size 1 then 4 else 2)) }
    ensures fewer { OnErr result (D.moment disk.new <
        D.moment disk.old + (if nat_le size 1 then 4 else 2)) }
    ensures failed { OnErr result (Rose (D.faults disk.old) (D.faults disk.new)) }
    ensures counted { D.faults disk.old ≤ D.faults disk.new }
    ensures limit { D.limit disk.new ≡ D.limit disk.old }
{
    if size <= 1 {
        cut_through(disk, 0)?;
        return write_through(disk, 0, &[0]);
    }
    cut_through(disk, gate + 1)
}

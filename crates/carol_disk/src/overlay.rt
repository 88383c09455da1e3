// What a read of a disk in memory gives: each write lies over what was there before.
ghost use Rattle.std.specs.Prelude.{◌≡◌, ◌-◌, ◌≤◌, length, reverse, take, drop};
ghost use Rattle.carol_disk.specs.Tapes.{ArePlaced, seen_after};
ghost use Rattle.carol_disk.specs.Windows.{overlaid};

use crate::call::Call;

/// Fills the window with the bytes that stand from `at` on after these calls, where there are so
/// many.
pub(crate) fn read_calls(first: &[u8], calls: &[Call], at: u64, window: &mut [u8])
    requires placed { ArePlaced first.now (reverse calls.now) }
    requires within { length window.old ≤ length (seen_after first.now (reverse calls.now)) - at }
    ensures { window.new ≡
        take (length window.old) (drop at (seen_after first.now (reverse calls.now))) }
{
    overlay(window, at, 0, first);
    for call in calls {
        if let Call::Wrote { place, bytes, .. } = call {
            overlay(window, at, *place, bytes.as_slice());
        }
    }
}

// Lays bytes that stand from `place` on over a window that begins at `at`.
fn overlay(window: &mut [u8], at: u64, place: u64, bytes: &[u8])
    ensures { window.new ≡ overlaid window.old at place bytes.now }
{
    let low = place.saturating_sub(at) as usize;
    let skipped = at.saturating_sub(place) as usize;
    if low >= window.len() || skipped >= bytes.len() {
        return;
    }
    let (_, rest) = bytes.split_at(skipped);
    let count = rest.len().min(window.len() - low);
    window[low..low + count].copy_from_slice(&rest[..count]);
}

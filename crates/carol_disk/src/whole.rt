ghost use Rattle.std.specs.Prelude.{◌≡◌, ◌≤◌, ℕ, List, Err, IfOk};
ghost use Rattle.carol_outer.specs.Faults.{Rose};
ghost use Rattle.carol_disk.specs.Disk.{LeavesOnly};

use crate::disk::Disk;
use carol_outer::Failed;
use std::alloc::Global;
use thiserror::Error;

/// Why a file was not read to its end.
#[derive(Clone, Copy, Debug, PartialEq, Eq, Error)]
pub enum WholeError {
    /// A read failed.
    #[error("reading failed")]
    Fault,
    /// There was no memory for the bytes.
    #[error("out of memory")]
    NoMemory,
}

// How many bytes are asked for at once.
const CHUNK: usize = 65536;

/// All the bytes of the file. `Fault` comes only where the disk's count of faults rose, `NoMemory`
/// only where there is no room. The disk stays as it is.
pub fn read_whole<D: Disk>(alloc: Global, disk: &mut D) -> Result<Vec<u8>, WholeError>
    ensures bytes { IfOk result (λ v. v.items ≡ D.seen disk.old) }
    ensures seen { D.seen disk.new ≡ D.seen disk.old }
    ensures kept { D.kept disk.new ≡ D.kept disk.old }
    ensures crash { (c : List ℕ) → D.may_leave disk.new c → D.may_leave disk.old c }
    ensures ticks { D.moment disk.new ≡ D.moment disk.old }
    ensures any_moment { LeavesOnly D.moment D.left_since disk.old disk.new
        (D.may_leave disk.old) }
    ensures fault { result ≡ Err WholeError.Fault
        → Rose (D.faults disk.old) (D.faults disk.new) }
    ensures counted { D.faults disk.old ≤ D.faults disk.new }
    ensures limit { D.limit disk.new ≡ D.limit disk.old }
{
    let mut bytes = Vec::new(alloc);
    let mut chunk = [0; CHUNK];
    loop {
        let Ok(count) = disk.read(bytes.len() as u64, &mut chunk) else {
            return Err(WholeError::Fault);
        };
        let (piece, _) = chunk.split_at(count);
        if bytes.extend_from_slice(piece).is_err() {
            return Err(WholeError::NoMemory);
        }
        if count < CHUNK {
            return Ok(bytes);
        }
    }
}

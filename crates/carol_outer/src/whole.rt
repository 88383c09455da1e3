ghost use Rattle.std.specs.Prelude.{◌≡◌, ℕ, List, IfOk, OnOk, IfErr, OnErr, IfSome, ◌+◌, ◌^◌, ◌<◌, ◌≤◌, ◌↔◌, length, take};
ghost use Rattle.std.specs.Io.KnownBytes.{Consumes, Appends, IsAtEnd};
ghost use Rattle.carol_outer.specs.Faults.{Rose};

use super::ends::{Failed, Sink, Source};
use std::alloc::Global;
use thiserror::Error;

/// Why a source was not read to its end.
#[derive(Clone, Copy, Debug, PartialEq, Eq, Error)]
pub enum ReadError {
    /// A read failed.
    #[error("reading failed")]
    Fault,
    /// There are more bytes than are taken.
    #[error("there is more to read than is taken")]
    TooLong,
    /// There was no memory for the bytes.
    #[error("out of memory")]
    NoMemory,
}

/// Why bytes were not all written.
#[derive(Clone, Copy, Debug, PartialEq, Eq, Error)]
pub enum WriteError {
    /// A write failed, or took nothing.
    #[error("writing failed")]
    Fault,
}

// How many bytes are asked for at once.
const CHUNK: usize = 8192;

/// Reads all that is left, if that is at most `limit` bytes. `TooLong` says that there were more,
/// of which `limit + 1` were read at most; `Fault` that a read failed. The bytes read before an
/// error are gone.
pub fn read_all<S: Source>(
    alloc: Global,
    source: &mut S,
    limit: usize,
) -> Result<Vec<u8>, ReadError>
    requires { limit < 2 ^ 32 }

    // Of the bytes given, no more than one passes the limit, and that one is what `TooLong` says.
    ensures given { (bs : List ℕ) × Consumes (S.left source.old) (S.left source.new) bs
        × (length bs ≤ limit + 1)
        × ((result ≡ Err ReadError.TooLong) ↔ limit < length bs) × IfOk result (λ v. v.items ≡ bs) }
    ensures all { IfOk result (λ v. IfSome (S.left source.old) (λ bs. v.items ≡ bs)) }
    ensures end { OnOk result (IsAtEnd (S.left source.new)) }
    ensures fault { result ≡ Err ReadError.Fault
        → Rose (S.faults source.old) (S.faults source.new) }
    ensures counted { S.faults source.old ≤ S.faults source.new }
{
    let mut bytes = Vec::new(alloc);
    let mut chunk = [0; CHUNK];
    loop {
        let room = (limit + 1 - bytes.len()).min(CHUNK);
        match source.read(&mut chunk[..room]) {
            Err(Failed) => return Err(ReadError::Fault),
            Ok(0) => return Ok(bytes),
            Ok(count) => {
                if bytes.len() + count > limit {
                    return Err(ReadError::TooLong);
                }
                if bytes.extend_from_slice(&chunk[..count]).is_err() {
                    return Err(ReadError::NoMemory);
                }
            }
        }
    }
}

/// Writes all the bytes. After a `Fault` a part of them, from the front, was taken.
pub fn write_all<K: Sink>(sink: &mut K, bytes: &[u8]) -> Result<(), WriteError>
    ensures ok { OnOk result (Appends (K.taken sink.old) (K.taken sink.new) bytes.now) }
    ensures part { (n : ℕ) × (n ≤ length bytes.now)
        × Appends (K.taken sink.old) (K.taken sink.new) (take n bytes.now) }
    ensures fault { OnErr result (Rose (K.faults sink.old) (K.faults sink.new)) }
    ensures counted { K.faults sink.old ≤ K.faults sink.new }
{
    let mut at = 0;
    while at < bytes.len() {
        let (_, rest) = bytes.split_at(at);
        match sink.write(rest) {
            Err(Failed) | Ok(0) => return Err(WriteError::Fault),
            Ok(count) => at += count,
        }
    }
    Ok(())
}

ghost use Rattle.std.specs.Prelude.{◌≡◌, ℕ, List, [], Some, Ok, is_err, IfOk, OnOk, OnErr, ◌+◌, ◌-◌, ◌^◌, ◌<◌, ◌≤◌, min, length, take, drop, vec_len, vec_capacity};
ghost use Rattle.std.specs.Io.KnownBytes.{ReadConsumes, WriteAppends};
ghost use Rattle.carol_outer.specs.Faults.{Rose};
ghost use Rattle.carol_outer.specs.Memory.{Feed, Shelf, fails_next, gives_next, after_giving, after_failing, refuses_next, takes_next, after_taking, after_refusing};

use super::ends::{Failed, Sink, Source};
use std::alloc::{AllocError, Global};
use std::marker::Model;

/// A source over memory that gives a piece at a time, and whose listed calls fail.
#[derive(Drop)]
pub struct MemorySource {
    bytes: Vec<u8>,
    at: usize,
    piece: usize,
    failing: Vec<u64>,
    calls: u64,
    faults: u64,
}

impl Model for MemorySource {
    ghost Value = { Feed };

    ghost view = { λ s. record {
      rest = drop s.at s.bytes.items;
      most = s.piece;
      listed = s.failing.items;
      call = s.calls;
      failures = s.faults;
    } };

    ghost invariant = { λ s. (s.at ≤ length s.bytes.items) × (0 < s.piece) };
}

impl MemorySource {
    /// A source that gives these bytes, at most `piece` a call. The calls whose numbers, from 0,
    /// stand in `failing` fail. A call after the last number of a `u64` counts as that number.
    pub fn new(bytes: Vec<u8>, piece: usize, failing: Vec<u64>) -> MemorySource
        requires { 0 < piece }
        ensures { result ≡ record {
          rest = bytes.items;
          most = piece;
          listed = failing.items;
          call = 0;
          failures = 0;
        } }
    {
        MemorySource {
            bytes,
            at: 0,
            piece,
            failing,
            calls: 0,
            faults: 0,
        }
    }
}

impl Source for MemorySource {
    ghost left = { λ s. Some s.rest };

    ghost faults = { λ s. s.failures };

    fn read(&mut self, into: &mut [u8]) -> Result<usize, Failed>
        ensures fails { is_err result ≡ fails_next self.old }
        ensures answer { IfOk result (λ n. n ≡ gives_next self.old (length into.new)) }
        ensures after { IfOk result (λ n. self.new ≡ after_giving self.old n) }
        ensures after_failure { OnErr result (self.new ≡ after_failing self.old) }
        ensures bound { IfOk result (λ n. n ≤ length into.new) }
        ensures gives { ReadConsumes (Some self.old.rest) (Some self.new.rest) result into.new }
        ensures failed { OnErr result (Rose self.old.failures self.new.failures) }
        ensures counted { self.old.failures ≤ self.new.failures }
    {
        let call = self.calls;
        self.calls = call.saturating_add(1);
        if self.failing.contains(&call) {
            self.faults = self.faults.saturating_add(1);
            return Err(Failed);
        }
        let (_, rest) = self.bytes.as_slice().split_at(self.at);
        let (piece, _) = rest.split_at(rest.len().min(self.piece));
        let count = copy_front(into, piece);
        self.at += count;
        Ok(count)
    }
}

/// Copies as much of `from` as fits to the front of `into`, and answers how many bytes.
pub(crate) fn copy_front(into: &mut [u8], from: &[u8]) -> usize
    ensures count { result ≡ min (length from.now) (length into.new) }
    ensures front { take result into.new ≡ take result from.now }
{
    let count = from.len().min(into.len());
    into[..count].copy_from_slice(&from[..count]);
    count
}

/// A sink over memory that takes a piece at a time as long as it has room, and whose listed calls
/// fail.
#[derive(Drop)]
pub struct MemorySink {
    held: Vec<u8>,
    room: usize,
    piece: usize,
    failing: Vec<u64>,
    calls: u64,
    faults: u64,
}

impl Model for MemorySink {
    ghost Value = { Shelf };

    ghost view = { λ s. record {
      held = s.held.items;
      room = s.room;
      most = s.piece;
      listed = s.failing.items;
      call = s.calls;
      failures = s.faults;
    } };

    ghost invariant = { λ s. (vec_len s.held ≤ s.room) × (s.room ≤ vec_capacity s.held)
        × (0 < s.piece) };
}

impl MemorySink {
    /// A sink with room for `room` bytes, which takes at most `piece` bytes a call. The calls whose
    /// numbers, from 0, stand in `failing` fail, and so does a call with bytes that finds no room.
    /// The room is taken at once.
    pub fn new(
        alloc: Global,
        room: usize,
        piece: usize,
        failing: Vec<u64>,
    ) -> Result<MemorySink, AllocError>
        requires { 0 < piece }
        ensures { IfOk result (λ s. s ≡ record {
          held = [];
          room = room;
          most = piece;
          listed = failing.items;
          call = 0;
          failures = 0;
        }) }
    {
        Ok(MemorySink {
            held: Vec::with_capacity(alloc, room)?,
            room,
            piece,
            failing,
            calls: 0,
            faults: 0,
        })
    }

    /// The bytes that it took, in order.
    pub fn taken(&self) -> &[u8]
        ensures { result.now ≡ self.now.held }
    {
        self.held.as_slice()
    }
}

impl Sink for MemorySink {
    ghost taken = { λ s. Some s.held };

    ghost faults = { λ s. s.failures };

    fn write(&mut self, from: &[u8]) -> Result<usize, Failed>
        ensures fails { is_err result ≡ refuses_next self.old from.now }
        ensures answer { IfOk result (λ n. n ≡ takes_next self.old from.now) }
        ensures after { IfOk result (λ n. self.new ≡ after_taking self.old from.now n) }
        ensures after_failure { OnErr result (self.new ≡ after_refusing self.old) }
        ensures bound { IfOk result (λ n. n ≤ length from.now) }
        ensures takes { WriteAppends (Some self.old.held) (Some self.new.held) result from.now }
        ensures failed { OnErr result (Rose self.old.failures self.new.failures) }
        ensures stuck { IfOk result (λ n. n ≡ 0 → 0 < length from.now
            → Rose self.old.failures self.new.failures) }
        ensures counted { self.old.failures ≤ self.new.failures }
    {
        let call = self.calls;
        self.calls = call.saturating_add(1);
        let left = self.room - self.held.len();
        if self.failing.contains(&call) || (!from.is_empty() && left == 0) {
            self.faults = self.faults.saturating_add(1);
            return Err(Failed);
        }
        let count = from.len().min(self.piece).min(left);
        let (piece, _) = from.split_at(count);
        self.held.extend_from_slice(piece).unwrap();
        Ok(count)
    }
}

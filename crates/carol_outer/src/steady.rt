ghost use Rattle.std.specs.Prelude.{◌≡◌, ℕ, List, None, Some, Ok, IfOk, OnErr, ◌+◌, ◌-◌, ◌^◌, ◌<◌, ◌≤◌, min, length, take, drop};
ghost use Rattle.std.specs.Io.KnownBytes.{ReadConsumes, WriteAppends};
ghost use Rattle.carol_outer.specs.Faults.{Rose};

use super::ends::{Failed, Sink, Source};
use super::memory::copy_front;
use std::marker::Model;

/// A source over memory that gives all that fits and never fails. It is seen as the bytes that are
/// left.
#[derive(Drop)]
pub struct SteadySource {
    bytes: Vec<u8>,
    at: usize,
}

impl Model for SteadySource {
    ghost Value = { List ℕ };

    ghost view = { λ s. drop s.at s.bytes.items };

    ghost invariant = { λ s. s.at ≤ length s.bytes.items };
}

impl SteadySource {
    /// A source that gives these bytes.
    pub fn new(bytes: Vec<u8>) -> SteadySource
        ensures { result ≡ bytes.items }
    {
        SteadySource { bytes, at: 0 }
    }
}

impl Source for SteadySource {
    ghost left = { λ s. Some s };

    ghost faults = { λ _. 0 };

    fn read(&mut self, into: &mut [u8]) -> Result<usize, Failed>
        ensures answer { result ≡ Ok (min (length self.old) (length into.new)) }
        ensures bound { IfOk result (λ n. n ≤ length into.new) }
        ensures gives { ReadConsumes (Some self.old) (Some self.new) result into.new }
        ensures failed { OnErr result (Rose 0 0) }
        ensures counted { 0 ≤ 0 }
    {
        let (_, rest) = self.bytes.as_slice().split_at(self.at);
        let count = copy_front(into, rest);
        self.at += count;
        Ok(count)
    }
}

/// A sink that drops what it takes and keeps the number of the bytes. It never fails, and doesn't
/// tell what it took. It is seen as that number, which stays at the last value of a `u64`.
#[derive(Debug, Drop)]
pub struct SteadySink {
    number: u64,
}

impl Model for SteadySink {
    ghost Value = { ℕ };

    ghost view = { λ s. s.number };
}

impl SteadySink {
    /// A sink that took nothing yet.
    pub fn new() -> SteadySink
        ensures { result ≡ 0 }
    {
        SteadySink { number: 0 }
    }

    /// How many bytes it took, or 2^64 - 1 where there were more.
    pub fn number(&self) -> u64
        ensures { result ≡ self.now }
    {
        self.number
    }
}

impl Sink for SteadySink {
    ghost faults = { λ _. 0 };

    fn write(&mut self, from: &[u8]) -> Result<usize, Failed>
        ensures answer { result ≡ Ok (length from.now) }
        ensures number { self.new ≡ min (self.old + length from.now) (2 ^ 64 - 1) }
        ensures bound { IfOk result (λ n. n ≤ length from.now) }
        ensures takes { WriteAppends None None result from.now }
        ensures failed { OnErr result (Rose 0 0) }
        ensures stuck { IfOk result (λ n. n ≡ 0 → 0 < length from.now → Rose 0 0) }
        ensures counted { 0 ≤ 0 }
    {
        self.number = self.number.saturating_add(from.len() as u64);
        Ok(from.len())
    }
}

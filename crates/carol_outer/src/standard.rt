ghost use Rattle.std.specs.Prelude.{◌≡◌, ℕ, ◌≤◌};

use super::ends::{Failed, Sink, Source};
use std::io::{Read, Write};

/// A source over a reader, as the runtime's standard input. It tells nothing of the bytes that are
/// left, and keeps the number of its failures, which stays at the last value of a `u64`.
#[derive(Drop)]
pub struct StdinSource<T: Read + Drop> {
    reader: T,
    failures: u64,
}

impl<T: Read + Drop> StdinSource<T> {
    /// A source over this reader, with no failure yet.
    pub fn new(reader: T) -> StdinSource<T>
        ensures { ⟦<StdinSource<T> as Source>⟧.faults result ≡ 0 }
    {
        StdinSource {
            reader,
            failures: 0,
        }
    }
}

impl<T: Read + Drop> Source for StdinSource<T> {
    ghost faults = { λ s. s.failures };

    fn read(&mut self, into: &mut [u8]) -> Result<usize, Failed> {
        match self.reader.read(into) {
            Ok(count) => Ok(count),
            Err(_) => {
                self.failures = self.failures.saturating_add(1);
                Err(Failed)
            }
        }
    }
}

/// A sink over a writer, as the runtime's standard output. It tells nothing of the bytes that it
/// took, and keeps the number of its failures, which stays at the last value of a `u64`.
#[derive(Drop)]
pub struct StdoutSink<W: Write + Drop> {
    writer: W,
    failures: u64,
}

impl<W: Write + Drop> StdoutSink<W> {
    /// A sink over this writer, with no failure yet.
    pub fn new(writer: W) -> StdoutSink<W>
        ensures { ⟦<StdoutSink<W> as Sink>⟧.faults result ≡ 0 }
    {
        StdoutSink {
            writer,
            failures: 0,
        }
    }
}

impl<W: Write + Drop> Sink for StdoutSink<W> {
    ghost faults = { λ s. s.failures };

    fn write(&mut self, from: &[u8]) -> Result<usize, Failed> {
        match self.writer.write(from) {
            Ok(count) if count > 0 || from.is_empty() => Ok(count),
            _ => {
                self.failures = self.failures.saturating_add(1);
                Err(Failed)
            }
        }
    }
}

ghost use Rattle.std.specs.Prelude.{◌≡◌, ◌<◌, ◌==◌, length};
ghost use Rattle.std.specs.List.{position};
ghost use Rattle.carol_audit.specs.Firsts.{Cuts, Finds, FindsInLine, fault_of};

use crate::error::TailError;
use carol_event::{Event, LineError, parse_event};
use std::alloc::Global;

/// An event, and how many bytes its line has.
#[derive(Drop)]
pub struct Taken {
    pub event: Event,
    pub used: usize,
}

/// The event of the first line, or none where this is the line `results`. Where it is bad, it has
/// this number.
pub fn first_event(alloc: Global, bytes: &[u8], line: u32) -> Result<Option<Taken>, TailError>
    requires { length bytes.now < 4_294_967_295 }
    ensures { Finds bytes.now line result }
{
    match line_end(bytes) {
        Some(end) => {
            let (whole, _) = bytes.split_at(end);
            whole_line(alloc, whole, line)
        }
        None => Err(cut_line(alloc, bytes, line)),
    }
}

// How many bytes stand before the first line feed.
fn line_end(bytes: &[u8]) -> Option<usize>
    ensures { result ≡ position (λ byte. byte == 10) bytes.now }
{
    bytes.iter().position(|byte| *byte == b'\n')
}

// The same of a line that a line feed ends.
fn whole_line(alloc: Global, whole: &[u8], line: u32) -> Result<Option<Taken>, TailError>
    ensures { FindsInLine whole.now line result }
{
    if whole == b"results".as_slice() {
        return Ok(None);
    }
    match parse_event(alloc, whole) {
        Ok(event) => Ok(Some(Taken {
            event,
            used: whole.len() + 1,
        })),
        Err(error) => Err(fault(error, line)),
    }
}

// What is wrong with a line that no line feed ends.
fn cut_line(alloc: Global, cut: &[u8], line: u32) -> TailError
    requires { length cut.now < 4_294_967_295 }
    ensures { Cuts cut.now line result }
{
    let end = cut.len() as u32 + 1;
    if b"results".starts_with(cut) {
        return TailError::Bad { line, column: end };
    }
    match parse_event(alloc, cut) {
        Ok(_) => TailError::Bad { line, column: end },
        Err(error) => fault(error, line),
    }
}

// The fault of a line with this number.
fn fault(error: LineError, line: u32) -> TailError
    ensures { result ≡ fault_of error line }
{
    match error {
        LineError::Bad { column } => TailError::Bad { line, column },
        LineError::NoMemory => TailError::NoMemory,
    }
}

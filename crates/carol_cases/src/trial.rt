use crate::case::{Case, Wanted};
use carol_outer::{MemorySink, MemorySource, OpenGate};
use carol_tool::{Status, carol, number};
use std::str;
use std::sync::Wait;
use std::thread::Threads;

// So many bytes are read and written at once, at most, and so many are written in all.
const READ: usize = 100;

const WRITTEN: usize = 5;

const ROOM: usize = 65_536;

/// Whether the whole case and each of its parts come out as they are to. It prints what came where
/// it is something else.
pub fn is_right<R: Threads + Wait + Sync + AllocGlobal + Print>(
    rt: &R,
    case: &Case,
) -> anyhow::Result<bool> {
    let mut is_right = holds(rt, case, &case.input, &case.wanted)?;
    for cut in &case.cuts {
        if let Some((front, _)) = case.input.as_slice().split_at_checked(cut.length) {
            is_right = holds(rt, case, front, &cut.wanted)? && is_right;
        } else {
            is_right = false;
        }
    }
    Ok(is_right)
}

// Calls `carol` on this input with the case's words, and holds what comes against what is wanted.
fn holds<R: Threads + Wait + Sync + AllocGlobal + Print>(
    rt: &R,
    case: &Case,
    input: &[u8],
    wanted: &Wanted,
) -> anyhow::Result<bool> {
    let alloc = rt.alloc();
    let bytes = Vec::from_slice(alloc, input)?;
    let mut source = MemorySource::new(bytes, READ, Vec::new(alloc));
    let mut sink = MemorySink::new(alloc, ROOM, WRITTEN, Vec::new(alloc))?;
    let status = carol(rt, alloc, &case.words, &mut source, &mut sink, &OpenGate);
    let holds = is_wanted(status, sink.taken(), wanted);
    if !holds {
        let (name, length) = (&case.name, input.len());
        println!(rt; "{name}, of {length} bytes: status {}", number(status))?;
        println!(rt; "{}", str::from_utf8(sink.taken())?)?;
    }
    Ok(holds)
}

// Whether this status and this text are those that are wanted.
fn is_wanted(status: Status, text: &[u8], wanted: &Wanted) -> bool {
    let is_text = match &wanted.text {
        Some(whole) if wanted.is_open => text.starts_with(whole),
        Some(whole) => text == whole.as_slice(),
        None => true,
    };
    number(status) == wanted.status && is_text
}

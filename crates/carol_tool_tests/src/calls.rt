use carol_outer::{Gate, MemorySink, MemorySource, OpenGate};
use carol_tool::{Status, carol};
use std::alloc::{AllocError, Global};
use std::sync::Wait;
use std::test::Fail;
use std::thread::Threads;

pub(crate) const BANK: &[u8] = b"program
counter bal = 100;
invariant bal >= 0;
guard low: here.bal <= there.bal;
op withdraw(n: 1 <= n and n <= 1000) gives 0 <= result and result <= n {
query v under low;
if n <= v.bal {
issue bal -= n;
return n;
} else {
return 0;
}
}
op deposit(n: 1 <= n and n <= 1000) gives result = n {
issue bal += n;
return n;
}
end
";

/// What `carol` answered, and what its sink took.
#[derive(Drop)]
pub(crate) struct Answer {
    pub status: Status,
    pub sink: MemorySink,
}

/// Calls `carol` with one word, on these parts of an input. The source gives 100 bytes a call, and
/// the sink takes 5.
pub(crate) fn call<R: Threads + Wait + Sync + AllocGlobal>(
    rt: &R,
    word: &[u8],
    parts: &[&[u8]],
    failing_reads: &[u64],
    room: usize,
    failing_writes: &[u64],
) -> Result<Answer, Fail> {
    call_through(
        rt,
        word,
        parts,
        failing_reads,
        room,
        failing_writes,
        &OpenGate,
    )
}

/// The same with this gate.
pub(crate) fn call_through<R: Threads + Wait + Sync + AllocGlobal, G: Gate + Sync>(
    rt: &R,
    word: &[u8],
    parts: &[&[u8]],
    failing_reads: &[u64],
    room: usize,
    failing_writes: &[u64],
    gate: &G,
) -> Result<Answer, Fail> {
    let alloc = rt.alloc();
    let mut bytes = Vec::new(alloc);
    for part in parts {
        bytes.extend_from_slice(part)?;
    }
    let words = vec![in alloc; Vec::from_slice(alloc, word)?]?;
    let mut source = MemorySource::new(bytes, 100, Vec::from_slice(alloc, failing_reads)?);
    let mut sink = MemorySink::new(alloc, room, 5, Vec::from_slice(alloc, failing_writes)?)?;
    let status = carol(rt, alloc, &words, &mut source, &mut sink, gate);
    Ok(Answer { status, sink })
}

/// The head of a scene with two workers and one gossiper.
pub(crate) fn head(alloc: Global, replicas: u32, tries: u32) -> Result<String, AllocError> {
    format!(in alloc; "scene\nreplicas {replicas};\ntries {tries};\nworkers 2;\ngossipers 1;\n")
}

/// A program, and a scene with these numbers of replicas and tries and these sessions.
pub(crate) fn scene_input(
    alloc: Global,
    program: &[u8],
    (replicas, tries): (u32, u32),
    sessions: &[u8],
) -> Result<Vec<u8>, Fail> {
    let scene = head(alloc, replicas, tries)?;
    let mut whole = Vec::from_slice(alloc, program)?;
    whole.extend_from_slice(scene.as_bytes())?;
    whole.extend_from_slice(sessions)?;
    whole.extend_from_slice(b"end\n")?;
    Ok(whole)
}

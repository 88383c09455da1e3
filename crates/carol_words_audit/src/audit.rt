ghost use Rattle.std.specs.Prelude.{◌≡◌, ◌+◌, ◌<◌, ◌≤◌, length, take, drop, IfErr, IfOk};
ghost use Rattle.carol_audit.specs.Tails.{HasEvents};
ghost use Rattle.carol_prepare.specs.Parts.{IsFit};
ghost use Rattle.carol_program.specs.Rules.{rules_in};
ghost use Rattle.carol_program.specs.Scenes.{IsValidScene};
ghost use Rattle.carol_reply.specs.Meaning.{IsReply};
ghost use Rattle.carol_reply.specs.Reply.{Ends, HaltSays, HaltTells, answer_of};
ghost use Rattle.carol_syntax.specs.Limits.{most_text_bytes};
ghost use Rattle.carol_words_audit.specs.Audit.{AuditSays, IsAudited, IsToldTail, TailSays};
ghost use Rattle.carol_words_audit.specs.Audit.{audit_meaning, feeds_in};
ghost use Rattle.carol_words_audit.specs.Audit.{finding_answer, tail_answer};

use carol_audit::{Finding, TailError, judge, read_events, tail_laws, transcript_laws};
use carol_event::Event;
use carol_grammar::one_outcome;
use carol_prepare::{Placed, accepted, take_transcript};
use carol_program::Scene;
use carol_reading::Accepted;
use carol_reply::{Halt, Line, Reply, Status, ended, tell_line};
use carol_simulation::simulation;
use std::alloc::{AllocError, Global};
use std::thread::Threads;

/// `audit`: reads a program, a scene and a transcript, and says whether it is that of a history
/// that the program can make in the scene.
pub fn audit_bytes<R: Threads + Sync>(
    rt: &R,
    alloc: Global,
    bytes: &[u8],
) -> Result<Reply, AllocError>
    requires { length bytes.now ≤ most_text_bytes }
    ensures { IfOk result (λ reply. IsReply audit_meaning bytes.now (answer_of reply)) }
{
    one_outcome();
    tail_laws();
    transcript_laws();
    ended(judged(rt, alloc, bytes))
}

// Tells what is found of the file's transcript.
fn judged<R: Threads + Sync>(rt: &R, alloc: Global, bytes: &[u8]) -> Result<Reply, Halt>
    requires { length bytes.now ≤ most_text_bytes }
    ensures { Ends (AuditSays bytes.now) result }
{
    let taken = take_transcript(alloc, bytes, "audit")?;
    let (front, tail) = cut(bytes, taken.offset as usize);
    let line = feeds_in(front) as u32 + 1;
    audit_tail(rt, alloc, taken.placed, tail, line)
}

// The bytes before the offset, and those from there on.
fn cut(bytes: &[u8], offset: usize) -> (&[u8], &[u8])
    ensures front { result.0.now ≡ take offset bytes.now }
    ensures tail { result.1.now ≡ drop offset bytes.now }
    ensures whole { length result.0.now + length result.1.now ≡ length bytes.now }
{
    bytes.split_at(offset.min(bytes.len()))
}

// How many line feeds the bytes have.
fn feeds_in(bytes: &[u8]) -> usize
    ensures count { result ≡ feeds_in bytes.now }
    ensures few { result ≤ length bytes.now }
{
    bytes.iter().filter(|byte| **byte == b'\n').count()
}

// Tells what is found of this tail, which begins with the line of this number.
fn audit_tail<R: Threads + Sync>(
    rt: &R,
    alloc: Global,
    placed: Placed,
    tail: &[u8],
    line: u32,
) -> Result<Reply, Halt>
    requires fit { IsFit placed.program placed.scene }
    requires first { 1 ≤ line }
    requires few { line + length tail.now < 4_294_967_295 }
    ensures { Ends (TailSays tail.now line placed.program placed.scene) result }
{
    let Placed { program, scene } = placed;
    let events = events_of(alloc, tail, line)?;
    let kept = accepted(rt, alloc, program)?;
    Ok(find(alloc, kept, scene, &events, tail)?)
}

// The events of a tail, which begins with the line of this number.
fn events_of(alloc: Global, tail: &[u8], line: u32) -> Result<Vec<Event>, Halt>
    requires { line + length tail.now < 4_294_967_295 }
    ensures events { IfOk result (λ events. HasEvents tail.now events.items) }
    ensures told { IfErr result (HaltSays (IsToldTail tail.now line)) }
{
    match read_events(alloc, tail, line) {
        Ok(events) => Ok(events),
        Err(error) => Err(bad_tail(alloc, error)),
    }
}

// Tells what is wrong with the lines of events.
fn bad_tail(alloc: Global, error: TailError) -> Halt
    ensures { HaltTells (tail_answer error) result }
{
    match error {
        TailError::Bad { line, column } => tell_line(alloc, Line::BadText { line, column }),
        TailError::TooLarge => tell_line(alloc, Line::TooManyEvents),
        TailError::NoMemory => Halt::NoMemory,
    }
}

// Says what is found of a tail with these events.
fn find(
    alloc: Global,
    accepted: Accepted,
    scene: Scene,
    events: &[Event],
    tail: &[u8],
) -> Result<Reply, AllocError>
    requires valid { IsValidScene (rules_in accepted.program) scene }
    requires read { HasEvents tail.now events.now }
    requires small { length tail.now + 1 < 4_294_967_295 }
    ensures { IfOk result (λ reply. IsAudited tail.now accepted scene (answer_of reply)) }
{
    simulation();
    // The program is known to be accepted.
    let _program = accepted.program();
    let finding = judge(alloc, accepted, scene, events, tail)?;
    finding_reply(alloc, finding)
}

// The reply that tells what was found.
fn finding_reply(alloc: Global, finding: Finding) -> Result<Reply, AllocError>
    ensures { IfOk result (λ reply. answer_of reply ≡ finding_answer finding) }
{
    match finding {
        Finding::Genuine(count) => Ok(Reply {
            status: Status::Ok,
            text: format!(in alloc; "genuine {count}\n")?.into_bytes(),
        }),
        Finding::FalseEvent(number) => Ok(Reply {
            status: Status::FalseTranscript,
            text: format!(in alloc; "false event {number}\n")?.into_bytes(),
        }),
        Finding::FalseLine(number) => Ok(Reply {
            status: Status::FalseTranscript,
            text: format!(in alloc; "false line {number}\n")?.into_bytes(),
        }),
    }
}

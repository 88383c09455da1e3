ghost use Rattle.std.specs.Prelude.{◌≡◌, ◌<◌, ◌+◌, List, length, IfOk};
ghost use Rattle.carol_program.specs.Rules.{rules_in};
ghost use Rattle.carol_program.specs.Scenes.{IsValidScene};
ghost use Rattle.carol_event.specs.declared.event.Event.{Event as EventData};
ghost use Rattle.carol_audit.specs.Tails.{HasEvents};
ghost use Rattle.carol_audit.specs.declared.finding.Finding.TheVariants as finding;
ghost use Rattle.carol_audit.specs.Findings.{ComesTo, Compares, Finds, IsReportOf};

use crate::laws::transcript_laws;
use crate::{Ruling, audit, first_false_line};
use carol_event::Event;
use carol_house::House;
use carol_program::Scene;
use carol_reading::Accepted;
use carol_report::report;
use std::alloc::{AllocError, Global};

/// What an audit finds of a transcript.
#[derive(Clone, Copy, Debug, PartialEq, Eq)]
pub enum Finding {
    /// It is the report of a history with this many events.
    Genuine(u32),
    /// The event with this number, from 1, is the first that may not come after those before it.
    FalseEvent(u32),
    /// The line with this number is the first that is not the report's. The transcript's first line
    /// has number 1.
    FalseLine(u32),
}

/// Audits the tail of a transcript of the program in the scene, which is valid for it, with the
/// events that were read from it. It is genuine exactly where it is the tail of the report of a
/// history that the program can make in the scene.
pub fn judge(
    alloc: Global,
    accepted: Accepted,
    scene: Scene,
    events: &[Event],
    tail: &[u8],
) -> Result<Finding, AllocError>
    requires valid { IsValidScene (rules_in accepted.program) scene }
    requires read { HasEvents tail.now events.now }
    requires small { length tail.now + 1 < 4_294_967_295 }
    ensures tells { IfOk result (Finds (rules_in accepted.program) scene tail.now) }
    ensures only { (past : List EventData)
        → IsReportOf (rules_in accepted.program) scene tail.now past
        → IfOk result (λ found. found ≡ finding.Genuine (length past)) }
{
    transcript_laws();
    // The program is known to be accepted.
    let _program = accepted.program();
    find(alloc, accepted, scene, events, tail)
}

// What is found of the events and of the lines behind them.
fn find(
    alloc: Global,
    accepted: Accepted,
    scene: Scene,
    events: &[Event],
    tail: &[u8],
) -> Result<Finding, AllocError>
    requires valid { IsValidScene (rules_in accepted.program) scene }
    requires read { HasEvents tail.now events.now }
    requires small { length tail.now + 1 < 4_294_967_295 }
    ensures { IfOk result (Finds (rules_in accepted.program) scene tail.now) }
{
    let ruling = audit(alloc, accepted, scene, events)?;
    finding_of(alloc, &ruling, events.len() as u32, tail)
}

// What the ruling and the lines behind the events come to.
fn finding_of(
    alloc: Global,
    ruling: &Ruling,
    count: u32,
    tail: &[u8],
) -> Result<Finding, AllocError>
    requires { length tail.now + 1 < 4_294_967_295 }
    ensures { IfOk result (ComesTo ruling.now count tail.now) }
{
    match ruling {
        Ruling::FirstFalse(number) => Ok(Finding::FalseEvent(*number)),
        Ruling::Genuine(house) => match false_line(alloc, house, tail)? {
            Some(number) => Ok(Finding::FalseLine(number)),
            None => Ok(Finding::Genuine(count)),
        },
    }
}

// The number of the first line that is not the report's, where there is one.
fn false_line(alloc: Global, house: &House, tail: &[u8]) -> Result<Option<u32>, AllocError>
    requires { length tail.now + 1 < 4_294_967_295 }
    ensures { IfOk result (Compares house.now tail.now) }
{
    let text = report(alloc, house)?;
    let (_, behind) = text.as_slice().split_at(b"transcript\n".len());
    match first_false_line(behind, tail) {
        Some(number) => Ok(Some(number + 1)),
        None => Ok(None),
    }
}

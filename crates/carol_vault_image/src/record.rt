ghost use Rattle.std.specs.Prelude.{◌≡◌, ◌≤◌, [], ◌∷◌, ◌++◌, length, IfNone, IfOk, IfSome};
ghost use Rattle.carol_event.specs.declared.event.Event.{Event as EventData};
ghost use Rattle.carol_event.specs.Numbers.{HasNumbers};
ghost use Rattle.carol_event.specs.Texts.{event_line};
ghost use Rattle.carol_vault_image.specs.Records.{BeginsNoRecord, IsTaken, body_of};

use carol_event::{Event, parse_event, print_event};
use std::alloc::{AllocError, Global};

/// An event, and how many bytes its record has.
#[derive(Drop)]
pub struct Taken {
    /// The event.
    pub event: Event,
    /// How many bytes its record has, with its gate.
    pub used: usize,
}

/// What is written behind the gate of an event's record: the record, and a shut gate behind it.
/// The event's numbers fit its text.
#[tactic(auto, using(crate::proofs::Sizes::short_line))]
pub fn record_body(alloc: Global, event: &Event) -> Result<Vec<u8>, AllocError>
    requires { HasNumbers event.now }
    ensures body { IfOk result (λ body. body.items ≡ body_of event.now ++ 0 ∷ []) }
    ensures short { IfOk result (λ body. length body.items ≤ 1000) }
{
    let mut line = Vec::new(alloc);
    print_event(event, &mut line)?;
    let size = line.len();
    let mut body = Vec::with_capacity(alloc, size + 3)?;
    body.push((size / 256) as u8)?;
    body.push((size % 256) as u8)?;
    body.extend_from_slice(line.as_slice())?;
    body.push(0)?;
    Ok(body)
}

/// The record that stands in front; none where no whole record does.
pub fn first_record(alloc: Global, bytes: &[u8]) -> Option<Taken>
    ensures taken { IfSome result (IsTaken bytes.now) }
    ensures none { IfNone result (BeginsNoRecord bytes.now) }
{
    let [1, high, low, rest @ ..] = bytes else {
        return None;
    };
    let size = 256 * *high as usize + *low as usize;
    if size == 0 || rest.len() < size {
        return None;
    }
    let (line, _) = rest.split_at(size);
    let event = line_event(alloc, line)?;
    Some(Taken {
        event,
        used: size + 3,
    })
}

// The event of a line, which ends with a line feed; none where there is no such event.
fn line_event(alloc: Global, line: &[u8]) -> Option<Event>
    ensures event { IfSome result (λ event. HasNumbers event × (line.now ≡ event_line event)) }
    ensures none { IfNone result ((event : EventData) → HasNumbers event →
        line.now ≡ event_line event → ⊥) }
{
    let (last, text) = line.split_last()?;
    if *last != b'\n' {
        return None;
    }
    match parse_event(alloc, text) {
        Ok(event) => Some(event),
        Err(_) => None,
    }
}

ghost use Rattle.std.specs.Prelude.{◌≡◌, ◌<◌, true, false, length, drop, IfOk};
ghost use Rattle.carol_program.specs.Rules.{rules_in};
ghost use Rattle.carol_program.specs.Scenes.{IsValidScene};
ghost use Rattle.carol_vault.specs.Finding.{IsClosed, IsOpen, Tells, found_of};

use carol_audit::{Ruling, audit};
use carol_house::{House, MOST_EVENTS};
use carol_program::Scene;
use carol_reading::Accepted;
use carol_vault_image::read_image;
use std::alloc::{AllocError, Global};

/// What is found of a file.
#[derive(Drop)]
pub enum Found {
    /// It keeps the history of the house, and the shut gate behind its records has this place.
    Sound(House, usize),
    /// Behind its whole records, which end at this place, the file ends or an open gate stands.
    Damaged(usize),
    /// The event with this number, from 1, is the first that may not come, or is one too many.
    Illegal(u32),
}

/// What is found of a file of the program in the scene, which is valid for it.
pub fn find(
    alloc: Global,
    accepted: Accepted,
    scene: Scene,
    bytes: &[u8],
) -> Result<Found, AllocError>
    requires valid { IsValidScene (rules_in accepted.program) scene }
    ensures { IfOk result (Tells accepted scene bytes.now) }
{
    let image = read_image(alloc, bytes)?;
    if !is_closed(bytes, image.end) {
        return Ok(Found::Damaged(image.end));
    }
    let events = image.events.as_slice();
    let few = events.len().min(MOST_EVENTS);
    let (first, more) = events.split_at(few);
    let ruling = audit(alloc, accepted, scene, first)?;
    Ok(found_of(ruling, image.end, more.is_empty()))
}

// What a ruling on the events says of their file, whose records end at this place, if these are all
// events of it or if there are more.
fn found_of(ruling: Ruling, place: usize, all: bool) -> Found
    ensures { result ≡ found_of ruling place all }
{
    match ruling {
        Ruling::FirstFalse(number) => Found::Illegal(number),
        Ruling::Genuine(house) => {
            if all {
                return Found::Sound(house, place);
            }
            let_go(house);
            Found::Illegal(MOST_EVENTS as u32 + 1)
        }
    }
}

// Lets the house go.
fn let_go(_house: House) {}

// Whether a shut gate stands at the end of the records, or the file is all but empty.
fn is_closed(bytes: &[u8], end: usize) -> bool
    ensures closed { result ≡ true → IsClosed bytes.now (drop end bytes.now) }
    ensures broken { result ≡ false →
        (1 < length bytes.now) × IsOpen (drop end bytes.now) }
{
    if bytes.len() <= 1 {
        return true;
    }
    match bytes.get(end) {
        Some(gate) => *gate != 1,
        None => false,
    }
}

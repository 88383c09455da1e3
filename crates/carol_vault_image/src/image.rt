ghost use Rattle.std.specs.Prelude.{IfOk};
ghost use Rattle.carol_vault_image.specs.Records.{IsImage};

use crate::record::first_record;
use carol_event::Event;
use std::alloc::{AllocError, Global};

/// The events of a file.
#[derive(Drop)]
pub struct Image {
    /// Those of the longest run of whole records from the front.
    pub events: Vec<Event>,
    /// The place behind that run.
    pub end: usize,
}

/// Reads the whole records of a file from the front, as many as there are.
pub fn read_image(alloc: Global, bytes: &[u8]) -> Result<Image, AllocError>
    ensures { IfOk result (IsImage bytes.now) }
{
    let mut events = Vec::new(alloc);
    let mut end = 0;
    while let Some(taken) = first_record(alloc, bytes.split_at(end).1) {
        events.push(taken.event)?;
        end += taken.used;
    }
    Ok(Image { events, end })
}

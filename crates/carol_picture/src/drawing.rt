ghost use Rattle.std.specs.Prelude.{◌≡◌, ◌≤◌, length, IfOk};
ghost use Rattle.carol_program.specs.Limits.{most_cells, most_replicas, most_sessions};
ghost use Rattle.carol_store.specs.Stores.{IsStore};
ghost use Rattle.carol_program.specs.Rules.{rules_in};
ghost use Rattle.carol_picture.specs.Changes.{FitsAll};
ghost use Rattle.carol_picture.specs.Picture.{picture_text};

use crate::frame::push_head;
use crate::marks::push_marks;
use carol_event::Event;
use carol_program::{Program, Scene};
use std::alloc::{AllocError, Global};

/// The most events that are drawn in one image.
pub const MOST_DRAWN: usize = 2_000;

/// The text of an image of these events: what the program and the scene say stands around them,
/// and each event has its mark, in order.
#[tactic(auto, unfolding(crate::specs::Picture::picture_text))]
pub fn picture(
    alloc: Global,
    program: &Program,
    scene: &Scene,
    events: &[Event],
) -> Result<Vec<u8>, AllocError>
    requires few { length events.now ≤ MOST_DRAWN }
    requires cells { length program.now.names.cells ≤ most_cells }
    requires plans { length scene.now.sessions ≤ most_sessions }
    requires replicas { scene.now.replicas ≤ most_replicas }
    requires initial { IsStore program.now.shape program.now.initial }
    requires fit { FitsAll program.now.shape program.now.initial events.now }
    ensures { IfOk result (λ text. text.items
        ≡ picture_text (rules_in program.now) program.now.names scene.now events.now) }
{
    let mut out = Vec::new(alloc);
    push_head(alloc, &mut out, program, scene, events)?;
    push_marks(alloc, &mut out, program, scene, events)?;
    out.extend_from_slice(b"</svg>\n")?;
    Ok(out)
}

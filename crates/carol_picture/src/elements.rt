ghost use Rattle.std.specs.Prelude.{◌≡◌, ◌++◌, OnOk};
ghost use Rattle.carol_picture.specs.Elements.{
  line_element,
  line_head,
  numbers_text,
  text_element,
  text_head,
};

use crate::texts::{push_escaped, push_numbered, push_word};
use std::alloc::AllocError;

/// Appends a line of this class, through the points whose numbers these are.
#[tactic(auto, unfolding(crate::specs::Elements::line_element))]
pub fn push_line(out: &mut Vec<u8>, class: &[u8], points: &[u64]) -> Result<(), AllocError>
    ensures { OnOk result (out.new.items ≡ out.old.items ++ line_element class.now points.now) }
{
    push_line_head(out, class)?;
    push_numbers(out, points)?;
    push_word(out, b"'/>\n")
}

// Appends what stands before the numbers of a line.
#[tactic(auto, unfolding(crate::specs::Elements::line_head))]
fn push_line_head(out: &mut Vec<u8>, class: &[u8]) -> Result<(), AllocError>
    ensures { OnOk result (out.new.items ≡ out.old.items ++ line_head class.now) }
{
    push_word(out, b"<polyline class='")?;
    push_word(out, class)?;
    push_word(out, b"' points='")
}

// Appends the numbers, each behind a space.
fn push_numbers(out: &mut Vec<u8>, numbers: &[u64]) -> Result<(), AllocError>
    ensures { OnOk result (out.new.items ≡ out.old.items ++ numbers_text numbers.now) }
{
    for number in numbers {
        push_numbered(out, b" ", *number)?;
    }
    Ok(())
}

/// Appends a text of this class at a point.
#[tactic(auto, unfolding(crate::specs::Elements::text_element))]
pub fn push_text(
    out: &mut Vec<u8>,
    class: &[u8],
    x: u64,
    y: u64,
    text: &[u8],
) -> Result<(), AllocError>
    ensures { OnOk result (out.new.items ≡ out.old.items ++ text_element class.now x y text.now) }
{
    push_head(out, class, x, y)?;
    push_escaped(out, text)?;
    out.extend_from_slice(b"</text>\n")
}

// Appends what stands before the words of a text.
#[tactic(auto, unfolding(crate::specs::Elements::text_head))]
fn push_head(out: &mut Vec<u8>, class: &[u8], x: u64, y: u64) -> Result<(), AllocError>
    ensures { OnOk result (out.new.items ≡ out.old.items ++ text_head class.now x y) }
{
    out.extend_from_slice(b"<text class='")?;
    out.extend_from_slice(class)?;
    push_numbered(out, b"' x='", x)?;
    push_numbered(out, b"' y='", y)?;
    out.extend_from_slice(b"'>")
}

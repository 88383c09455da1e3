ghost use Rattle.std.specs.Prelude.{◌≡◌, ◌++◌, OnOk, List, ℕ, map};
ghost use Rattle.carol_print.specs.Pieces.{Piece, text_of};
ghost use Rattle.carol_print.specs.Canonical.{with_commas, concat, only_name, int};

use carol_syntax::Ident;
use carol_text::push_integer;
use std::alloc::AllocError;

/// What has a canonical text.
pub trait Printed {
    ghost pieces: { Self → List Piece };

    /// Appends the text.
    fn push_to(&self, out: &mut Vec<u8>) -> Result<(), AllocError>
        ensures { OnOk result (out.new.items ≡ out.old.items ++ text_of (pieces self.now)) };
}

impl Printed for Ident {
    ghost pieces = { only_name };

    fn push_to(&self, out: &mut Vec<u8>) -> Result<(), AllocError> {
        out.extend_from_slice(self.word.bytes())
    }
}

impl Printed for i64 {
    ghost pieces = { int };

    fn push_to(&self, out: &mut Vec<u8>) -> Result<(), AllocError> {
        push_integer(out, *self)
    }
}

/// Appends a fixed text.
pub fn push_text(out: &mut Vec<u8>, text: &str) -> Result<(), AllocError>
    ensures { OnOk result (out.new.items ≡ out.old.items ++ text.now) }
{
    out.extend_from_slice(text.as_bytes())
}

/// Appends the texts with commas between them.
pub fn push_with_commas<T: Printed>(out: &mut Vec<u8>, items: &[T]) -> Result<(), AllocError>
    ensures { OnOk result
        (out.new.items ≡ out.old.items ++ text_of (with_commas (map T.pieces items.now))) }
{
    let Some((first, more)) = items.split_first() else {
        return Ok(());
    };
    first.push_to(out)?;
    for item in more {
        push_text(out, ", ")?;
        item.push_to(out)?;
    }
    Ok(())
}

/// Appends the texts one behind the other.
pub fn push_all<T: Printed>(out: &mut Vec<u8>, items: &[T]) -> Result<(), AllocError>
    ensures { OnOk result
        (out.new.items ≡ out.old.items ++ text_of (concat (map T.pieces items.now))) }
{
    for item in items {
        item.push_to(out)?;
    }
    Ok(())
}

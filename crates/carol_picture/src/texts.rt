ghost use Rattle.std.specs.Prelude.{◌≡◌, ◌++◌, OnOk};
ghost use Rattle.carol_picture.specs.Texts.{escaped, escaped_byte, name_at, named, numbered};

use carol_program::Name;
use carol_text::push_integer;
use std::alloc::AllocError;

/// Appends a word.
pub fn push_word(out: &mut Vec<u8>, word: &[u8]) -> Result<(), AllocError>
    ensures { OnOk result (out.new.items ≡ out.old.items ++ word.now) }
{
    out.extend_from_slice(word)
}

/// Appends a word, and a number behind it.
#[tactic(auto, unfolding(crate::specs::Texts::numbered))]
pub fn push_numbered(out: &mut Vec<u8>, word: &[u8], number: u64) -> Result<(), AllocError>
    ensures { OnOk result (out.new.items ≡ out.old.items ++ numbered word.now number) }
{
    out.extend_from_slice(word)?;
    push_integer(out, number)
}

/// Appends a word, and behind it the name with this number, if there is one.
#[tactic(auto, unfolding(crate::specs::Texts::named))]
pub fn push_named(
    out: &mut Vec<u8>,
    word: &[u8],
    names: &[Name],
    number: u32,
) -> Result<(), AllocError>
    ensures { OnOk result (out.new.items ≡ out.old.items ++ named word.now names.now number) }
{
    out.extend_from_slice(word)?;
    push_name(out, names, number)
}

// Appends the name with this number, if there is one.
fn push_name(out: &mut Vec<u8>, names: &[Name], number: u32) -> Result<(), AllocError>
    ensures { OnOk result (out.new.items ≡ out.old.items ++ name_at names.now number) }
{
    match names.get(number as usize) {
        Some(name) => out.extend_from_slice(name.bytes()),
        None => Ok(()),
    }
}

/// Appends the bytes as an image's text has them.
pub fn push_escaped(out: &mut Vec<u8>, bytes: &[u8]) -> Result<(), AllocError>
    ensures { OnOk result (out.new.items ≡ out.old.items ++ escaped bytes.now) }
{
    for byte in bytes {
        push_escaped_byte(out, *byte)?;
    }
    Ok(())
}

// Appends the byte: what an image's text would take for a tag or a reference stands by its name.
#[tactic(auto, unfolding(crate::specs::Texts::escaped_byte))]
fn push_escaped_byte(out: &mut Vec<u8>, byte: u8) -> Result<(), AllocError>
    ensures { OnOk result (out.new.items ≡ out.old.items ++ escaped_byte byte) }
{
    match byte {
        b'&' => out.extend_from_slice(b"&amp;"),
        b'<' => out.extend_from_slice(b"&lt;"),
        b'>' => out.extend_from_slice(b"&gt;"),
        _ => out.extend_from_slice(&[byte]),
    }
}

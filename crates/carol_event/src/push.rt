ghost use Rattle.std.specs.Prelude.{◌++◌, codes};
ghost use Rattle.carol_event.specs.Pushes.{Appends, numbers_text};
ghost use Rattle.carol_event.specs.Texts.{atom_text, atoms_text, values_text};

use carol_store::Atom;
use carol_text::push_integer;
use itoa::Integer;
use std::alloc::AllocError;

/// Appends the number, behind a space.
pub fn push_spaced<I: Integer>(out: &mut Vec<u8>, value: I) -> Result<(), AllocError>
    ensures { Appends result out.old.items (codes " " ++ I.text value) out.new.items }
{
    out.extend_from_slice(b" ")?;
    push_integer(out, value)
}

/// Appends the word, and the numbers, each behind a space.
pub fn push_numbers(out: &mut Vec<u8>, word: &[u8], numbers: &[u32]) -> Result<(), AllocError>
    ensures { Appends result out.old.items (word.now ++ numbers_text numbers.now) out.new.items }
{
    out.extend_from_slice(word)?;
    for number in numbers {
        push_spaced(out, *number)?;
    }
    Ok(())
}

/// Appends the values of a store, each behind a space.
pub fn push_store(out: &mut Vec<u8>, values: &[i64]) -> Result<(), AllocError>
    ensures { Appends result out.old.items (values_text values.now) out.new.items }
{
    for value in values {
        push_spaced(out, *value)?;
    }
    Ok(())
}

/// Appends the atoms of an effect, each behind a space.
pub fn push_effect(out: &mut Vec<u8>, atoms: &[Atom]) -> Result<(), AllocError>
    ensures { Appends result out.old.items (atoms_text atoms.now) out.new.items }
{
    for atom in atoms {
        push_atom(out, *atom)?;
    }
    Ok(())
}

// Appends the atom, behind a space.
fn push_atom(out: &mut Vec<u8>, atom: Atom) -> Result<(), AllocError>
    ensures { Appends result out.old.items (codes " " ++ atom_text atom) out.new.items }
{
    push_spaced(out, atom.cell)?;
    out.extend_from_slice(b":")?;
    push_integer(out, atom.value)
}

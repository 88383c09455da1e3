ghost use Rattle.std.specs.Prelude.{◌≡◌, Ok, Err};
ghost use Rattle.carol_text.specs.Reading.{Reads};
ghost use Rattle.carol_event.specs.Lines.{atom_at, items_at, value_at};

use crate::fields::{atom, value};
use carol_store::{AtomList, MOST_CELLS, ShortList};
use carol_text::{BadByte, expect};
use std::alloc::Global;

/// The values up to the end of the line, one space before each.
pub fn values(alloc: Global, bytes: &[u8]) -> Result<ShortList<i64>, BadByte>
    ensures { Reads (λ x. x) result (items_at value_at MOST_CELLS bytes.now) }
{
    let mut values = ShortList::new(alloc);
    let mut left = bytes;
    while !left.is_empty() {
        let item = expect(left, b" ")?;
        if values.as_slice().len() == MOST_CELLS {
            return Err(BadByte { left: item.len() });
        }
        let (value, rest) = value(item)?;
        values.push(value);
        left = rest;
    }
    Ok(values)
}

/// The atoms up to the end of the line, one space before each.
pub fn atoms(alloc: Global, bytes: &[u8]) -> Result<AtomList, BadByte>
    ensures { Reads (λ x. x) result (items_at atom_at MOST_CELLS bytes.now) }
{
    let mut atoms = AtomList::new(alloc);
    let mut left = bytes;
    while !left.is_empty() {
        let item = expect(left, b" ")?;
        if atoms.as_slice().len() == MOST_CELLS {
            return Err(BadByte { left: item.len() });
        }
        let (atom, rest) = atom(item)?;
        atoms.push(atom);
        left = rest;
    }
    Ok(atoms)
}

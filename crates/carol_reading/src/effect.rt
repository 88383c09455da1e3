ghost use Rattle.std.specs.Prelude.{◌≡◌, ◌<◌, ◌++◌, [], length};
ghost use Rattle.std.specs.Option.{option_copied};
ghost use Rattle.carol_store.specs.Effects.{AreAtomsOf};
ghost use Rattle.carol_reading.specs.Parts.{AmountsFit, CanPut};
ghost use Rattle.carol_reading.specs.Readings.{amount_for, before_atoms, effect_of};

use carol_formula::{Lookup, Term};
use carol_program::Part;
use carol_store::{Atom, AtomList, Effect, MOST_CELLS, Shape};
use std::alloc::Global;

/// What is done to the cell, if one of the parts is the cell's.
pub fn amount_for(cell: u32, parts: &[Part]) -> Option<&Term>
    ensures { option_copied result ≡ amount_for cell parts.now }
{
    let mut left = parts;
    while let Some((part, more)) = left.split_first() {
        if part.cell == cell {
            return Some(&part.amount);
        }
        left = more;
    }
    None
}

// Appends the cell's atom, if one of the parts is the cell's.
fn put_atom<L: Lookup>(atoms: &mut AtomList, cell: u32, parts: &[Part], at: &L)
    requires room { length atoms.old < MOST_CELLS }
    requires can { CanPut (L.numbers at.now) (amount_for cell parts.now) }
    ensures { atoms.new ≡ atoms.old
        ++ before_atoms cell (amount_for cell parts.now) (L.numbers at.now) [] }
{
    match amount_for(cell, parts) {
        Some(amount) => {
            let value = amount.value(at) as i64;
            atoms.push(Atom { cell, value });
        }
        None => {}
    }
}

/// The effect of an issue's parts.
pub(crate) fn effect<L: Lookup>(alloc: Global, shape: &Shape, parts: &[Part], at: &L) -> Effect
    requires fit { AmountsFit (L.numbers at.now) parts.now }
    requires atoms { AreAtomsOf shape.now (effect_of shape.now parts.now (L.numbers at.now)) }
    ensures { result ≡ effect_of shape.now parts.now (L.numbers at.now) }
{
    let mut atoms = AtomList::new(alloc);
    let mut cell = 0;
    let mut left = shape.kinds();
    while let Some((_, more)) = left.split_first() {
        put_atom(&mut atoms, cell, parts, at);
        cell += 1;
        left = more;
    }
    Effect::new(alloc, shape, atoms.as_slice())
}

ghost use Rattle.std.specs.Prelude.{◌≡◌, ◌++◌, OnOk};
ghost use Rattle.carol_picture.specs.Labels.{amount_text, atom_text, atoms_text, kind_of};

use crate::texts::push_named;
use carol_program::Name;
use carol_store::{Atom, CellKind, Shape};
use carol_text::push_integer;
use std::alloc::AllocError;

/// Appends what an effect changes, cell by cell.
pub fn push_atoms(
    out: &mut Vec<u8>,
    cells: &[Name],
    shape: &Shape,
    atoms: &[Atom],
) -> Result<(), AllocError>
    ensures { OnOk result (out.new.items ≡ out.old.items
        ++ atoms_text cells.now shape.now atoms.now) }
{
    for atom in atoms {
        push_atom(out, cells, shape, *atom)?;
    }
    Ok(())
}

// Appends what an atom changes.
#[tactic(auto, unfolding(crate::specs::Labels::atom_text))]
fn push_atom(out: &mut Vec<u8>, cells: &[Name], shape: &Shape, atom: Atom) -> Result<(), AllocError>
    ensures { OnOk result (out.new.items ≡ out.old.items ++ atom_text cells.now shape.now atom) }
{
    push_named(out, b", ", cells, atom.cell)?;
    push_amount(out, kind_of(shape, atom.cell), atom.value)
}

// The kind of the cell. A cell that isn't there counts as a counter.
fn kind_of(shape: &Shape, cell: u32) -> CellKind
    ensures { result ≡ kind_of shape.now cell }
{
    match shape.kinds().get(cell as usize) {
        Some(kind) => *kind,
        None => CellKind::Counter,
    }
}

// Appends what an atom of this value makes of a cell of this kind.
#[tactic(auto, unfolding(crate::specs::Labels::amount_text))]
fn push_amount(out: &mut Vec<u8>, kind: CellKind, value: i64) -> Result<(), AllocError>
    ensures { OnOk result (out.new.items ≡ out.old.items ++ amount_text kind value) }
{
    match kind {
        CellKind::Counter if value < 0 => out.extend_from_slice(b" ")?,
        CellKind::Counter => out.extend_from_slice(b" +")?,
        CellKind::Peak => out.extend_from_slice(b" raised to ")?,
        CellKind::Flag => return out.extend_from_slice(b" set"),
    }
    push_integer(out, value)
}

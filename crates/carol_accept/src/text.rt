ghost use Rattle.std.specs.Prelude.{◌≡◌, ◌++◌, ◌<◌, ◌≤◌, length, slice_get, OnOk, IfOk, Some};
ghost use Rattle.carol_program.specs.Accords.{HasWay};
ghost use Rattle.carol_program.specs.Limits.{most_cells};
ghost use Rattle.carol_accept.specs.Texts as text;
ghost use Rattle.carol_accept.specs.Texts.{
  answer_word,
  cell_text,
  guard_text,
  way_text,
};

use crate::names::{push_name, push_text, push_way_word};
use carol_program::{AccordTable, Entry, Names};
use carol_reading::Accepted;
use carol_store::CellKind;
use carol_text::push_integer;
use std::alloc::{AllocError, Global};

// The word of an entry.
fn answer_word(entry: &Entry) -> &'static str
    ensures { result.now ≡ answer_word (Some entry.now) }
{
    match entry {
        Entry::Yes => "yes",
        Entry::No(_) => "no",
    }
}

// Appends whether this way of the cell keeps the guard.
fn push_way(
    out: &mut Vec<u8>,
    names: &Names,
    table: &AccordTable,
    guard: u32,
    cell: u32,
    up: bool,
) -> Result<(), AllocError>
    requires guard { guard < table.now.guards }
    requires way { HasWay table.now.kinds cell up }
    ensures { OnOk result (out.new.items ≡ out.old.items
        ++ way_text names.now table.now guard cell up) }
{
    push_name(out, names.cells.as_slice(), cell)?;
    push_way_word(out, up)?;
    push_text(out, " ")?;
    push_text(out, answer_word(table.entry(guard, cell, up)))?;
    push_text(out, "\n")
}

// Appends the ways of a cell of this kind.
fn push_cell(
    out: &mut Vec<u8>,
    names: &Names,
    table: &AccordTable,
    guard: u32,
    cell: u32,
    kind: CellKind,
) -> Result<(), AllocError>
    requires guard { guard < table.now.guards }
    requires kind { slice_get table.now.kinds cell ≡ Some kind }
    ensures { OnOk result (out.new.items ≡ out.old.items
        ++ cell_text names.now table.now guard cell kind) }
{
    let mut left = kind.ways();
    while let Some((up, more)) = left.split_first() {
        push_way(out, names, table, guard, cell, *up)?;
        left = more;
    }
    Ok(())
}

// Appends a guard with all cells.
fn push_guard(
    out: &mut Vec<u8>,
    names: &Names,
    table: &AccordTable,
    kinds: &[CellKind],
    guard: u32,
) -> Result<(), AllocError>
    requires kinds { kinds.now ≡ table.now.kinds }
    requires few { length kinds.now ≤ most_cells }
    requires guard { guard < table.now.guards }
    ensures { OnOk result (out.new.items ≡ out.old.items
        ++ guard_text names.now table.now kinds.now guard) }
{
    push_text(out, "guard ")?;
    push_integer(out, guard)?;
    push_text(out, " ")?;
    push_name(out, names.guards.as_slice(), guard)?;
    push_text(out, "\n")?;
    for (cell, kind) in kinds.iter().enumerate() {
        push_cell(out, names, table, guard, cell as u32, *kind)?;
    }
    Ok(())
}

/// The text of an accepted program: a line for each guard with its number and name, behind it for
/// each cell whether its steps keep the guard, up before down, and `end`.
#[tactic(auto, unfolding(crate::specs::Texts::accord_text))]
pub fn accord_text(alloc: Global, accepted: &Accepted) -> Result<Vec<u8>, AllocError>
    ensures { IfOk result (λ bytes. bytes.items ≡ text.accord_text accepted.now) }
{
    let program = accepted.program();
    let kinds = program.shape.kinds();
    let mut out = Vec::new(alloc);
    push_text(&mut out, "accepted\n")?;
    for guard in 0..program.guards.len() as u32 {
        push_guard(&mut out, &program.names, accepted.accords(), kinds, guard)?;
    }
    push_text(&mut out, "end\n")?;
    Ok(out)
}

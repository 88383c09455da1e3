ghost use Rattle.std.specs.Prelude.{◌≡◌, ◌*◌, ◌≤◌, ◌++◌, length, replicate, OnOk};
ghost use Rattle.std.specs.Fmt.{signed_decimal};
ghost use Rattle.carol_program.specs.Limits.{most_cells};
ghost use Rattle.carol_event.specs.Texts.{values_text};
ghost use Rattle.carol_picture.specs.Columns.{
  blank_row,
  name_row,
  padded,
  row_width,
  store_row,
  width,
};

use carol_program::Name;
use carol_store::Store;
use carol_text::push_integer;
use std::alloc::{AllocError, Global};

/// Appends the values, each behind a space.
pub fn push_values(out: &mut Vec<u8>, values: &[i64]) -> Result<(), AllocError>
    ensures { OnOk result (out.new.items ≡ out.old.items ++ values_text values.now) }
{
    for value in values {
        out.extend_from_slice(b" ")?;
        push_integer(out, *value)?;
    }
    Ok(())
}

// How many characters the column of a cell has.
fn width(name: &[u8]) -> usize
    ensures value { result ≡ width name.now }
    ensures near { result ≤ 24 }
{
    (name.len() + 2).max(8).min(24)
}

// Appends so many spaces.
fn push_spaces(out: &mut Vec<u8>, count: usize) -> Result<(), AllocError>
    ensures { OnOk result (out.new.items ≡ out.old.items ++ replicate count 32) }
{
    for _ in 0..count {
        out.push(b' ')?;
    }
    Ok(())
}

// Appends the text, behind as many spaces as the column of the cell with this name has more.
#[tactic(auto, unfolding(crate::specs::Columns::padded))]
fn push_padded(out: &mut Vec<u8>, name: &[u8], text: &[u8]) -> Result<(), AllocError>
    ensures { OnOk result (out.new.items ≡ out.old.items ++ padded name.now text.now) }
{
    push_spaces(out, width(name).saturating_sub(text.len()))?;
    out.extend_from_slice(text)
}

/// How many characters the columns of the cells have together.
pub fn row_width(cells: &[Name]) -> usize
    requires { length cells.now ≤ most_cells }
    ensures value { result ≡ row_width cells.now }
    ensures near { result ≤ 24 * most_cells }
{
    let mut sum = 0;
    for name in cells {
        sum += width(name.bytes());
    }
    sum
}

/// Appends the names of the cells, each in its column.
pub fn push_name_row(out: &mut Vec<u8>, cells: &[Name]) -> Result<(), AllocError>
    ensures { OnOk result (out.new.items ≡ out.old.items ++ name_row cells.now) }
{
    for name in cells {
        push_padded(out, name.bytes(), name.bytes())?;
    }
    Ok(())
}

/// Appends columns in which nothing stands.
pub fn push_blank_row(out: &mut Vec<u8>, cells: &[Name]) -> Result<(), AllocError>
    ensures { OnOk result (out.new.items ≡ out.old.items ++ blank_row cells.now) }
{
    for name in cells {
        push_padded(out, name.bytes(), b"")?;
    }
    Ok(())
}

/// Appends the values of a store, each in its cell's column.
pub fn push_store_row(
    alloc: Global,
    out: &mut Vec<u8>,
    cells: &[Name],
    store: &Store,
) -> Result<(), AllocError>
    ensures { OnOk result (out.new.items ≡ out.old.items ++ store_row cells.now store.now) }
{
    let mut left = store.values();
    for name in cells {
        match left.split_first() {
            Some((value, more)) => {
                push_value(alloc, out, name.bytes(), *value)?;
                left = more;
            }
            None => return Ok(()),
        }
    }
    Ok(())
}

// Appends a value in the column of the cell with this name.
fn push_value(alloc: Global, out: &mut Vec<u8>, name: &[u8], value: i64) -> Result<(), AllocError>
    ensures { OnOk result (out.new.items ≡ out.old.items
        ++ padded name.now (signed_decimal value)) }
{
    let mut text = Vec::new(alloc);
    push_integer(&mut text, value)?;
    push_padded(out, name, &text)
}

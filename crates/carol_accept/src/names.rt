ghost use Rattle.std.specs.Prelude.{◌≡◌, ◌++◌, OnOk};
ghost use Rattle.carol_program.specs.Called.{params_of, queries_of};
ghost use Rattle.carol_accept.specs.Named.{
  guard_variable_text,
  name_at,
  op_text,
  op_variable_text,
  place_text,
  statement_text,
  variable_text,
  way_word,
};

use carol_formula::Variable;
use carol_obligation::FIRST_ROUND;
use carol_program::{
    FIRST_PARAMETER, FIRST_QUERIED, FIRST_THERE, Name, Names, Place, STORE_VARIABLES,
};
use carol_text::push_integer;
use std::alloc::AllocError;

/// Appends a fixed text.
pub fn push_text(out: &mut Vec<u8>, text: &str) -> Result<(), AllocError>
    ensures { OnOk result (out.new.items ≡ out.old.items ++ text.now) }
{
    out.extend_from_slice(text.as_bytes())
}

/// Appends the name with this number, if there is one.
pub fn push_name(out: &mut Vec<u8>, names: &[Name], number: u32) -> Result<(), AllocError>
    ensures { OnOk result (out.new.items ≡ out.old.items ++ name_at names.now number) }
{
    match names.get(number as usize) {
        Some(name) => out.extend_from_slice(name.bytes()),
        None => Ok(()),
    }
}

// The names of the operation's parameters.
fn params(names: &Names, op: u32) -> &[Name]
    ensures { result.now ≡ params_of names.now op }
{
    match names.ops.as_slice().get(op as usize) {
        Some(op) => op.params.as_slice(),
        None => &[],
    }
}

// The names of the operation's queries, by slot.
fn queries(names: &Names, op: u32) -> &[Name]
    ensures { result.now ≡ queries_of names.now op }
{
    match names.ops.as_slice().get(op as usize) {
        Some(op) => op.queries.as_slice(),
        None => &[],
    }
}

// Appends the name of the operation, if there is one.
fn push_op(out: &mut Vec<u8>, names: &Names, op: u32) -> Result<(), AllocError>
    ensures { OnOk result (out.new.items ≡ out.old.items ++ op_text names.now op) }
{
    match names.ops.as_slice().get(op as usize) {
        Some(op) => out.extend_from_slice(op.own.bytes()),
        None => Ok(()),
    }
}

// Appends the name of an operation and the number of its statement.
fn push_statement(out: &mut Vec<u8>, names: &Names, op: u32, number: u32) -> Result<(), AllocError>
    ensures { OnOk result (out.new.items ≡ out.old.items ++ statement_text names.now op number) }
{
    push_op(out, names, op)?;
    push_text(out, " ")?;
    push_integer(out, number)
}

/// Appends the word of a cell's way.
pub(crate) fn push_way_word(out: &mut Vec<u8>, up: bool) -> Result<(), AllocError>
    ensures { OnOk result (out.new.items ≡ out.old.items ++ way_word up) }
{
    push_text(out, if up { " up" } else { " down" })
}

/// Appends what the place is called.
#[tactic(auto, unfolding(crate::specs::Named::place_text))]
pub fn push_place(out: &mut Vec<u8>, names: &Names, place: Place) -> Result<(), AllocError>
    ensures { OnOk result (out.new.items ≡ out.old.items ++ place_text names.now place) }
{
    match place {
        Place::Initial => push_text(out, "initial"),
        Place::Reflexive { guard } => {
            push_text(out, "guard ")?;
            push_name(out, names.guards.as_slice(), guard)?;
            push_text(out, " reflexive")
        }
        Place::Accord { guard, cell, up } => {
            push_text(out, "accord ")?;
            push_name(out, names.guards.as_slice(), guard)?;
            push_text(out, " ")?;
            push_name(out, names.cells.as_slice(), cell)?;
            push_way_word(out, up)
        }
        Place::Amount { op, number, atom } => {
            push_statement(out, names, op, number)?;
            push_text(out, " amount ")?;
            push_integer(out, atom)
        }
        Place::Invariant { op, number } => {
            push_statement(out, names, op, number)?;
            push_text(out, " invariant")
        }
        Place::Outcome { op, number } => {
            push_statement(out, names, op, number)?;
            push_text(out, " result")
        }
    }
}

// Appends the name of a variable of a guard.
fn push_guard_variable(out: &mut Vec<u8>, names: &Names, v: u32) -> Result<(), AllocError>
    ensures { OnOk result (out.new.items ≡ out.old.items ++ guard_variable_text names.now v) }
{
    let cells = names.cells.as_slice();
    if v < FIRST_THERE {
        push_text(out, "here ")?;
        return push_name(out, cells, v);
    }
    push_text(out, "there ")?;
    push_name(out, cells, v - FIRST_THERE)
}

// Appends the name of a variable of an operation.
fn push_op_variable(out: &mut Vec<u8>, names: &Names, op: u32, v: u32) -> Result<(), AllocError>
    ensures { OnOk result (out.new.items ≡ out.old.items ++ op_variable_text names.now op v) }
{
    let cells = names.cells.as_slice();
    if v < FIRST_PARAMETER {
        push_text(out, "after ")?;
        return push_name(out, cells, v);
    }
    if v < FIRST_QUERIED {
        return push_name(out, params(names, op), v - FIRST_PARAMETER);
    }
    if v < FIRST_ROUND {
        push_name(
            out,
            queries(names, op),
            (v - FIRST_QUERIED) / STORE_VARIABLES,
        )?;
        push_text(out, ".")?;
        return push_name(out, cells, (v - FIRST_QUERIED) % STORE_VARIABLES);
    }
    push_text(out, "round ")?;
    push_integer(out, (v - FIRST_ROUND) / STORE_VARIABLES + 1)?;
    push_text(out, " ")?;
    push_name(out, cells, (v - FIRST_ROUND) % STORE_VARIABLES)
}

/// Appends what the variable is called at the place.
pub fn push_variable(
    out: &mut Vec<u8>,
    names: &Names,
    place: Place,
    v: Variable,
) -> Result<(), AllocError>
    ensures { OnOk result (out.new.items ≡ out.old.items ++ variable_text names.now place v) }
{
    match place {
        Place::Initial => push_name(out, names.cells.as_slice(), v.0),
        Place::Reflexive { .. } | Place::Accord { .. } => push_guard_variable(out, names, v.0),
        Place::Amount { op, .. } | Place::Invariant { op, .. } | Place::Outcome { op, .. } => {
            push_op_variable(out, names, op, v.0)
        }
    }
}

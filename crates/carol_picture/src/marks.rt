ghost use Rattle.std.specs.Prelude.{◌≡◌, ◌+◌, ◌≤◌, [], ◌++◌, length, IfOk, OnOk};
ghost use Rattle.carol_program.specs.Limits.{most_sessions};
ghost use Rattle.carol_store.specs.Stores.{IsStore};
ghost use Rattle.carol_program.specs.Rules.{rules_in};
ghost use Rattle.carol_picture.specs.Changes.{Fit, FitsAll, changed};
ghost use Rattle.carol_picture.specs.Marks.{mark, marks, row_cells, row_text};
ghost use Rattle.carol_picture.specs.Places.{most_drawn};
ghost use Rattle.carol_picture.specs.Texts.{numbered};

use crate::columns::{push_blank_row, push_store_row};
use crate::elements::push_text;
use crate::labels::push_label;
use crate::places::{lane_x, row_y};
use crate::shapes::push_shape;
use crate::texts::push_numbered;
use carol_event::Event;
use carol_program::{Program, Scene};
use carol_store::{Effect, Shape, Store};
use std::alloc::{AllocError, Global};

/// Appends the marks of the events, in order, one row for each.
pub fn push_marks(
    alloc: Global,
    out: &mut Vec<u8>,
    program: &Program,
    scene: &Scene,
    events: &[Event],
) -> Result<(), AllocError>
    requires few { length events.now ≤ most_drawn }
    requires plans { length scene.now.sessions ≤ most_sessions }
    requires initial { IsStore program.now.shape program.now.initial }
    requires fit { FitsAll program.now.shape program.now.initial events.now }
    ensures { OnOk result (out.new.items ≡ out.old.items
        ++ marks (rules_in program.now) program.now.names scene.now 0
        program.now.initial events.now) }
{
    let mut store = program.initial.copy();
    let mut left = events;
    let mut row = 0;
    while let Some((event, later)) = left.split_first() {
        change(alloc, &program.shape, &mut store, event);
        push_mark(alloc, out, program, scene, row, event, later, &store)?;
        left = later;
        row += 1;
    }
    Ok(())
}

// Makes of the global store what the event makes of it.
fn change(alloc: Global, shape: &Shape, store: &mut Store, event: &Event)
    requires store { IsStore shape.now store.old }
    requires fits { Fit shape.now store.old event.now }
    ensures changed { store.new ≡ changed shape.now event.now store.old }
    ensures store { IsStore shape.now store.new }
{
    if let Event::Issue { effect, .. } = event {
        store.apply(shape, &Effect::new(alloc, shape, effect.as_slice()));
    }
}

// Appends the mark of the event of this row, behind which these come, with the global store after
// it.
#[tactic(auto, unfolding(crate::specs::Marks::mark))]
fn push_mark(
    alloc: Global,
    out: &mut Vec<u8>,
    program: &Program,
    scene: &Scene,
    row: usize,
    event: &Event,
    later: &[Event],
    store: &Store,
) -> Result<(), AllocError>
    requires rows { row + length later.now ≤ most_drawn }
    requires plans { length scene.now.sessions ≤ most_sessions }
    ensures { OnOk result (out.new.items ≡ out.old.items
        ++ mark (rules_in program.now) program.now.names scene.now
        row event.now later.now store.now) }
{
    let y = row_y(row) + 4;
    let plans = scene.sessions.as_slice();
    let number = number_text(alloc, row)?;
    let text = row_text(alloc, program, event, store)?;
    push_text(out, b"number", 46, y, &number)?;
    push_shape(out, plans, row, event, later)?;
    push_text(out, b"row", lane_x(plans, scene.replicas), y, &text)
}

// The number of the event of this row, from 1.
fn number_text(alloc: Global, row: usize) -> Result<Vec<u8>, AllocError>
    requires { row ≤ most_drawn }
    ensures { IfOk result (λ text. text.items ≡ numbered [] (row + 1)) }
{
    let mut text = Vec::new(alloc);
    push_numbered(&mut text, b"", row as u64 + 1)?;
    Ok(text)
}

// What stands in the row of an event, with the global store after it.
#[tactic(auto, unfolding(crate::specs::Marks::row_text))]
fn row_text(
    alloc: Global,
    program: &Program,
    event: &Event,
    store: &Store,
) -> Result<Vec<u8>, AllocError>
    ensures { IfOk result (λ text. text.items
        ≡ row_text (rules_in program.now) program.now.names event.now store.now) }
{
    let mut text = Vec::new(alloc);
    push_cells(alloc, &mut text, program, event, store)?;
    text.extend_from_slice(b"  ")?;
    push_label(&mut text, program, event)?;
    Ok(text)
}

// Appends the values of the global store where the event changes it, and columns in which nothing
// stands where it doesn't.
fn push_cells(
    alloc: Global,
    out: &mut Vec<u8>,
    program: &Program,
    event: &Event,
    store: &Store,
) -> Result<(), AllocError>
    ensures { OnOk result (out.new.items ≡ out.old.items
        ++ row_cells program.now.names event.now store.now) }
{
    let cells = program.names.cells.as_slice();
    match event {
        Event::Issue { .. } => push_store_row(alloc, out, cells, store),
        Event::Grant { .. }
        | Event::Query { .. }
        | Event::Release { .. }
        | Event::Return { .. }
        | Event::Refuse { .. }
        | Event::Deliver { .. }
        | Event::Cut { .. }
        | Event::Join { .. } => push_blank_row(out, cells),
    }
}

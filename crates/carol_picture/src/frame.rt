ghost use Rattle.std.specs.Prelude.{◌≡◌, ◌≤◌, ◌++◌, codes, length, IfOk, OnOk};
ghost use Rattle.carol_program.specs.Limits.{most_cells, most_replicas, most_sessions};
ghost use Rattle.carol_program.specs.Rules.{rules_in};
ghost use Rattle.carol_picture.specs.Frame.{
  column,
  columns,
  head,
  lane,
  lanes,
  measures,
  size,
  start,
  text_width,
  widest,
};
ghost use Rattle.carol_picture.specs.Columns.{name_row, store_row};
ghost use Rattle.carol_picture.specs.Elements.{text_element};
ghost use Rattle.carol_picture.specs.Places.{most_drawn};
ghost use Rattle.carol_picture.specs.Texts.{numbered};

use crate::columns::{push_name_row, push_store_row, row_width};
use crate::elements::{push_line, push_text};
use crate::labels::push_label;
use crate::places::{lane_width, lane_x, replica_x, row_y, session_x};
use crate::style::push_style;
use crate::texts::{push_numbered, push_word};
use carol_event::Event;
use carol_program::{Program, Scene, SessionPlan};
use std::alloc::{AllocError, Global};

/// Appends what stands before the marks: the size of the image, how it looks, the lanes with their
/// columns, and the names and the initial values of the cells.
#[tactic(auto, unfolding(crate::specs::Frame::head))]
pub fn push_head(
    alloc: Global,
    out: &mut Vec<u8>,
    program: &Program,
    scene: &Scene,
    events: &[Event],
) -> Result<(), AllocError>
    requires few { length events.now ≤ most_drawn }
    requires cells { length program.now.names.cells ≤ most_cells }
    requires plans { length scene.now.sessions ≤ most_sessions }
    requires replicas { scene.now.replicas ≤ most_replicas }
    ensures { OnOk result (out.new.items ≡ out.old.items
        ++ head (rules_in program.now) program.now.names scene.now events.now) }
{
    let plans = scene.sessions.as_slice();
    let bottom = row_y(events.len());
    let text = lane_x(plans, scene.replicas);
    let longest = widest(alloc, program, events)?;
    push_size(out, text + text_width(program, longest), bottom + 8)?;
    push_style(out)?;
    push_lanes(alloc, out, plans, scene.replicas, bottom)?;
    push_columns(alloc, out, plans, bottom)?;
    push_start(alloc, out, program, text)
}

// How wide the texts of the rows are together, of which the longest has so many characters behind
// the store.
fn text_width(program: &Program, longest: usize) -> u64
    requires cells { length program.now.names.cells ≤ most_cells }
    requires longest { longest ≤ 1_000 }
    ensures value { result ≡ text_width program.now.names longest }
    ensures near { result ≤ 100_000 }
{
    8 * (row_width(program.names.cells.as_slice()) + longest + 3) as u64
}

// How many characters the longest label has, from 12 to 1,000.
fn widest(alloc: Global, program: &Program, events: &[Event]) -> Result<usize, AllocError>
    ensures value { IfOk result (λ longest. longest
        ≡ widest (rules_in program.now) program.now.names events.now) }
    ensures near { IfOk result (λ longest. longest ≤ 1_000) }
{
    let mut longest = 12;
    for event in events {
        let mut label = Vec::new(alloc);
        push_label(&mut label, program, event)?;
        longest = longest.max(label.len().min(1_000));
    }
    Ok(longest)
}

// Appends the beginning of an image of this size.
#[tactic(auto, unfolding(crate::specs::Frame::size))]
fn push_size(out: &mut Vec<u8>, width: u64, height: u64) -> Result<(), AllocError>
    ensures { OnOk result (out.new.items ≡ out.old.items ++ size width height) }
{
    push_word(
        out,
        b"<svg xmlns='http://www.w3.org/2000/svg' xml:space='preserve'",
    )?;
    push_measures(out, width, height)
}

// Appends how large an image is, and the end of the tag with which it begins.
#[tactic(auto, unfolding(crate::specs::Frame::measures))]
fn push_measures(out: &mut Vec<u8>, width: u64, height: u64) -> Result<(), AllocError>
    ensures { OnOk result (out.new.items ≡ out.old.items ++ measures width height) }
{
    push_numbered(out, b" width='", width)?;
    push_numbered(out, b"' height='", height)?;
    push_numbered(out, b"' viewBox='0 0 ", width)?;
    push_numbered(out, b" ", height)?;
    out.extend_from_slice(b"'>\n")
}

// Appends the lanes of so many replicas, down to this height.
fn push_lanes(
    alloc: Global,
    out: &mut Vec<u8>,
    plans: &[SessionPlan],
    replicas: u32,
    bottom: u64,
) -> Result<(), AllocError>
    requires plans { length plans.now ≤ most_sessions }
    ensures { OnOk result (out.new.items ≡ out.old.items
        ++ lanes plans.now replicas bottom) }
{
    for replica in 0..replicas {
        push_lane(alloc, out, plans, replica, bottom)?;
    }
    Ok(())
}

// Appends the lane of a replica: its ground, its name, and the replica itself.
#[tactic(auto, unfolding(crate::specs::Frame::lane))]
fn push_lane(
    alloc: Global,
    out: &mut Vec<u8>,
    plans: &[SessionPlan],
    replica: u32,
    bottom: u64,
) -> Result<(), AllocError>
    requires plans { length plans.now ≤ most_sessions }
    ensures { OnOk result (out.new.items ≡ out.old.items ++ lane plans.now bottom replica) }
{
    let left = lane_x(plans, replica);
    let right = left + lane_width(plans, replica);
    let middle = replica_x(plans, replica);
    push_line(
        out,
        b"lane",
        &[left, 52, right, 52, right, bottom, left, bottom],
    )?;
    push_heading(alloc, out, b"head", left, 24, b"replica ", replica)?;
    push_line(out, b"replica", &[middle, 52, middle, bottom])
}

// Appends a word with a number at a point.
fn push_heading(
    alloc: Global,
    out: &mut Vec<u8>,
    class: &[u8],
    x: u64,
    y: u64,
    word: &[u8],
    number: u32,
) -> Result<(), AllocError>
    ensures { OnOk result (out.new.items ≡ out.old.items
        ++ text_element class.now x y (numbered word.now number)) }
{
    let mut text = Vec::new(alloc);
    push_numbered(&mut text, word, u64::from(number))?;
    push_text(out, class, x, y, &text)
}

// Appends the columns of the sessions, down to this height.
fn push_columns(
    alloc: Global,
    out: &mut Vec<u8>,
    plans: &[SessionPlan],
    bottom: u64,
) -> Result<(), AllocError>
    requires plans { length plans.now ≤ most_sessions }
    ensures { OnOk result (out.new.items ≡ out.old.items ++ columns plans.now bottom) }
{
    for session in 0..plans.len() as u32 {
        push_column(alloc, out, plans, session, bottom)?;
    }
    Ok(())
}

// Appends the column of a session: its name, and a line.
#[tactic(auto, unfolding(crate::specs::Frame::column))]
fn push_column(
    alloc: Global,
    out: &mut Vec<u8>,
    plans: &[SessionPlan],
    session: u32,
    bottom: u64,
) -> Result<(), AllocError>
    requires plans { length plans.now ≤ most_sessions }
    ensures { OnOk result (out.new.items ≡ out.old.items ++ column plans.now bottom session) }
{
    let x = session_x(plans, session);
    push_heading(alloc, out, b"place", x, 46, b"s", session)?;
    push_line(out, b"session", &[x, 52, x, bottom])
}

// Appends the names of the cells, and their initial values, behind the lanes.
#[tactic(auto, unfolding(crate::specs::Frame::start))]
fn push_start(alloc: Global, out: &mut Vec<u8>, program: &Program, x: u64) -> Result<(), AllocError>
    ensures { OnOk result (out.new.items ≡ out.old.items
        ++ start (rules_in program.now) program.now.names x) }
{
    let names = name_text(alloc, program)?;
    let values = initial_text(alloc, program)?;
    push_text(out, b"head", x, 46, &names)?;
    push_text(out, b"row", x, 68, &values)
}

// The names of the cells, each in its column.
fn name_text(alloc: Global, program: &Program) -> Result<Vec<u8>, AllocError>
    ensures { IfOk result (λ text. text.items ≡ name_row program.now.names.cells) }
{
    let mut text = Vec::new(alloc);
    push_name_row(&mut text, program.names.cells.as_slice())?;
    Ok(text)
}

// The initial values, each in its cell's column, and what they are.
fn initial_text(alloc: Global, program: &Program) -> Result<Vec<u8>, AllocError>
    ensures { IfOk result (λ text. text.items
        ≡ store_row program.now.names.cells program.now.initial ++ codes "  at the start") }
{
    let mut text = Vec::new(alloc);
    push_store_row(
        alloc,
        &mut text,
        program.names.cells.as_slice(),
        &program.initial,
    )?;
    text.extend_from_slice(b"  at the start")?;
    Ok(text)
}

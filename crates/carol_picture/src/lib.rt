//! The picture of a history, as the text of an SVG image: a lane for each replica with a column for
//! each of its sessions, and a row for each event, the first one on top. What is drawn stands in
//! `specs/`: an image is made of lines and of texts alone, each event has its mark, and the marks
//! stand in the order of the events.
//!
//! Layer: program. Called by nobody yet.
#![tactic(auto)]

mod columns;
mod drawing;
mod effects;
mod elements;
mod frame;
mod labels;
mod marks;
mod places;
mod shapes;
mod style;
mod texts;

pub use drawing::{MOST_DRAWN, picture};

//! The scene that a declaration stands for, over a program whose names are resolved.
//!
//! `specs/` says apart from each other what a declaration stands for, which is total, and what is
//! wrong with it: a list of faults, one small definition for each rule, in the order in which the
//! rules are asked. The first fault is the answer.
//!
//! Layer: names. `scene` is called by the program.
#![tactic(auto)]

mod arguments;
mod calls;
mod error;
mod limits;
mod scenes;
mod sessions;

pub use error::{SceneError, SceneLimit};
pub use scenes::scene;

//! Names and what they stand for outside of operations: the first of a program's faults, names that
//! are declared, the cells with their kinds and starts, what paths of cells name, and terms and
//! formulas in normal form over any way to look values up: in the invariant, in a guard, at a place
//! of an operation.
//!
//! Layer: names. Called by `carol_resolve` alone.
#![tactic(auto)]

mod arithmetic;
mod cells;
mod declared;
mod finder;
mod formulas;
mod ground;
mod guard;
mod invariant;
mod kinds;
mod names;
mod starts;
mod store_values;
mod terms;

pub use arithmetic::plus;
pub use cells::{Cells, cell_count, note_cells, place_of};
pub use declared::{Declares, note_too_many, note_twice};
pub use finder::Finder;
pub use formulas::formula;
pub use ground::Ground;
pub use guard::InGuard;
pub use invariant::InInvariant;
pub use kinds::shape;
pub use names::titles;
pub use starts::initial;
pub use store_values::{cell_value, note_path, set_value, unknown, wrong_kind};
pub use terms::{is_small, note_width, term, values};

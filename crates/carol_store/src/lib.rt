//! Stores of counters, peaks and flags, the effects that change them, and what an effect makes of a
//! store.
//!
//! What goes by the kind of a cell stands in `specs/Kinds`, and its laws in `proofs/KindLaws`: a
//! further kind is added there. That the order of effects makes no difference, and what entries
//! chosen from a list come to, is shown in `proofs/Actions` and `proofs/Chosen` once for any
//! changes that commute.
//!
//! Layer: machine. Called by all that holds or changes stores.
#![tactic(auto)]

mod direction;
mod effect;
mod laws;
mod shape;
mod short_list;
mod store;

pub use direction::{Direction, DirectionList};
pub use effect::{Atom, AtomList, Effect, MOST_AMOUNT, MOST_TARGET};
pub use laws::store_laws;
pub use shape::{CellKind, Shape};
pub use short_list::{MOST_CELLS, ShortList};
pub use store::{Store, as_words};

//! The rows of a search: forms with bounds, and a simplex tableau over whole numbers that finds
//! numbers which keep all bounds, or bounds that no numbers keep. It promises only that it stays in
//! range and returns.
//!
//! Layer: solver. Called by `carol_search`.
#![tactic(auto)]

mod form;
mod list;
mod number;
mod simplex;
mod stop;
mod tableau;

pub use form::{Bound, Form, Forms, Kind, Product, Reason, Signed, divided, divisor_of};
pub use list::{add, at, cite, cite_all, get, get_mut, put};
pub use number::{Fraction, floor, fused, negated, product, remainder, sum};
pub use stop::{Fuel, Stop};
pub use tableau::{Cited, Mark, Tableau, TableauRow};

//! Linear terms, comparisons of them with zero, formulas made of these, their truth, and renaming:
//! a term or a formula with a term in place of each variable, all at once.
//!
//! Layer: solver. Called by all that makes, decides or shows formulas.
#![tactic(auto)]

mod boxed;
mod formula;
mod number;
mod renaming;
mod term;
mod variable;

pub use boxed::Boxed;
pub use formula::Formula;
pub use number::{
    NARROW_LIMIT, ROW_LIMIT, TERM_LIMIT, VALUE_LIMIT, is_below, product_within, sum_within,
};
pub use renaming::{Naming, plus, renamed, renamed_term};
pub use term::{Row, Term, TermError, is_same};
pub use variable::{Lookup, Valuation, Variable};

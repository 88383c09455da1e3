//! Tests of formulas and of refutations: tables by hand, and trees of any shape and depth, which no
//! program of a user makes.
//!
//! Layer: solver. It holds nothing but tests.
#![tactic(auto)]

#[cfg(test)]
mod formulas;
#[cfg(test)]
mod leaves;
#[cfg(test)]
mod renamings;
#[cfg(test)]
mod trees;

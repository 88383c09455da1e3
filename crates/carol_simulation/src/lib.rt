//! Why guards suffice: what an accepted program upholds in every history that it can make, and how
//! many events a history can have.
//!
//! The proof is one induction over the history. Together with what is upheld it keeps that each
//! live query has a live grant, and that the marks of each attempt are a proper reading whatever
//! sound store the open round has in which the live queries stand.
//!
//! Of the bound: an attempt has at most as many acts as its marks cost, two for a query, which may
//! need a grant, and one for any other. A refusal costs what the mark would that it stands for.
//! Each delivery gives a replica an entry that it lacked, so there are at most as many for an entry
//! as other replicas.
//!
//! Layer: machine. Cited by the house and by what runs it.
#![tactic(auto)]

mod bound;
mod laws;

pub use bound::bound_laws;
pub use laws::simulation;

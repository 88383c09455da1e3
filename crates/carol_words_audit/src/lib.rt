//! The word `audit`: what it is to answer to the bytes of its input, the call that answers so, and
//! what holds of its answers.
//!
//! Layer: program. Called by `carol_tool` and `carol_complete`.
#![tactic(auto)]

mod audit;
mod laws;

pub use audit::audit_bytes;
pub use laws::audit_laws;

//! The edge of the program: where bytes come from and where they go, with faults that are counted.
//!
//! Layer: program. Called by `carol_worker` and the program.
#![tactic(auto)]

mod ends;
mod memory;
mod standard;
mod steady;
mod whole;

pub use ends::{Failed, Gate, OpenGate, Sink, Source};
pub use memory::{MemorySink, MemorySource};
pub use standard::{StdinSource, StdoutSink};
pub use steady::{SteadySink, SteadySource};
pub use whole::{ReadError, WriteError, read_all, write_all};

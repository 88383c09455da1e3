//! A disk that may lose what was written since its last sync, and a model of one in memory.
//!
//! Layer: disk. The vault keeps a history on it.
#![tactic(auto)]

mod call;
mod disk;
mod gate;
mod memory;
mod overlay;
mod through;
mod whole;

pub use call::{Call, Piece};
pub use carol_outer::Failed;
pub use disk::Disk;
pub use gate::{append, settle};
pub use memory::MemoryDisk;
pub use through::{cut_through, write_through};
pub use whole::{WholeError, read_whole};

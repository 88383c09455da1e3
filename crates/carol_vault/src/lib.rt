//! A history on a disk: each event is kept before it is acknowledged, and whatever moment a crash
//! comes at, what is read back is a front of the history with every acknowledged event.
//!
//! Layer: disk. Called by the program, and by the one that keeps a history in a file.
#![tactic(auto)]

mod error;
mod found;
mod keeping;
mod laws;
mod moves;
mod open;
mod vault;

pub use carol_disk::{Disk, Failed, MemoryDisk};
pub use error::{OpenCause, OpenFailed, VaultError};
pub use found::{Found, find};
pub use laws::vault_laws;
pub use vault::Vault;

use thiserror::Error;

/// Why an event was not kept.
#[derive(Clone, Copy, Debug, PartialEq, Eq, Error)]
pub enum VaultError {
    /// The history has 131,072 events.
    #[error("the history is full")]
    Full,
    /// A call of the disk failed. The event stands in the history, and isn't acknowledged.
    #[error("the disk failed")]
    Fault,
    /// An earlier call answered `Fault`.
    #[error("the vault is closed")]
    Closed,
    /// There was no memory.
    #[error("no memory")]
    NoMemory,
}

/// Why a vault was not opened.
#[derive(Clone, Copy, Debug, PartialEq, Eq, Error)]
pub enum OpenCause {
    /// A call of the disk failed.
    #[error("the disk failed")]
    Fault,
    /// Behind the whole records, which end at this place, the file ends or an open gate stands.
    #[error("damaged at byte {0}")]
    Damaged(u64),
    /// The event with this number, from 1, is the first that may not come, or is one too many.
    #[error("illegal event {0}")]
    Illegal(u32),
    /// There was no memory.
    #[error("no memory")]
    NoMemory,
}

/// A disk on which no vault was opened, with the cause.
#[derive(Drop)]
pub struct OpenFailed<D> {
    /// The disk, as the failed call left it.
    pub disk: D,
    /// Why.
    pub cause: OpenCause,
}

use thiserror::Error;

/// Why a line gives no event.
#[derive(Clone, Copy, Debug, PartialEq, Eq, Error)]
pub enum LineError {
    /// The line is no event's text.
    #[error("no event at column {column}")]
    Bad {
        /// The column, from 1, of the first byte with which no event's text goes on; after the last
        /// byte, where the line is cut.
        column: u32,
    },
    /// There was no memory.
    #[error("no memory")]
    NoMemory,
}

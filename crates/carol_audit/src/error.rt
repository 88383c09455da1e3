use thiserror::Error;

/// Why a tail gives no events.
#[derive(Clone, Copy, Debug, PartialEq, Eq, Error)]
pub enum TailError {
    /// A line is neither an event's text nor `results`.
    #[error("no event at {line}:{column}")]
    Bad {
        /// The number of the line in the whole input.
        line: u32,
        /// The column, from 1, of the first bad byte; behind the last byte, where the line is cut.
        column: u32,
    },
    /// There are more events than a history may have.
    #[error("too many events")]
    TooLarge,
    /// There was no memory.
    #[error("no memory")]
    NoMemory,
}

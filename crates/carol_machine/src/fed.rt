use carol_event::Cause;
use carol_store::Store;

/// What came of a session's wish.
#[derive(Drop)]
pub enum Fed {
    /// The guard was granted.
    Granted(u32),
    /// The query got the store.
    Queried(Store),
    /// The effect was issued.
    Issued,
    /// The grants were given back.
    Released,
    /// The command returned the value.
    Returned(i128),
    /// The attempt was refused.
    Refused(Cause),
}

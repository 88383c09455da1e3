/// What `advance` did.
#[derive(Clone, Copy, Debug, PartialEq, Eq)]
pub enum Moved {
    /// An event of this kind was entered: 0 for a grant, then in the order of `Event`'s variants.
    Entered(u8),
    /// All commands of the session were done, and nothing changed.
    Finished,
}

/// What `gossip` did.
#[derive(Clone, Copy, Debug, PartialEq, Eq)]
pub enum Gossip {
    /// The entry with this number was delivered.
    Delivered(u32),
    /// The one replica held nothing that the other lacked, and nothing changed.
    NothingNew,
    /// The replicas were cut off from each other, and nothing changed.
    CutOff,
}

/// What `admit` did.
#[derive(Clone, Copy, Debug, PartialEq, Eq)]
pub enum Admitted {
    /// The event was entered.
    Entered,
    /// The event may not come next, and nothing changed.
    Illegal,
}

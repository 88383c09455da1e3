use carol_store::{AtomList, Store};

/// Why a session's attempt ended without a value.
#[derive(Clone, Copy, Debug, PartialEq, Eq)]
pub enum Cause {
    /// A live grant of another session bars what is to be issued.
    Barred {
        /// That session's number.
        session: u32,
        /// The grant's guard.
        guard: u32,
    },
    /// The replica lacks an entry that the guard asks for, and no linked one holds it.
    Behind {
        /// The entry's number in the journal.
        entry: u32,
    },
}

/// One step of a history. An event that was read from a text may have any numbers.
#[derive(Drop)]
pub enum Event {
    /// A session is granted a guard.
    Grant {
        /// The session's number.
        session: u32,
        /// The guard's number.
        guard: u32,
    },
    /// A session takes its replica's store under a guard.
    Query {
        /// The session's number.
        session: u32,
        /// The guard's number.
        guard: u32,
        /// The store that it takes.
        store: Store,
    },
    /// A session issues an effect, which becomes an entry of the journal.
    Issue {
        /// The session's number.
        session: u32,
        /// The entry's number in the journal, from 0.
        entry: u32,
        /// The effect's atoms.
        effect: AtomList,
    },
    /// A session gives its grants back.
    Release {
        /// The session's number.
        session: u32,
    },
    /// A session's command ends with a value.
    Return {
        /// The session's number.
        session: u32,
        /// The value.
        value: i128,
    },
    /// A session's attempt ends without a value.
    Refuse {
        /// The session's number.
        session: u32,
        /// Why.
        cause: Cause,
    },
    /// A replica passes an entry on to another.
    Deliver {
        /// The replica that holds the entry.
        source: u32,
        /// The replica that gets it.
        target: u32,
        /// The entry's number.
        entry: u32,
    },
    /// Two replicas are cut off from each other.
    Cut {
        /// The one replica.
        a: u32,
        /// The other one.
        b: u32,
    },
    /// Two replicas are joined again.
    Join {
        /// The one replica.
        a: u32,
        /// The other one.
        b: u32,
    },
}

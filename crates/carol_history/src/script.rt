use sqlite_items::Items;

/// A statement of a script. Its numbers may name nothing.
#[derive(Clone, Copy, Debug, PartialEq, Eq)]
pub enum Statement {
    /// The session with this number goes on.
    Go(u64),
    /// One replica passes the lowest entry on that the other lacks.
    Gossip {
        /// The replica that passes the entry on.
        source: u64,
        /// The replica that gets it.
        target: u64,
    },
    /// Two replicas are cut off from each other.
    Cut {
        /// The one replica.
        a: u64,
        /// The other one.
        b: u64,
    },
    /// Two replicas are joined again.
    Join {
        /// The one replica.
        a: u64,
        /// The other one.
        b: u64,
    },
}

/// The statements of a script, in order.
pub type StatementList = Items<Statement>;

/// Why a statement of a script gives no event.
#[derive(Clone, Copy, Debug, PartialEq, Eq)]
pub enum ScriptCause {
    /// There is no session with the number.
    NoSuchSession,
    /// All commands of the session are done.
    Finished,
    /// One of the two replicas is not there, or both are the same.
    NoSuchPair,
    /// The two replicas are cut off from each other.
    CutOff,
    /// The one replica holds nothing that the other lacks.
    NothingNew,
}

/// The first statement of a script that gives no event.
#[derive(Clone, Copy, Debug, PartialEq, Eq)]
pub struct BadStatement {
    /// The statement's number, from 1.
    pub number: u64,
    /// Why it gives no event.
    pub cause: ScriptCause,
}

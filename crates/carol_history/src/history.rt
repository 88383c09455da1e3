/// How many events a history has at most.
pub const MOST_EVENTS: usize = 131_072;

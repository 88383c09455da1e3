/// How many guards a program has at most.
pub const MOST_GUARDS: usize = 16;

/// How many queries an operation has at most, and so how many stores it gets.
pub const MOST_QUERIES: usize = 8;

/// How many replicas a scene has at most.
pub const MOST_REPLICAS: usize = 8;

/// How many sessions a scene has at most.
pub const MOST_SESSIONS: usize = 64;

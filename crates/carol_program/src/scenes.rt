use sqlite_items::Items;

/// Arguments in the order of the parameters.
pub type ArgList = Items<i64>;

/// A call of an operation, by its number.
#[derive(Debug, Drop)]
pub struct Command {
    pub op: u32,
    pub args: ArgList,
}

/// Commands in the order in which they are run.
pub type CommandList = Items<Command>;

/// A session at a replica.
#[derive(Debug, Drop)]
pub struct SessionPlan {
    pub replica: u32,
    pub commands: CommandList,
}

/// Sessions by number, from 0.
pub type PlanList = Items<SessionPlan>;

/// What a program is run in: how many replicas, how often a command is tried, how many workers run
/// sessions and how many deliver, and the sessions.
#[derive(Debug, Drop)]
pub struct Scene {
    pub replicas: u32,
    pub tries: u32,
    pub workers: u32,
    pub gossipers: u32,
    pub sessions: PlanList,
}

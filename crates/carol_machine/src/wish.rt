use carol_store::Effect;

/// What a session goes on with.
#[derive(Drop)]
pub enum Wish {
    /// A grant of the guard, which its next query needs.
    Guard(u32),
    /// A store under the guard, whose grant is live.
    Query(u32),
    /// It issues the effect.
    Issue(Effect),
    /// It gives its grants back.
    Release,
    /// Its command ends with the value.
    Return(i128),
    /// Nothing: all its commands are done.
    Finished,
}

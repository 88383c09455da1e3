use carol_store::Effect;

/// What an operation does next.
#[derive(Drop)]
pub enum Action {
    /// It asks for a store under the guard.
    Query { guard: u32 },
    /// It issues the effect.
    Issue(Effect),
    /// It gives up its guards.
    Release,
    /// It ends with the value.
    Return(i128),
}

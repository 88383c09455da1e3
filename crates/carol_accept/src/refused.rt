use carol_decide::Why;
use carol_formula::Valuation;
use carol_program::{Place, Program};

/// Why a program isn't accepted. It is handed back, since it has the names of what is at fault;
/// what stands before that is proved.
#[derive(Drop)]
pub enum Refused {
    /// The invariant is false of the initial store.
    InitialFails(Program),
    /// The guard with this number is false where both stores have these values.
    NotReflexive(Program, u32, Valuation),
    /// The numbers are a breach at the place, which is one of an operation.
    Fails(Program, Place, Valuation),
    /// It stays undecided whether what is asked at the place is so.
    Undecided(Program, Place, Why),
    /// Memory ran out, and the program is gone.
    NoMemory,
}

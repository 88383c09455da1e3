/// A place where a program owes something: the invariant at the initial store, a guard at equal
/// stores, an entry of a guard's accord, and in an operation an amount (its atom counted from 1),
/// the invariant after an issue, or the result.
#[derive(Clone, Copy, Debug, PartialEq, Eq)]
pub enum Place {
    Initial,
    Reflexive { guard: u32 },
    Accord { guard: u32, cell: u32, up: bool },
    Amount { op: u32, number: u32, atom: u32 },
    Invariant { op: u32, number: u32 },
    Outcome { op: u32, number: u32 },
}

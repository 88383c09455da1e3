//! Elimination of variables from rows of whole numbers, as functions of the list of rows: stages,
//! the least combination of two rows, chosen values, and branches that are due.
//!
//! The definitions stand in `specs/`, and their laws in `proofs/`, which the crates above cite.
//! What stands here in code is the greatest common divisor.
ghost use Rattle.std.specs.Prelude.{◌≡◌, ◌<◌, ◌≤◌, max};
ghost use Rattle.std.specs.Int.{IsGcd};
ghost use Rattle.carol_elimination.specs.Tightened.{divisor};

/// The greatest common divisor of two numbers: the other one where one of them is 0.
pub fn divisor(a: u128, b: u128) -> u128
    ensures value { result ≡ divisor a b }
    ensures greatest { IsGcd a b result }
    ensures positive { 0 < a → 0 < result }
    ensures bounded { result ≤ max a b }
{
    let mut last = a;
    let mut rest = b;
    while rest != 0 {
        let more = last % rest;
        last = rest;
        rest = more;
    }
    last
}

//! The type check: whether every operation of a program is good. It decides the formula of each
//! place at which something is asked of an operation, up to the first that isn't proved.
//!
//! The formulas come from the walk over the program, and are decided in batches, so that memory
//! grows with the largest of them and not with their number. A batch with enough to do is shared
//! out among threads, and the answers of its pieces are looked at in order. Of the numbers of a
//! breach those are given that a reader would pick, which no clause says. `specs/` says what a
//! verdict means: `Formulas` of formulas alone, `Readings` of what the operations may do.
//!
//! Layer: checker. Called by `carol_accept`.
#![tactic(auto)]

mod aims;
mod batch;
mod decider;
mod direct;
mod judge;
mod rounds;
mod verdict;

ghost use Rattle.std.specs.Prelude.{[], ◌∷◌, IfOk, length};
ghost use Rattle.carol_program.specs.Rules.{op_rules, rules_in};
ghost use Rattle.carol_program.specs.WellFormed.{AreRules, IsOpOver};
ghost use Rattle.carol_reading.specs.Good.{IsGood};
ghost use Rattle.carol_typecheck.specs.Readings.{AreGood, IsFailure, IsVerdictFor, IsVerdictOver};

use crate::aims::Aims;
use crate::decider::Decider;
use crate::direct::Judging;
use carol_obligation::{walk, walk_all};
use carol_program::{Op, Program};
use std::alloc::{AllocError, Global};
use std::thread::Threads;
pub use verdict::Verdict;

/// Checks the operations of a program, which is well formed: whether each is good. The answer
/// names the first place that isn't proved. `Good` says that every operation is good, and `Fails`
/// never comes where each is. The formula of a place is decided in at most `MOST_LEAVES` turns,
/// and where the decision of its denial ends for a reason before it finds either, the answer is
/// `Undecided`. The only error is want of memory. None of this depends on how many threads there
/// are.
pub fn typecheck<R: Threads + Sync>(
    rt: &R,
    alloc: Global,
    program: &Program,
) -> Result<Verdict, AllocError>
    requires { AreRules (rules_in program.now) }
    ensures verdict { IfOk result (IsVerdictFor (rules_in program.now)) }
    ensures fails { IfOk result (λ v. IsFailure v → ¬ AreGood (rules_in program.now)) }
{
    let mut decider = Decider::new(rt, alloc, Aims::new(program));
    walk_all(alloc, program, &mut decider)?;
    decider.verdict(alloc)
}

/// Checks one operation as if it stood in the program with this number, by the same rules. It need
/// not be one of the program's own, but one over its cells and guards. It is checked by the caller
/// alone.
pub fn check_op(
    alloc: Global,
    program: &Program,
    op: &Op,
    number: u32,
) -> Result<Verdict, AllocError>
    requires rules { AreRules (rules_in program.now) }
    requires op { let p = rules_in program.now in
        IsOpOver p.shape (length p.guards) (op_rules op.now) }
    ensures verdict { IfOk result
        (IsVerdictOver (rules_in program.now) number (op_rules op.now ∷ [])) }
    ensures fails { IfOk result
        (λ v. IsFailure v → ¬ IsGood (rules_in program.now) (op_rules op.now)) }
{
    let mut judging = Judging::new(Aims::only(program, op));
    walk(alloc, program, op, number, &mut judging)?;
    Ok(judging.found)
}

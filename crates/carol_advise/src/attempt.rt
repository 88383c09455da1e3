ghost use Rattle.std.specs.Prelude.{[], ◌∷◌, length, IfErr, IfOk};
ghost use Rattle.carol_program.specs.Rules.{op_rules, rules_in};
ghost use Rattle.carol_program.specs.WellFormed.{AreRules, IsOpOver};
ghost use Rattle.carol_typecheck.specs.Readings.{IsFailure, IsVerdictOver};
ghost use Rattle.carol_advise.specs.Attempts.{IsStopped, IsTried};
ghost use Rattle.carol_advise.specs.Tried.{IsGoodUnder};
ghost use Rattle.carol_advise_guards.specs.Under.{Assigns};
ghost use Rattle.carol_advise_guards.specs.Under as under;

use crate::answer::{AdviseError, Rejected};
use carol_advise_guards::op_under;
use carol_program::{Op, Program};
use carol_typecheck::{Verdict, check_op};
use sqlite_items::Items;
use std::alloc::{AllocError, Global};

// The verdict on the operation with these guards in its queries, which has this number.
fn verdict_under(
    alloc: Global,
    program: &Program,
    op: &Op,
    number: u32,
    guards: &[u32],
) -> Result<Verdict, AllocError>
    requires rules { AreRules (rules_in program.now) }
    requires op { let p = rules_in program.now in
        IsOpOver p.shape (length p.guards) (op_rules op.now) }
    requires assigns { Assigns (length (rules_in program.now).guards) (op_rules op.now) guards.now }
    ensures verdict { IfOk result (IsVerdictOver (rules_in program.now) number
        (under.op_under guards.now (op_rules op.now) ∷ [])) }
    ensures fails { IfOk result (λ v. IsFailure v
        → ¬ IsGoodUnder (rules_in program.now) (op_rules op.now) guards.now) }
{
    let other = op_under(alloc, guards, op)?;
    check_op(alloc, program, &other, number)
}

/// Why the operation isn't good with these guards in its queries, unless it is.
pub(crate) fn attempt(
    alloc: Global,
    program: &Program,
    op: &Op,
    number: u32,
    guards: &[u32],
) -> Result<Option<Rejected>, AdviseError>
    requires rules { AreRules (rules_in program.now) }
    requires op { let p = rules_in program.now in
        IsOpOver p.shape (length p.guards) (op_rules op.now) }
    requires assigns { Assigns (length (rules_in program.now).guards) (op_rules op.now) guards.now }
    ensures tried { IfOk result
        (IsTried (rules_in program.now) number (op_rules op.now) guards.now) }
    ensures stopped { IfErr result
        (IsStopped (rules_in program.now) number (op_rules op.now) guards.now) }
{
    match verdict_under(alloc, program, op, number, guards)? {
        Verdict::Good => Ok(None),
        Verdict::Fails(place, at) => {
            let guards = Items::from_slice(alloc, guards)?;
            Ok(Some(Rejected { guards, place, at }))
        }
        Verdict::Undecided(place, why) => {
            let guards = Items::from_slice(alloc, guards)?;
            Err(AdviseError::Undecided { guards, place, why })
        }
    }
}

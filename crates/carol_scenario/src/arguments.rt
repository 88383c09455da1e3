ghost use Rattle.std.specs.Prelude.{◌≡◌, ◌≤◌, ◌&&◌, [], Some, IfOk, IfErr, map, length, nat_le, unsigned_abs};
ghost use Rattle.std.specs.List.{AllByRecursion};
ghost use Rattle.carol_formula.specs.Tree.{claim_of};
ghost use Rattle.carol_formula.specs.Claim.{ClaimFits, truth};
ghost use Rattle.carol_program.specs.Limits.{most_params, largest_literal};
ghost use Rattle.carol_program.specs.Rules.{op_rules};
ghost use Rattle.carol_program.specs.Variables.{number_of_args};
ghost use Rattle.carol_program.specs.WellFormed.{AreRefinements};
ghost use Rattle.carol_scenario.specs.Faults.{Refuses, arguments_faults, call_faults};

use crate::error::SceneError;
use carol_formula::Formula;
use carol_program::{Arguments, Op};
use carol_store::as_words;

// The largest argument, in absolute value.
const LARGEST_ARGUMENT: u64 = 1_000_000_000_000;

// The argument is small enough, and the refinement is true of all arguments.
fn is_right(refinement: &Formula, argument: i64, args: &[i64]) -> bool
    requires { ClaimFits (claim_of refinement.now) (number_of_args args.now) }
    ensures { result ≡ (nat_le (unsigned_abs argument) largest_literal
        && truth (claim_of refinement.now) (number_of_args args.now)) }
{
    argument.unsigned_abs() <= LARGEST_ARGUMENT && refinement.holds(&Arguments(args))
}

// Each argument is small enough, and makes the refinement of its parameter true.
fn check_arguments(
    session: u32,
    command: u32,
    refinements: &[Formula],
    args: &[i64],
) -> Result<(), SceneError>
    requires few { length refinements.now ≤ most_params }
    requires fit { AllByRecursion
        (λ c. ClaimFits c (number_of_args args.now)) (map claim_of refinements.now) }
    ensures ok { let at = number_of_args args.now
        in let claims = map claim_of refinements.now
        in IfOk result (λ _. arguments_faults session command at 0 claims args.now ≡ []) }
    ensures wrong { let at = number_of_args args.now
        in let claims = map claim_of refinements.now
        in IfErr result (Refuses (arguments_faults session command at 0 claims args.now)) }
{
    let mut parameter = 0;
    let mut left = args;
    for refinement in refinements {
        let Some((argument, more)) = left.split_first() else {
            return Ok(());
        };
        if !is_right(refinement, *argument, args) {
            return Err(SceneError::BadArgument {
                session,
                command,
                parameter,
            });
        }
        left = more;
        parameter += 1;
    }
    Ok(())
}

/// The arguments of a call are small enough, and make the refinements of the operation true.
pub(crate) fn check_call(
    session: u32,
    command: u32,
    op: &Op,
    args: &[i64],
) -> Result<(), SceneError>
    requires few { length op.now.params ≤ most_params }
    requires fit { AreRefinements 0 (map claim_of op.now.params) }
    ensures ok { let called = Some (op_rules op.now)
        in IfOk result (λ _. call_faults called session command args.now ≡ []) }
    ensures wrong { let called = Some (op_rules op.now)
        in IfErr result (Refuses (call_faults called session command args.now)) }
{
    check_arguments(session, command, op.params.as_slice(), as_words(args))
}

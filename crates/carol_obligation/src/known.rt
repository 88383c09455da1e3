ghost use Rattle.std.specs.Prelude.{◌≡◌, ◌≤◌, ◌<◌, length, map, slice_get, Some, IfOk};
ghost use Rattle.carol_formula.specs.Tree.{claim_of};
ghost use Rattle.carol_program.specs.Limits.{most_queries, most_statements};
ghost use Rattle.carol_program.specs.Rules.{rules_in};
ghost use Rattle.carol_program.specs.WellFormed.{AreRules};
ghost use Rattle.carol_obligation.specs.Formed.{
  with_all,
  with_closing,
  with_query,
  with_round,
  with_test,
};

use crate::names::{GuardNames, RoundNames, round_variable};
use carol_formula::{Boxed, Formula, renamed};
use carol_program::{Program, query_variable, with_kinds, with_more};
use std::alloc::{AllocError, Global};

/// The store of a round is one of the shape, and the invariant is true of it.
pub(crate) fn with_round(
    alloc: Global,
    program: &Program,
    round: u32,
    known: Boxed<Formula>,
) -> Result<Boxed<Formula>, AllocError>
    requires rules { AreRules (rules_in program.now) }
    requires round { round ≤ most_statements }
    ensures { IfOk result (λ f. claim_of f
        ≡ with_round (rules_in program.now) round (claim_of known)) }
{
    let invariant = renamed(alloc, &program.invariant, &RoundNames { round })?;
    let known = with_more(alloc, known, invariant)?;
    let stored = with_kinds(
        alloc,
        program.shape.kinds(),
        round_variable(round, 0),
        known,
    )?;
    Ok(stored)
}

// The formula of the guard with this number.
fn guard_of(program: &Program, guard: u32) -> &Formula
    requires rules { AreRules (rules_in program.now) }
    requires guard { guard < length program.now.guards }
    ensures { slice_get (rules_in program.now).guards guard ≡ Some (claim_of result.now) }
{
    &program.guards.as_slice()[guard as usize].formula
}

/// The store of a query is one of the shape, and the guard is true of it and of the store of the
/// round.
pub(crate) fn with_query(
    alloc: Global,
    program: &Program,
    guard: u32,
    slot: u32,
    round: u32,
    known: Boxed<Formula>,
) -> Result<Boxed<Formula>, AllocError>
    requires rules { AreRules (rules_in program.now) }
    requires guard { guard < length program.now.guards }
    requires slot { slot < most_queries }
    requires round { round ≤ most_statements }
    ensures { IfOk result (λ f. claim_of f
        ≡ with_query (rules_in program.now) guard slot round (claim_of known)) }
{
    let formula = renamed(alloc, guard_of(program, guard), &GuardNames { slot, round })?;
    let known = with_more(alloc, known, formula)?;
    let stored = with_kinds(alloc, program.shape.kinds(), query_variable(slot, 0), known)?;
    Ok(stored)
}

/// The round is over; nothing needs to be known of one without a query.
pub(crate) fn with_closing(
    alloc: Global,
    program: &Program,
    asked: bool,
    round: u32,
    known: Boxed<Formula>,
) -> Result<Boxed<Formula>, AllocError>
    requires rules { AreRules (rules_in program.now) }
    requires round { round ≤ most_statements }
    ensures { IfOk result (λ f. claim_of f
        ≡ with_closing (rules_in program.now) asked round (claim_of known)) }
{
    if asked {
        with_round(alloc, program, round, known)
    } else {
        Ok(known)
    }
}

/// The test comes out as `side` says.
pub(crate) fn with_test(
    alloc: Global,
    test: &Formula,
    side: bool,
    known: Boxed<Formula>,
) -> Result<Boxed<Formula>, AllocError>
    ensures { IfOk result (λ f. claim_of f ≡ with_test (claim_of test.now) side (claim_of known)) }
{
    let test = test.copy(alloc)?;
    if side {
        return with_more(alloc, known, test);
    }
    let denied = Formula::not(alloc, test)?;
    with_more(alloc, known, denied)
}

/// Each formula is true.
pub(crate) fn with_all(
    alloc: Global,
    formulas: &[Formula],
    known: Boxed<Formula>,
) -> Result<Boxed<Formula>, AllocError>
    ensures { IfOk result (λ f. claim_of f
        ≡ with_all (map claim_of formulas.now) (claim_of known)) }
{
    let mut known = known;
    let mut left = formulas;
    while let Some((formula, more)) = left.split_first() {
        let one = formula.copy(alloc)?;
        known = with_more(alloc, known, one)?;
        left = more;
    }
    Ok(known)
}

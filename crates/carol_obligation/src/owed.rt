ghost use Rattle.std.specs.Prelude.{◌≡◌, ◌≤◌, ◌<◌, ℕ, length, IfOk, IfSome};
ghost use Rattle.carol_formula.specs.Tree.{claim_of};
ghost use Rattle.carol_formula.specs.Weight.{weight};
ghost use Rattle.carol_program.specs.Limits.{most_statements};
ghost use Rattle.carol_program.specs.Rules.{OpRules, rules_in, op_rules};
ghost use Rattle.carol_program.specs.WellFormed.{AreRules, IsOpOver};
ghost use Rattle.carol_obligation.specs.Sites.{Amount, After, Gives};
ghost use Rattle.carol_obligation.specs.Formed.{owed, with_ties, with_tie};
ghost use Rattle.carol_obligation.specs.Budget.{AreLightParts, amount_limit};

use crate::known::with_round;
use crate::names::{AfterNames, ResultNames, kind_at, round_variable};
use crate::rows::{copied, tie, too_large};
use carol_formula::{Boxed, Formula, Term, Variable, renamed};
use carol_program::{Op, Part, Program, with_more};
use carol_store::CellKind;
use std::alloc::{AllocError, Global};

/// That an amount of such a cell isn't too large.
pub(crate) fn amount_owed(
    alloc: Global,
    program: &Program,
    round: u32,
    kind: CellKind,
    part: &Part,
    known: &Boxed<Formula>,
) -> Result<Formula, AllocError>
    requires rules { AreRules (rules_in program.now) }
    requires round { round ≤ most_statements }
    requires amount { weight part.now.amount < amount_limit }
    ensures { IfOk result (λ f. (op : OpRules) (atom : ℕ) → claim_of f
        ≡ owed (rules_in program.now) op round (Amount atom kind part.now) (claim_of known.now)) }
{
    let known = with_round(alloc, program, round, copied(alloc, known)?)?;
    let large = too_large(alloc, kind, &part.amount)?;
    let broken = with_more(alloc, known, large)?;
    let owed = Formula::not(alloc, broken.into_inner())?;
    Ok(owed)
}

// What is known, and that the variable of the cell, if it is a raised peak, is its value after the
// raise.
fn with_tie(
    alloc: Global,
    kind: Option<CellKind>,
    round: u32,
    part: &Part,
    known: Boxed<Formula>,
) -> Result<Boxed<Formula>, AllocError>
    requires round { round ≤ most_statements }
    requires cell { IfSome kind (λ _. part.now.cell < 16) }
    requires amount { weight part.now.amount < amount_limit }
    ensures { IfOk result (λ f. claim_of f ≡ with_tie round part.now kind (claim_of known)) }
{
    match kind {
        None | Some(CellKind::Counter | CellKind::Flag) => Ok(known),
        Some(CellKind::Peak) => {
            let cell = Term::variable(alloc, Variable(round_variable(round, part.cell)))?;
            let peak = Term::variable(alloc, Variable(part.cell))?;
            let tied = tie(alloc, &cell, &peak, &part.amount)?;
            with_more(alloc, known, tied)
        }
    }
}

// The same for each of the parts.
fn with_ties(
    alloc: Global,
    kinds: &[CellKind],
    round: u32,
    parts: &[Part],
    known: Boxed<Formula>,
) -> Result<Boxed<Formula>, AllocError>
    requires round { round ≤ most_statements }
    requires kinds { length kinds.now ≤ 16 }
    requires parts { AreLightParts parts.now }
    ensures { IfOk result (λ f. claim_of f ≡ with_ties kinds.now round parts.now (claim_of known)) }
{
    let mut known = known;
    let mut left = parts;
    while let Some((part, more)) = left.split_first() {
        known = with_tie(alloc, kind_at(kinds, part.cell), round, part, known)?;
        left = more;
    }
    Ok(known)
}

/// That the invariant is true after an issue of these parts.
pub(crate) fn invariant_owed(
    alloc: Global,
    program: &Program,
    round: u32,
    parts: &[Part],
    known: &Boxed<Formula>,
) -> Result<Formula, AllocError>
    requires rules { AreRules (rules_in program.now) }
    requires round { round ≤ most_statements }
    requires parts { AreLightParts parts.now }
    ensures { IfOk result (λ f. (op : OpRules) → claim_of f
        ≡ owed (rules_in program.now) op round (After parts.now) (claim_of known.now)) }
{
    let kinds = program.shape.kinds();
    let known = with_round(alloc, program, round, copied(alloc, known)?)?;
    let known = with_ties(alloc, kinds, round, parts, known)?;
    let after = AfterNames {
        kinds,
        parts,
        round,
    };
    let invariant = renamed(alloc, &program.invariant, &after)?;
    let denied = Formula::not(alloc, invariant)?;
    let broken = with_more(alloc, known, denied)?;
    let owed = Formula::not(alloc, broken.into_inner())?;
    Ok(owed)
}

/// That the value meets the refinement of the operation's result.
pub(crate) fn result_owed(
    alloc: Global,
    program: &Program,
    op: &Op,
    round: u32,
    value: &Term,
    known: &Boxed<Formula>,
) -> Result<Formula, AllocError>
    requires rules { AreRules (rules_in program.now) }
    requires round { round ≤ most_statements }
    requires op { let p = rules_in program.now in
        IsOpOver p.shape (length p.guards) (op_rules op.now) }
    requires value { weight value.now < amount_limit }
    ensures { IfOk result (λ f. claim_of f
        ≡ owed (rules_in program.now) (op_rules op.now) round (Gives value.now)
        (claim_of known.now)) }
{
    let known = with_round(alloc, program, round, copied(alloc, known)?)?;
    let meets = renamed(alloc, &op.result, &ResultNames { value })?;
    let denied = Formula::not(alloc, meets)?;
    let broken = with_more(alloc, known, denied)?;
    let owed = Formula::not(alloc, broken.into_inner())?;
    Ok(owed)
}

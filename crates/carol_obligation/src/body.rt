ghost use Rattle.std.specs.Prelude.{◌≡◌, ◌≤◌, ◌<◌, OnOk, IfOk, length, slice_get};
ghost use Rattle.carol_formula.specs.Tree.{claim_of};
ghost use Rattle.carol_program.specs.Bodies.{body_of};
ghost use Rattle.carol_program.specs.Bodies as body;
ghost use Rattle.carol_program.specs.Limits.{most_queries, most_statements};
ghost use Rattle.carol_program.specs.Rules.{rules_in, op_rules};
ghost use Rattle.carol_program.specs.WellFormed.{AreRules, IsOpOver};
ghost use Rattle.carol_formula.specs.Weight.{weight};
ghost use Rattle.carol_obligation.specs.Budget.{AreSmallParts, amount_limit};
ghost use Rattle.carol_obligation.specs.Places.{obligations_at};
ghost use Rattle.carol_obligation.specs.Collected.{
  collected,
  amount_owed,
  bounded_owed,
  amounts_owed,
  issue_owed,
  behind_query,
  behind_closing,
  behind_test,
};
ghost use Rattle.carol_obligation.specs.Passing.{Passes};
ghost use Rattle.carol_obligation.specs.Ready.{point_of, point_at, HasRoom, IsReady};

use crate::collector::Collector;
use crate::known::{with_all, with_closing, with_query, with_test};
use crate::names::kind_at;
use crate::owed::{amount_owed, invariant_owed, result_owed};
use crate::rows::copied;
use crate::standing::{At, Operation, Standing};
use carol_formula::{Boxed, Formula, Term};
use carol_program::{Op, Part, Place, Program, Step};
use carol_store::CellKind;
use std::alloc::{AllocError, Global};

// The same once more.
fn again(alloc: Global, standing: &Standing) -> Result<Standing, AllocError>
    ensures { IfOk result (λ s. s ≡ standing.now) }
{
    let known = copied(alloc, &standing.known)?;
    Ok(Standing {
        known,
        round: standing.round,
        asked: standing.asked,
    })
}

// Behind a query.
fn past_query(
    alloc: Global,
    of: Operation<'_>,
    standing: Standing,
    guard: u32,
    slot: u32,
) -> Result<Standing, AllocError>
    requires rules { AreRules (rules_in of.program.now) }
    requires guard { guard < length of.program.now.guards }
    requires slot { slot < most_queries }
    requires round { standing.round ≤ most_statements }
    ensures { IfOk result (λ s. point_of of.entry s
        ≡ behind_query (rules_in of.entry.program.now) (point_of of.entry standing) guard slot) }
{
    let Standing { known, round, .. } = standing;
    let known = with_query(alloc, of.program, guard, slot, round, known)?;
    Ok(Standing {
        known,
        round,
        asked: true,
    })
}

// Behind an issue or a release.
fn past_closing(
    alloc: Global,
    of: Operation<'_>,
    standing: Standing,
) -> Result<Standing, AllocError>
    requires rules { AreRules (rules_in of.program.now) }
    requires round { standing.round ≤ most_statements }
    ensures { IfOk result (λ s. point_of of.entry s
        ≡ behind_closing (rules_in of.entry.program.now) (point_of of.entry standing)) }
{
    let Standing {
        known,
        round,
        asked,
    } = standing;
    let known = with_closing(alloc, of.program, asked, round, known)?;
    Ok(Standing {
        known,
        round: round + 1,
        asked: false,
    })
}

// Behind a test.
fn past_test(
    alloc: Global,
    of: Operation<'_>,
    standing: Standing,
    test: &Formula,
    side: bool,
) -> Result<Standing, AllocError>
    ensures { IfOk result (λ s. point_of of.entry s
        ≡ behind_test (point_of of.entry standing) (claim_of test.now) side) }
{
    let Standing {
        known,
        round,
        asked,
    } = standing;
    let known = with_test(alloc, test, side, known)?;
    Ok(Standing {
        known,
        round,
        asked,
    })
}

// Hands over the obligation of the amount of a part that changes a cell of this kind.
fn collect_bounded<C: Collector>(
    alloc: Global,
    at: At<'_>,
    collector: &mut C,
    number: u32,
    atom: u32,
    kind: CellKind,
    part: &Part,
) -> Result<(), AllocError>
    requires needs { C.needs }
    requires rules { AreRules (rules_in at.of.program.now) }
    requires room { HasRoom (rules_in at.of.program.now) (point_at at) }
    requires light { weight part.now.amount < amount_limit }
    ensures { OnOk result (Passes C.holds collector.old collector.new
        (bounded_owed (rules_in at.entry.of.program.now) (point_at at.entry)
        number atom part.now kind)) }
{
    let known = &at.standing.known;
    let formula = amount_owed(alloc, at.of.program, at.standing.round, kind, part, known)?;
    let place = Place::Amount {
        op: at.of.number,
        number,
        atom,
    };
    collector.take(alloc, place, formula)
}

// The same, unless it is set in a flag.
fn collect_amount<C: Collector>(
    alloc: Global,
    at: At<'_>,
    collector: &mut C,
    number: u32,
    atom: u32,
    kind: Option<CellKind>,
    part: &Part,
) -> Result<(), AllocError>
    requires needs { C.needs }
    requires rules { AreRules (rules_in at.of.program.now) }
    requires room { HasRoom (rules_in at.of.program.now) (point_at at) }
    requires light { weight part.now.amount < amount_limit }
    ensures { OnOk result (Passes C.holds collector.old collector.new
        (amount_owed (rules_in at.entry.of.program.now) (point_at at.entry)
        number atom part.now kind)) }
{
    match kind {
        None | Some(CellKind::Flag) => Ok(()),
        Some(CellKind::Counter) => {
            let kind = CellKind::Counter;
            collect_bounded(alloc, at, collector, number, atom, kind, part)
        }
        Some(CellKind::Peak) => {
            let kind = CellKind::Peak;
            collect_bounded(alloc, at, collector, number, atom, kind, part)
        }
    }
}

// Hands over the obligations of an issue's amounts.
fn collect_amounts<C: Collector>(
    alloc: Global,
    at: At<'_>,
    collector: &mut C,
    number: u32,
    parts: &[Part],
) -> Result<(), AllocError>
    requires needs { C.needs }
    requires rules { AreRules (rules_in at.of.program.now) }
    requires room { HasRoom (rules_in at.of.program.now) (point_at at) }
    requires parts { AreSmallParts parts.now }
    ensures { OnOk result (Passes C.holds collector.old collector.new
        (amounts_owed (rules_in at.entry.of.program.now) (point_at at.entry) number 1 parts.now)) }
{
    let kinds = at.of.program.shape.kinds();
    let mut left = parts;
    let mut atom = 1;
    while let Some((part, more)) = left.split_first() {
        let kind = kind_at(kinds, part.cell);
        collect_amount(alloc, at, collector, number, atom, kind, part)?;
        atom += 1;
        left = more;
    }
    Ok(())
}

// Hands over the obligations of an issue.
fn collect_issue<C: Collector>(
    alloc: Global,
    at: At<'_>,
    collector: &mut C,
    number: u32,
    parts: &[Part],
) -> Result<(), AllocError>
    requires needs { C.needs }
    requires rules { AreRules (rules_in at.of.program.now) }
    requires room { HasRoom (rules_in at.of.program.now) (point_at at) }
    requires parts { AreSmallParts parts.now }
    ensures { OnOk result (Passes C.holds collector.old collector.new
        (issue_owed (rules_in at.entry.of.program.now) (point_at at.entry) number parts.now)) }
{
    collect_amounts(alloc, at, collector, number, parts)?;
    let known = &at.standing.known;
    let formula = invariant_owed(alloc, at.of.program, at.standing.round, parts, known)?;
    let place = Place::Invariant {
        op: at.of.number,
        number,
    };
    collector.take(alloc, place, formula)
}

// Hands over the obligation of a returned value.
fn collect_result<C: Collector>(
    alloc: Global,
    at: At<'_>,
    collector: &mut C,
    number: u32,
    value: &Term,
) -> Result<(), AllocError>
    requires needs { C.needs }
    requires rules { AreRules (rules_in at.of.program.now) }
    requires ready { IsReady (rules_in at.of.program.now) (point_at at)
        (body.Return number value.now) }
    ensures { OnOk result (Passes C.holds collector.old collector.new
        (collected (rules_in at.entry.of.program.now) (point_at at.entry)
        (body.Return number value.now))) }
{
    let known = &at.standing.known;
    let of = at.of;
    let formula = result_owed(alloc, of.program, of.op, at.standing.round, value, known)?;
    let place = Place::Outcome {
        op: of.number,
        number,
    };
    collector.take(alloc, place, formula)
}

/// Hands over the obligations of a body that begins there.
fn walk_body<C: Collector>(
    alloc: Global,
    of: Operation<'_>,
    collector: &mut C,
    standing: Standing,
    body: &Step,
) -> Result<(), AllocError>
    requires needs { C.needs }
    requires rules { AreRules (rules_in of.program.now) }
    requires ready { IsReady (rules_in of.program.now) (point_of of standing) (body_of body.now) }
    ensures { OnOk result (Passes C.holds collector.old collector.new
        (collected (rules_in of.entry.program.now) (point_of of.entry standing)
        (body_of body.now))) }
{
    let mut standing = standing;
    let mut step = body;
    loop {
        match step {
            Step::Query {
                guard,
                slot,
                next,
                ..
            } => {
                standing = past_query(alloc, of, standing, *guard, *slot)?;
                step = next.get();
            }
            Step::Issue {
                number,
                parts,
                next,
            } => {
                let at = At {
                    of,
                    standing: &standing,
                };
                collect_issue(alloc, at, collector, *number, parts.as_slice())?;
                standing = past_closing(alloc, of, standing)?;
                step = next.get();
            }
            Step::Release { next, .. } => {
                standing = past_closing(alloc, of, standing)?;
                step = next.get();
            }
            Step::Branch { test, yes, no, .. } => {
                let first = again(alloc, &standing)?;
                let first = past_test(alloc, of, first, test, true)?;
                walk_body(alloc, of, collector, first, yes.get())?;
                standing = past_test(alloc, of, standing, test, false)?;
                step = no.get();
            }
            Step::Return { number, value } => {
                let at = At {
                    of,
                    standing: &standing,
                };
                return collect_result(alloc, at, collector, *number, value);
            }
        }
    }
}

/// Hands over the obligations of an operation, which has this number.
pub fn walk<C: Collector>(
    alloc: Global,
    program: &Program,
    op: &Op,
    number: u32,
    collector: &mut C,
) -> Result<(), AllocError>
    requires needs { C.needs }
    requires rules { AreRules (rules_in program.now) }
    requires op { let p = rules_in program.now in
        IsOpOver p.shape (length p.guards) (op_rules op.now) }
    ensures { OnOk result (Passes C.holds collector.old collector.new
        (obligations_at (rules_in program.now) number (op_rules op.now))) }
{
    let known = Boxed::new(alloc, Formula::True)?;
    let known = with_all(alloc, op.params.as_slice(), known)?;
    let standing = Standing {
        known,
        round: 0,
        asked: false,
    };
    let of = Operation {
        program,
        op,
        number,
    };
    walk_body(alloc, of, collector, standing, &op.body)?;
    Ok(())
}

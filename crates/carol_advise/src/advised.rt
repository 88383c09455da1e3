ghost use Rattle.std.specs.Prelude.{
  ◌≡◌,
  ◌≢◌,
  ◌↔◌,
  ◌<◌,
  ◌≤◌,
  length,
  slice_get,
  Err,
  Some,
  IfErr,
  IfOk,
};
ghost use Rattle.std.specs.List.{AllByRecursion};
ghost use Rattle.carol_program.specs.Bodies.{queries_in};
ghost use Rattle.carol_program.specs.Limits.{most_queries};
ghost use Rattle.carol_program.specs.Rules.{op_rules, rules_in};
ghost use Rattle.carol_program.specs.WellFormed.{AreRules, IsOpOver, IsWellFormed};
ghost use Rattle.carol_reading.specs.Good.{IsGood};
ghost use Rattle.carol_reading.specs.Kept.{MayBeKept};
ghost use Rattle.carol_advise.specs.Advised.{
  HasTooManyFor,
  IsAdvice,
  IsAdviceFor,
  IsLeast,
  IsLeastFor,
  IsReason,
  IsReasonFor,
  IsTableOf,
  kept_as,
};
ghost use Rattle.carol_advise_guards.specs.Bars as total;
ghost use Rattle.carol_advise_guards.specs.Order.{IsOrdered};

use crate::answer::{Advice, AdviseError, RejectedList};
use crate::attempt::attempt;
use carol_advise_guards::{GuardNumbers, are_few, assignments, bars};
use carol_program::{AccordTable, Op, Program};
use carol_reading::Accepted;
use sqlite_items::Items;
use std::alloc::{AllocError, Global};

/// The assignment of declared guards to the operation's queries that is the first in order under
/// which the operation is good. Assignments stand in order of how much they bar, and then of the
/// lists of guards' numbers. Each that stands before it is given with a breach at its first place
/// that isn't proved. `TooMany` comes exactly where there are more than `MOST_ASSIGNMENTS`
/// assignments, and `Undecided` only where each before one has a breach and that one's first place
/// that isn't proved stays undecided. The operation is in range.
pub fn advise(alloc: Global, accepted: &Accepted, op: u32) -> Result<Advice, AdviseError>
    requires { op < length accepted.now.program.ops }
    ensures advice { IfOk result (IsAdviceFor accepted.now op) }
    ensures least { IfOk result (IsLeastFor accepted.now op) }
    ensures many { (result ≡ Err AdviseError.TooMany) ↔ HasTooManyFor accepted.now op }
    ensures reason { IfErr result (IsReasonFor accepted.now op) }
{
    advise_in(alloc, accepted.program(), accepted.accords(), op)
}

// The same of a program with its table.
fn advise_in(
    alloc: Global,
    program: &Program,
    table: &AccordTable,
    number: u32,
) -> Result<Advice, AdviseError>
    requires op { number < length program.now.ops }
    requires kept { MayBeKept program.now table.now }
    ensures advice { IfOk result (IsAdviceFor (kept_as program.now table.now) number) }
    ensures least { IfOk result (IsLeastFor (kept_as program.now table.now) number) }
    ensures many { (result ≡ Err AdviseError.TooMany)
        ↔ HasTooManyFor (kept_as program.now table.now) number }
    ensures reason { IfErr result (IsReasonFor (kept_as program.now table.now) number) }
{
    let op = op_at(program, number);
    let guards = program.guards.len() as u32;
    let slots = slots_of(program, op, number);
    if !are_few(guards, slots) {
        return Err(AdviseError::TooMany);
    }
    let list = assignments(alloc, table, program.shape.kinds(), guards, slots)?;
    first_good(alloc, program, table, op, number, list.as_slice())
}

// The operation with this number.
fn op_at(program: &Program, number: u32) -> &Op
    requires { number < length program.now.ops }
    ensures { slice_get program.now.ops number ≡ Some result.now }
{
    &program.ops.as_slice()[number as usize]
}

// How many queries the operation with this number has, each of which has a name.
fn slots_of(program: &Program, op: &Op, number: u32) -> u32
    requires well_formed { IsWellFormed (rules_in program.now) program.now.names }
    requires op { slice_get program.now.ops number ≡ Some op.now }
    ensures slots { result ≡ queries_in (op_rules op.now).body }
    ensures few { result ≤ most_queries }
{
    program.names.ops.as_slice()[number as usize].queries.len() as u32
}

// The first of the assignments, which are all in order, under which the operation is good. Under
// its own guards it is.
fn first_good(
    alloc: Global,
    program: &Program,
    table: &AccordTable,
    op: &Op,
    number: u32,
    list: &[GuardNumbers],
) -> Result<Advice, AdviseError>
    requires rules { AreRules (rules_in program.now) }
    requires op { let p = rules_in program.now in
        IsOpOver p.shape (length p.guards) (op_rules op.now) }
    requires good { IsGood (rules_in program.now) (op_rules op.now) }
    requires table { IsTableOf (rules_in program.now) table.now }
    requires list { IsOrdered table.now (length (rules_in program.now).guards)
        (queries_in (op_rules op.now).body) list.now }
    ensures advice { IfOk result
        (IsAdvice (rules_in program.now) table.now number (op_rules op.now)) }
    ensures least { IfOk result (IsLeast (rules_in program.now) table.now (op_rules op.now)) }
    ensures reason { IfErr result
        (IsReason (rules_in program.now) table.now number (op_rules op.now)) }
    ensures few { result ≢ Err AdviseError.TooMany }
{
    let mut rejected = Items::new(alloc);
    let mut left = list;
    while let Some((guards, more)) = left.split_first() {
        match attempt(alloc, program, op, number, guards.as_slice())? {
            Some(bad) => rejected.push(bad)?,
            None => return Ok(advice(alloc, program, table, guards.as_slice(), rejected)?),
        }
        left = more;
    }
    unreachable!()
}

// The advice of these guards, where those are rejected.
fn advice(
    alloc: Global,
    program: &Program,
    table: &AccordTable,
    guards: &[u32],
    rejected: RejectedList,
) -> Result<Advice, AllocError>
    requires rules { AreRules (rules_in program.now) }
    requires table { IsTableOf (rules_in program.now) table.now }
    requires guards { AllByRecursion (λ g. g < length (rules_in program.now).guards) guards.now }
    requires few { length guards.now ≤ most_queries }
    ensures guards { IfOk result (λ a. a.guards ≡ guards.now) }
    ensures rejected { IfOk result (λ a. a.rejected ≡ rejected) }
    ensures bars { IfOk result (λ a. a.bars ≡ total.bars table.now guards.now) }
{
    Ok(Advice {
        bars: bars(table, program.shape.kinds(), guards),
        guards: Items::from_slice(alloc, guards)?,
        rejected,
    })
}

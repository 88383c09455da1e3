ghost use Rattle.std.specs.Prelude.{◌≡◌, map, get_or, IfOk};
ghost use Rattle.carol_program.specs.Bodies.{body_of};
ghost use Rattle.carol_program.specs.Rules.{op_rules};
ghost use Rattle.carol_advise_guards.specs.Chains.{behind, followed_by};
ghost use Rattle.carol_advise_guards.specs.Under as under;
ghost use Rattle.carol_advise_guards.specs.Under.{guarded};

use crate::copies::{copied_formulas, copied_parts};
use carol_program::{Op, Step};
use sqlite_items::Boxed;
use std::alloc::{AllocError, Global};

// The guard of a slot, or this one where the slot has none.
fn guard_at(guards: &[u32], slot: u32, own: u32) -> u32
    ensures { result ≡ get_or guards.now slot own }
{
    match guards.get(slot as usize) {
        Some(guard) => *guard,
        None => own,
    }
}

// A copy of the statement under the guards, with this behind it in place of what stands there. One
// that ends a chain has nothing behind it.
fn followed_by(alloc: Global, guards: &[u32], step: &Step, next: Step) -> Result<Step, AllocError>
    ensures { IfOk result (λ same. body_of same
        ≡ followed_by guards.now step.now (body_of next)) }
{
    match step {
        Step::Query {
            number,
            guard,
            slot,
            ..
        } => Ok(Step::Query {
            number: *number,
            guard: guard_at(guards, *slot, *guard),
            slot: *slot,
            next: Boxed::new(alloc, next)?,
        }),
        Step::Issue { number, parts, .. } => Ok(Step::Issue {
            number: *number,
            parts: copied_parts(alloc, parts)?,
            next: Boxed::new(alloc, next)?,
        }),
        Step::Release { number, .. } => Ok(Step::Release {
            number: *number,
            next: Boxed::new(alloc, next)?,
        }),
        Step::Branch { .. } | Step::Return { .. } => Ok(next),
    }
}

// Copies of the statements under the guards, one behind another, and this behind the last of them.
fn chained(alloc: Global, guards: &[u32], steps: Vec<&Step>, end: Step) -> Result<Step, AllocError>
    ensures { IfOk result (λ same. body_of same
        ≡ behind guards.now (map (λ step. step.now) steps.entry.items) (body_of end)) }
{
    let mut before = steps;
    let mut chain = end;
    while let Some(step) = before.pop() {
        chain = followed_by(alloc, guards, step, chain)?;
    }
    Ok(chain)
}

// The body under the guards. A chain of statements takes no stack; branches are nested at most 64
// deep.
fn step_under(alloc: Global, guards: &[u32], body: &Step) -> Result<Step, AllocError>
    ensures { IfOk result (λ other. body_of other ≡ guarded guards.now (body_of body.now)) }
{
    let mut before = Vec::new(alloc);
    let mut step = body;
    loop {
        match step {
            Step::Query { next, .. } => {
                before.push(step)?;
                step = next.get();
            }
            Step::Issue { next, .. } => {
                before.push(step)?;
                step = next.get();
            }
            Step::Release { next, .. } => {
                before.push(step)?;
                step = next.get();
            }
            Step::Branch {
                number,
                test,
                yes,
                no,
            } => {
                let end = Step::Branch {
                    number: *number,
                    test: test.copy(alloc)?,
                    yes: Boxed::new(alloc, step_under(alloc, guards, yes.get())?)?,
                    no: Boxed::new(alloc, step_under(alloc, guards, no.get())?)?,
                };
                return chained(alloc, guards, before, end);
            }
            Step::Return { number, value } => {
                let end = Step::Return {
                    number: *number,
                    value: value.copy()?,
                };
                return chained(alloc, guards, before, end);
            }
        }
    }
}

/// The operation with these guards in its queries, by slot. A query whose slot has none keeps its
/// own.
pub fn op_under(alloc: Global, guards: &[u32], op: &Op) -> Result<Op, AllocError>
    ensures { IfOk result (λ other. op_rules other ≡ under.op_under guards.now (op_rules op.now)) }
{
    Ok(Op {
        params: copied_formulas(alloc, &op.params)?,
        result: op.result.copy(alloc)?,
        body: step_under(alloc, guards, &op.body)?,
    })
}

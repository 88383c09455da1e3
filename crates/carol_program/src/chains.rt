ghost use Rattle.std.specs.Prelude.{◌≡◌, map, IfOk};
ghost use Rattle.carol_program.specs.Chains.{behind, followed_by};

use crate::copies::copied_list;
use crate::steps::Step;
use sqlite_items::Boxed;
use std::alloc::{AllocError, Global};

// A copy of the statement, with this behind it in place of what stands there. One that ends a chain
// has nothing behind it.
fn followed_by(alloc: Global, step: &Step, next: Step) -> Result<Step, AllocError>
    ensures { IfOk result (λ same. same ≡ followed_by step.now next) }
{
    match step {
        Step::Query {
            number,
            guard,
            slot,
            ..
        } => Ok(Step::Query {
            number: *number,
            guard: *guard,
            slot: *slot,
            next: Boxed::new(alloc, next)?,
        }),
        Step::Issue { number, parts, .. } => Ok(Step::Issue {
            number: *number,
            parts: copied_list(alloc, parts)?,
            next: Boxed::new(alloc, next)?,
        }),
        Step::Release { number, .. } => Ok(Step::Release {
            number: *number,
            next: Boxed::new(alloc, next)?,
        }),
        Step::Branch { .. } | Step::Return { .. } => Ok(next),
    }
}

// Copies of the statements one behind another, and this behind the last of them.
fn chained(alloc: Global, steps: Vec<&Step>, end: Step) -> Result<Step, AllocError>
    ensures { IfOk result (λ same. same ≡ behind (map (λ step. step.now) steps.entry.items) end) }
{
    let mut before = steps;
    let mut chain = end;
    while let Some(step) = before.pop() {
        chain = followed_by(alloc, step, chain)?;
    }
    Ok(chain)
}

impl Step {
    /// An equal step. A chain of statements takes no stack; branches are nested at most 64 deep.
    pub fn copy(&self, alloc: Global) -> Result<Step, AllocError>
        ensures { IfOk result (λ same. same ≡ self.now) }
    {
        let mut before = Vec::new(alloc);
        let mut step = self;
        loop {
            match step {
                Step::Query { next, .. } => {
                    before.push(step)?;
                    step = next.get();
                }
                Step::Issue { next, .. } => {
                    before.push(step)?;
                    step = next.get();
                }
                Step::Release { next, .. } => {
                    before.push(step)?;
                    step = next.get();
                }
                Step::Branch {
                    number,
                    test,
                    yes,
                    no,
                } => {
                    let end = Step::Branch {
                        number: *number,
                        test: test.copy(alloc)?,
                        yes: Boxed::new(alloc, yes.get().copy(alloc)?)?,
                        no: Boxed::new(alloc, no.get().copy(alloc)?)?,
                    };
                    return chained(alloc, before, end);
                }
                Step::Return { number, value } => {
                    let end = Step::Return {
                        number: *number,
                        value: value.copy()?,
                    };
                    return chained(alloc, before, end);
                }
            }
        }
    }
}

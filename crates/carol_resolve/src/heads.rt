ghost use Rattle.std.specs.Prelude.{◌≡◌, OnOk, IfOk};
ghost use Rattle.carol_program.specs.Bodies.{Body, body_of};
ghost use Rattle.carol_resolve.specs.Heads.{with_head, with_heads};

use carol_program::{PartList, Step};
use sqlite_items::Boxed;
use std::alloc::{AllocError, Global};

/// A step without what follows it.
#[derive(Drop)]
pub(crate) enum Head {
    Query { number: u32, guard: u32, slot: u32 },
    Issue { number: u32, parts: PartList },
    Release { number: u32 },
}

/// One head more, at the end.
pub(crate) fn push_head(heads: &mut Vec<Head>, head: Head) -> Result<(), AllocError>
    ensures { OnOk result ((next : Body) →
        with_heads heads.new.items next ≡ with_heads heads.old.items (with_head head next)) }
{
    heads.push(head)?;
    Ok(())
}

// The step of a head before what follows it.
fn with_head(alloc: Global, head: Head, next: Step) -> Result<Step, AllocError>
    ensures { IfOk result (λ s. body_of s ≡ with_head head (body_of next)) }
{
    let next = Boxed::new(alloc, next)?;
    match head {
        Head::Query {
            number,
            guard,
            slot,
        } => Ok(Step::Query {
            number,
            guard,
            slot,
            next,
        }),
        Head::Issue { number, parts } => Ok(Step::Issue {
            number,
            parts,
            next,
        }),
        Head::Release { number } => Ok(Step::Release { number, next }),
    }
}

/// The steps of heads in their order, before the last one.
pub(crate) fn with_heads(
    alloc: Global,
    mut heads: Vec<Head>,
    last: Step,
) -> Result<Step, AllocError>
    ensures { IfOk result (λ s. body_of s ≡ with_heads heads.items (body_of last)) }
{
    let mut step = last;
    while let Some(head) = heads.pop() {
        step = with_head(alloc, head, step)?;
    }
    Ok(step)
}

ghost use Rattle.carol_formula.specs.Bounds.{IsBelow, term_limit};

use carol_cert::{Place, RowStep, StepList, leaf_closes};
use carol_formula::{Formula, Term, TermError, Variable};
use std::alloc::Global;
use std::test::Fail;

// `by` times the difference of two variables, and a constant.
fn difference(alloc: Global, by: i128, left: u32, right: u32, rest: i128) -> Result<Term, TermError>
    requires { IsBelow term_limit rest }
{
    let left = Term::variable(alloc, Variable(left))?;
    let right = Term::variable(alloc, Variable(right))?;
    left.sub(&right)?
        .scale(by)?
        .add(&Term::constant(alloc, rest))
}

#[test]
fn halves_are_rounded_down(rt: HostRuntime) -> Result<(), Fail> {
    let alloc = rt.alloc();
    let above = Formula::Le(difference(alloc, 2, 0, 1, -1)?);
    let below = Formula::Le(difference(alloc, 2, 1, 0, 1)?);
    let formulas = vec![in alloc; above, below]?;
    let place = Place::root(&formulas);
    let mut steps = StepList::new(alloc);
    steps.push(RowStep::Given { at: 0 })?;
    steps.push(RowStep::Tighten { a: 0, d: 2 })?;
    steps.push(RowStep::Given { at: 1 })?;
    steps.push(RowStep::Tighten { a: 2, d: 2 })?;
    steps.push(RowStep::Combine {
        a: 1,
        m: 1,
        b: 3,
        n: 1,
    })?;
    assert!(rt; leaf_closes(&place, steps.as_slice()));
    let whole = [
        RowStep::Given { at: 0 },
        RowStep::Given { at: 1 },
        RowStep::Combine {
            a: 0,
            m: 1,
            b: 1,
            n: 1,
        },
    ];
    assert!(rt; !leaf_closes(&place, &whole));
    Ok(())
}

#[test]
fn an_equation_is_reversed(rt: HostRuntime) -> Result<(), Fail> {
    let alloc = rt.alloc();
    let equal = Formula::Eq(difference(alloc, 1, 0, 1, 0)?);
    let below = Formula::Le(difference(alloc, 1, 0, 1, 1)?);
    let formulas = vec![in alloc; equal, below]?;
    let place = Place::root(&formulas);
    let sum = RowStep::Combine {
        a: 0,
        m: 1,
        b: 1,
        n: 1,
    };
    let reversed = [RowStep::Reversed { at: 0 }, RowStep::Given { at: 1 }, sum];
    assert!(rt; leaf_closes(&place, &reversed));
    let inequality = [RowStep::Given { at: 0 }, RowStep::Reversed { at: 1 }, sum];
    assert!(rt; !leaf_closes(&place, &inequality));
    Ok(())
}

ghost use Rattle.carol_formula.specs.Bounds.{IsBelow, term_limit};

use carol_cert::{Refutation, RowStep, StepList, check, check_list, turns};
use carol_formula::{Boxed, Formula, Term, TermError, Variable};
use std::alloc::{AllocError, Global};
use std::test::Fail;

// The variable `by` times, and a constant.
fn multiple(alloc: Global, by: i128, variable: u32, rest: i128) -> Result<Term, TermError>
    requires { IsBelow term_limit rest }
{
    Term::variable(alloc, Variable(variable))?
        .scale(by)?
        .add(&Term::constant(alloc, rest))
}

fn rows(alloc: Global, steps: &[RowStep]) -> Result<Refutation, AllocError> {
    let mut list = StepList::new(alloc);
    for step in steps {
        list.push(*step)?;
    }
    Ok(Refutation::Rows(list))
}

// Two rows are added, the second `n` times.
fn sum(alloc: Global, first: RowStep, second: RowStep, n: i128) -> Result<Refutation, AllocError> {
    let combine = RowStep::Combine {
        a: 0,
        m: 1,
        b: 1,
        n,
    };
    rows(alloc, &[first, second, combine])
}

fn branch(alloc: Global, low: Refutation, high: Refutation) -> Result<Refutation, AllocError> {
    Ok(Refutation::Branch {
        variable: Variable(0),
        k: 0,
        low: Boxed::new(alloc, low)?,
        high: Boxed::new(alloc, high)?,
    })
}

#[test]
fn an_odd_difference_is_not_twice_another(rt: HostRuntime) -> Result<(), Fail> {
    let alloc = rt.alloc();
    let twice_other = multiple(alloc, 2, 1, 1)?;
    let formula = Formula::Eq(multiple(alloc, 2, 0, 0)?.sub(&twice_other)?);
    let halves = [
        RowStep::Given { at: 0 },
        RowStep::Tighten { a: 0, d: 2 },
        RowStep::Reversed { at: 0 },
        RowStep::Tighten { a: 2, d: 2 },
        RowStep::Combine {
            a: 1,
            m: 1,
            b: 3,
            n: 1,
        },
    ];
    assert!(rt; check(&formula, &rows(alloc, &halves)?));
    assert!(rt; !check(&formula, &rows(alloc, &halves[..4])?));
    Ok(())
}

#[test]
fn cases_are_closed_on_both_sides(rt: HostRuntime) -> Result<(), Fail> {
    let alloc = rt.alloc();
    // x is 0, and it isn't.
    let bounds = Formula::and(
        alloc,
        Formula::Le(multiple(alloc, 1, 0, 0)?),
        Formula::Le(multiple(alloc, -1, 0, 0)?),
    )?;
    let formula = Formula::and(alloc, Formula::Ne(multiple(alloc, 1, 0, 0)?), bounds)?;
    for closed in [true, false] {
        let below = sum(alloc, RowStep::Given { at: 0 }, RowStep::Given { at: 2 }, 1)?;
        let above = if closed {
            sum(alloc, RowStep::Given { at: 0 }, RowStep::Given { at: 1 }, 1)?
        } else {
            Refutation::Unclosed
        };
        let split = Refutation::Split {
            at: 0,
            left: Boxed::new(alloc, below)?,
            right: Boxed::new(alloc, above)?,
        };
        let part = Refutation::Part {
            at: 1,
            rest: Boxed::new(alloc, split)?,
        };
        let tree = Refutation::Part {
            at: 0,
            rest: Boxed::new(alloc, part)?,
        };
        assert!(rt; check(&formula, &tree) == closed);
    }
    Ok(())
}

#[test]
fn one_half_is_between_whole_numbers(rt: HostRuntime) -> Result<(), Fail> {
    let alloc = rt.alloc();
    // 2x - 1 = 0, with x at most 0 or at least 1
    let formulas = vec![in alloc; Formula::True, Formula::Eq(multiple(alloc, 2, 0, -1)?)]?;
    let low = sum(
        alloc,
        RowStep::Reversed { at: 1 },
        RowStep::Given { at: 2 },
        2,
    )?;
    let high = sum(alloc, RowStep::Given { at: 1 }, RowStep::Given { at: 2 }, 2)?;
    assert!(rt; check_list(&formulas, &branch(alloc, low, high)?));
    assert!(rt; !check_list(&formulas, &Refutation::Absurd { at: 0 }));
    assert!(rt; !check_list(&formulas, &Refutation::Absurd { at: 2 }));
    Ok(())
}

#[test]
fn an_unfinished_tree_has_turns(rt: HostRuntime) -> Result<(), Fail> {
    let alloc = rt.alloc();
    let formula = Formula::Or(
        Boxed::new(alloc, Formula::False)?,
        Boxed::new(alloc, Formula::True)?,
    );
    let low = Boxed::new(alloc, Refutation::Unclosed)?;
    let high = Boxed::new(alloc, Refutation::Absurd { at: 0 })?;
    let left = Boxed::new(alloc, Refutation::Absurd { at: 0 })?;
    let right = Boxed::new(alloc, Refutation::Unclosed)?;
    let unfinished = Refutation::Split { at: 0, left, right };
    assert!(rt; turns(&formula, &unfinished) == Some(1));
    assert!(rt; !check(&formula, &unfinished));
    let branch = Refutation::Branch {
        variable: Variable(0),
        k: 0,
        low,
        high,
    };
    assert!(rt; turns(&Formula::False, &branch) == Some(2));
    assert!(rt; turns(&formula, &branch).is_none());
    assert!(rt; turns(&Formula::False, &Refutation::Absurd { at: 0 }).is_none());
    Ok(())
}

#[test]
fn trees_of_any_shape_are_dropped(rt: HostRuntime) -> Result<(), Fail> {
    let alloc = rt.alloc();
    let mut low = Refutation::Unclosed;
    let mut high = Refutation::Unclosed;
    for _ in 0..200_000u32 {
        low = branch(
            alloc,
            low,
            branch(alloc, Refutation::Unclosed, Refutation::Unclosed)?,
        )?;
        high = branch(
            alloc,
            branch(alloc, Refutation::Unclosed, Refutation::Unclosed)?,
            high,
        )?;
    }
    let _both = branch(alloc, low, high)?;
    Ok(())
}

#[test]
fn long_chains_are_checked_and_dropped(rt: HostRuntime) -> Result<(), Fail> {
    let alloc = rt.alloc();
    for to_the_low_side in [true, false] {
        let mut tree = Refutation::Absurd { at: 0 };
        for _ in 0..20_000u32 {
            let leaf = Refutation::Absurd { at: 0 };
            if to_the_low_side {
                tree = branch(alloc, tree, leaf)?;
            } else {
                tree = branch(alloc, leaf, tree)?;
            }
        }
        assert!(rt; check(&Formula::False, &tree));
        assert!(rt; !check(&Formula::True, &tree));
    }
    Ok(())
}

#[test]
fn chains_that_turn_are_checked(rt: HostRuntime) -> Result<(), Fail> {
    let alloc = rt.alloc();
    let mut tree = Refutation::Absurd { at: 0 };
    for level in 0..20_000u32 {
        let low = Refutation::Absurd { at: 0 };
        let high = Refutation::Absurd { at: 0 };
        let beside = branch(alloc, low, high)?;
        if level % 2 == 0 {
            tree = branch(alloc, tree, beside)?;
        } else {
            tree = branch(alloc, beside, tree)?;
        }
    }
    assert!(rt; check(&Formula::False, &tree));
    assert!(rt; !check(&Formula::True, &tree));
    Ok(())
}

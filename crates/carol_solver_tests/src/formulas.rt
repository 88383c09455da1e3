use carol_formula::{Formula, NARROW_LIMIT, Term, TermError, Valuation, Variable};
use std::alloc::{AllocError, Global};
use std::test::Fail;

// The sum of products of the variables 0, 1 and 2, in which a zero is left out, and a constant.
fn term(alloc: Global, coefficients: [i128; 3], rest: i128) -> Result<Term, TermError> {
    let mut sum = Term::constant(alloc, 0);
    let x = Term::variable(alloc, Variable(0))?.scale(coefficients[0])?;
    let y = Term::variable(alloc, Variable(1))?.scale(coefficients[1])?;
    let z = Term::variable(alloc, Variable(2))?.scale(coefficients[2])?;
    for part in [&z, &x, &y] {
        sum = sum.add(part)?;
    }
    let one = constant_one(alloc);
    sum.add(&one.scale(rest)?)
}

fn constant_one(alloc: Global) -> Term {
    Term::constant(alloc, 1)
}

fn is_too_wide(outcome: Result<Term, TermError>) -> bool {
    match outcome {
        Err(TermError::TooWide) => true,
        _ => false,
    }
}

fn at(alloc: Global, x: i128, y: i128, z: i128) -> Result<Valuation, AllocError> {
    let mut at = Valuation::new(alloc);
    at.set(Variable(2), z)?;
    at.set(Variable(0), x)?;
    at.set(Variable(1), y)?;
    Ok(at)
}

// The variable is at most 0.
fn at_most_zero(alloc: Global, v: u32) -> Result<Formula, AllocError> {
    Ok(Formula::Le(Term::variable(alloc, Variable(v))?))
}

fn is_not_zero(alloc: Global, v: u32) -> Result<Formula, AllocError> {
    Ok(Formula::Ne(Term::variable(alloc, Variable(v))?))
}

#[test]
fn terms_are_kept_in_normal_form(rt: HostRuntime) -> Result<(), Fail> {
    let alloc = rt.alloc();
    let one = term(alloc, [3, -2, 0], 5)?;
    let other = term(alloc, [0, 2, 1], -7)?;
    let sum = one.add(&other)?;
    assert_eq!(rt; sum.pairs().len(), 2);
    assert!(rt; sum.pairs()[0] == (Variable(0), 3) && sum.pairs()[1] == (Variable(2), 1));
    assert_eq!(rt; sum.rest(), -2);
    let difference = one.sub(&other)?;
    assert_eq!(rt; difference.pairs().len(), 3);
    assert!(rt; difference.pairs()[1] == (Variable(1), -4) && difference.rest() == 12);
    let tripled = one.scale(-3)?;
    assert_eq!(rt; tripled.pairs().len(), 2);
    assert!(rt; tripled.pairs()[0] == (Variable(0), -9) && tripled.rest() == -15);
    let none = one.scale(0)?.copy()?;
    assert!(rt; none.pairs().len() == 0 && none.rest() == 0);
    Ok(())
}

#[test]
fn wide_numbers_are_refused(rt: HostRuntime) -> Result<(), Fail> {
    let alloc = rt.alloc();
    let most = (1 << 100) - 1;
    let constant = Term::constant(alloc, most);
    let one = Term::constant(alloc, 1);
    assert!(rt; is_too_wide(constant.add(&one)));
    assert!(rt; is_too_wide(constant.scale(2)));
    assert_eq!(rt; constant.sub(&one)?.rest(), most - 1);
    let x = Term::variable(alloc, Variable(0))?;
    assert_eq!(rt; x.scale(most)?.pairs().len(), 1);
    assert_eq!(rt; x.scale(-most)?.pairs().len(), 1);
    assert!(rt; is_too_wide(x.scale(most + 1)));
    assert!(rt; is_too_wide(x.scale(i128::MIN)));
    Ok(())
}

#[test]
fn values_and_their_bound(rt: HostRuntime) -> Result<(), Fail> {
    let alloc = rt.alloc();
    let t = term(alloc, [3, -2, 0], 5)?;
    let here = at(alloc, 2, 5, 1000)?;
    assert!(rt; t.fits(&here));
    assert_eq!(rt; t.value(&here), 1);
    let far = at(alloc, 1 << 125, 0, 0)?;
    assert!(rt; !t.fits(&far));
    let wide = at(alloc, i128::MAX, i128::MIN, 0)?;
    assert!(rt; !t.fits(&wide));
    Ok(())
}

#[test]
fn valuations(rt: HostRuntime) -> Result<(), Fail> {
    let alloc = rt.alloc();
    let mut numbers = at(alloc, 7, -8, 9)?;
    numbers.set(Variable(1), 80)?;
    let copied = numbers.copy()?;
    numbers.set(Variable(0), 0)?;
    assert!(rt; numbers.get(Variable(0)) == 0 && numbers.get(Variable(1)) == 80);
    assert!(rt; copied.get(Variable(0)) == 7 && copied.get(Variable(2)) == 9);
    assert_eq!(rt; copied.get(Variable(3)), 0);
    Ok(())
}

#[test]
fn a_term_is_put_in_under_a_denial(rt: HostRuntime) -> Result<(), Fail> {
    let alloc = rt.alloc();
    // 2 * 2^99 is too wide, and 2 * 2^99 - 1 is not.
    let t = term(alloc, [2, -1, 0], 0)?;
    let by = Term::variable(alloc, Variable(1))?.scale(1 << 99)?;
    let denial = Formula::not(alloc, Formula::Le(t))?;
    let put_in = denial.substitute(alloc, Variable(0), &by)?;
    let here = at(alloc, -5, 1, 0)?;
    assert!(rt; denial.fits(&here) && put_in.fits(&here));
    assert!(rt; !denial.holds(&here));
    assert!(rt; put_in.holds(&here));
    let wider = by.scale(-1)?;
    assert!(rt; denial.substitute(alloc, Variable(0), &wider).is_err());
    Ok(())
}

#[test]
fn a_denial_is_pushed_to_the_comparisons(rt: HostRuntime) -> Result<(), Fail> {
    let alloc = rt.alloc();
    let some = Formula::or(
        alloc,
        is_not_zero(alloc, 1)?,
        Formula::not(alloc, at_most_zero(alloc, 2)?)?,
    )?;
    let formula = Formula::not(alloc, Formula::and(alloc, at_most_zero(alloc, 0)?, some)?)?;
    assert!(rt; formula.is_within(NARROW_LIMIT));
    let plain = formula.negation_form(alloc)?;
    // x > 0, or y is 0 and z <= 0
    let table = [
        (0, 0, 0, true),
        (0, 1, 0, false),
        (0, 0, 1, false),
        (1, 1, 1, true),
        (-1, 0, -1, true),
    ];
    for (x, y, z, expected) in table {
        let here = at(alloc, x, y, z)?;
        assert!(rt; formula.fits(&here) && plain.fits(&here));
        assert_eq!(rt; formula.holds(&here), expected);
        assert_eq!(rt; plain.holds(&here), expected);
    }
    assert!(rt; matches!(&plain, Formula::Or(_, _)));
    assert_eq!(rt; plain.cases(), 2);
    Ok(())
}

#[test]
fn cases_are_counted_up_to_a_million(rt: HostRuntime) -> Result<(), Fail> {
    let alloc = rt.alloc();
    let mut formula = is_not_zero(alloc, 0)?;
    for _ in 1..19u32 {
        formula = Formula::and(alloc, is_not_zero(alloc, 0)?, formula)?;
    }
    assert_eq!(rt; formula.cases(), 524_288);
    let more = Formula::or(alloc, formula.copy(alloc)?, at_most_zero(alloc, 1)?)?;
    assert_eq!(rt; more.cases(), 524_289);
    let most = Formula::and(alloc, formula, more)?;
    assert_eq!(rt; most.cases(), 1_000_001);
    Ok(())
}

// All that is asked of a formula of any shape.
fn survives(
    rt: &impl std::process::Abort,
    alloc: Global,
    formula: Formula,
) -> Result<(), AllocError> {
    let here = Valuation::new(alloc);
    assert!(rt; formula.fits(&here));
    assert!(rt; formula.holds(&here));
    assert!(rt; formula.is_within(NARROW_LIMIT));
    let denied = Formula::not(alloc, formula.copy(alloc)?)?;
    assert!(rt; denied.is_within(NARROW_LIMIT));
    let plain = denied.negation_form(alloc)?;
    assert!(rt; plain.fits(&here));
    assert!(rt; !plain.holds(&here));
    Ok(())
}

#[test]
fn a_chain_may_be_deep(rt: HostRuntime) -> Result<(), Fail> {
    let alloc = rt.alloc();
    let mut right = at_most_zero(alloc, 0)?;
    let mut left = at_most_zero(alloc, 0)?;
    for _ in 0..4096u32 {
        right = Formula::and(alloc, at_most_zero(alloc, 0)?, right)?;
        left = Formula::and(alloc, left, at_most_zero(alloc, 0)?)?;
    }
    survives(&rt, alloc, right)?;
    survives(&rt, alloc, left)?;
    Ok(())
}

#[test]
fn a_tree_of_any_depth_is_dropped(rt: HostRuntime) -> Result<(), Fail> {
    let alloc = rt.alloc();
    let mut left = Formula::True;
    let mut right = Formula::False;
    for _ in 0..200_000u32 {
        left = Formula::and(
            alloc,
            left,
            Formula::or(alloc, Formula::True, Formula::False)?,
        )?;
        right = Formula::or(
            alloc,
            Formula::and(alloc, Formula::True, Formula::False)?,
            right,
        )?;
    }
    let _both = Formula::and(alloc, left, right)?;
    Ok(())
}

#[test]
fn a_tree_may_be_large(rt: HostRuntime) -> Result<(), Fail> {
    let alloc = rt.alloc();
    let mut tree = at_most_zero(alloc, 0)?;
    for _ in 0..15u32 {
        let twin = tree.copy(alloc)?;
        tree = Formula::and(alloc, twin, tree)?;
    }
    survives(&rt, alloc, tree)?;
    Ok(())
}

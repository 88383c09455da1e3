use carol_formula::{Boxed, Formula, Naming, Term, Valuation, Variable, renamed};
use std::alloc::{AllocError, Global};
use std::test::Fail;

// The variables 0 and 1 change places.
struct Exchange;

impl Naming for Exchange {
    ghost use Rattle.std.specs.Prelude.{◌≤◌, ◌-◌};
    ghost use Rattle.carol_formula.specs.Linear.{variable_of};

    ghost name_of = { λ _ v. variable_of (1 - v) };

    ghost can_name = { λ _ v. v ≤ 1 };

    fn name(&self, alloc: Global, v: Variable) -> Result<Term, AllocError> {
        Term::variable(alloc, Variable(1 - v.0))
    }
}

#[test]
fn what_changes_places_is_replaced_at_once(rt: HostRuntime) -> Result<(), Fail> {
    let alloc = rt.alloc();
    let x_is_zero = Boxed::new(alloc, Formula::Eq(Term::variable(alloc, Variable(0))?))?;
    let y_is_not = Boxed::new(alloc, Formula::Ne(Term::variable(alloc, Variable(1))?))?;
    let formula = Formula::And(x_is_zero, y_is_not);
    let exchanged = renamed(alloc, &formula, &Exchange)?;
    let mut at = Valuation::new(alloc);
    at.set(Variable(1), 5)?;
    assert!(rt; formula.fits(&at) && formula.holds(&at));
    assert!(rt; exchanged.fits(&at) && !exchanged.holds(&at));
    Ok(())
}

ghost use Rattle.std.specs.Prelude.{◌≡◌, ◌≢◌, Err, Ok, IfOk};
ghost use Rattle.carol_accord.specs.Formed.{stepped_name};

use carol_formula::{Naming, Term, TermError, Variable};
use carol_program::FIRST_THERE;
use carol_store::{CellKind, Direction};
use std::alloc::{AllocError, Global};

/// Both stores are the one that is read.
#[derive(Clone, Copy)]
pub(crate) struct EqualNames;

impl Naming for EqualNames {
    ghost use Rattle.std.specs.Prelude.{⊤};
    ghost use Rattle.carol_accord.specs.Formed.{equal_name};

    ghost name_of = { λ n v. equal_name v };

    ghost can_name = { λ n v. ⊤ };

    fn name(&self, alloc: Global, v: Variable) -> Result<Term, AllocError> {
        if v.0 < FIRST_THERE {
            Term::variable(alloc, v)
        } else {
            Term::variable(alloc, Variable(v.0 - FIRST_THERE))
        }
    }
}

/// The cell of the global store, which is of this kind, has made its step.
#[derive(Clone, Copy)]
pub(crate) struct StepNames {
    pub(crate) kind: CellKind,
    pub(crate) direction: Direction,
}

impl Naming for StepNames {
    ghost use Rattle.std.specs.Prelude.{◌<◌};
    ghost use Rattle.carol_program.specs.Limits.{most_cells};
    ghost use Rattle.carol_accord.specs.Formed.{step_name};

    ghost name_of = { λ n v. step_name n.kind n.direction v };

    ghost can_name = { λ n v. n.direction.cell < most_cells };

    fn name(&self, alloc: Global, v: Variable) -> Result<Term, AllocError> {
        if v.0 == FIRST_THERE + self.direction.cell {
            stepped_name(alloc, self.kind, self.direction.up, v)
        } else {
            Term::variable(alloc, v)
        }
    }
}

// The term, which isn't too wide.
fn narrow(made: Result<Term, TermError>) -> Result<Term, AllocError>
    requires { made ≢ Err TermError.TooWide }
    ensures { IfOk result (λ t. made ≡ Ok t) }
{
    match made {
        Ok(term) => Ok(term),
        Err(TermError::NoMemory) => Err(AllocError),
        Err(TermError::TooWide) => unreachable!(),
    }
}

// The value of a cell of this kind after one step.
fn stepped_name(alloc: Global, kind: CellKind, up: bool, v: Variable) -> Result<Term, AllocError>
    ensures { IfOk result (λ t. t ≡ stepped_name kind up v) }
{
    let one = Term::constant(alloc, 1);
    match kind {
        CellKind::Flag => Ok(one),
        CellKind::Counter if !up => narrow(Term::variable(alloc, v)?.sub(&one)),
        CellKind::Counter | CellKind::Peak => narrow(Term::variable(alloc, v)?.add(&one)),
    }
}

ghost use Rattle.std.specs.Prelude.{◌≡◌, ◌<◌, ◌≤◌, slice_get, IfOk};
ghost use Rattle.carol_formula.specs.Weight.{weight};
ghost use Rattle.carol_obligation.specs.Budget.{AreLightParts, amount_limit};
ghost use Rattle.carol_obligation.specs.Formed.{after_name, done_name};
ghost use Rattle.carol_program.specs.Limits.{most_statements};
ghost use Rattle.carol_obligation.specs.Decoded.{round_variable};

use carol_formula::{Naming, Term, Variable, plus};
use carol_program::{FIRST_THERE, Part, RESULT_VARIABLE, STORE_VARIABLES, query_variable};
use carol_reading::amount_for;
use carol_store::CellKind;
use std::alloc::{AllocError, Global};

/// In the invariant a cell is that of the store of a round.
#[derive(Clone, Copy)]
pub(crate) struct RoundNames {
    pub(crate) round: u32,
}

impl Naming for RoundNames {
    ghost use Rattle.std.specs.Prelude.{◌<◌, ◌≤◌};
    ghost use Rattle.carol_program.specs.Limits.{most_statements};
    ghost use Rattle.carol_obligation.specs.Formed.{round_name};

    ghost name_of = { λ n v. round_name n.round v };

    ghost can_name = { λ n v. (v < 16) × (n.round ≤ most_statements) };

    fn name(&self, alloc: Global, v: Variable) -> Result<Term, AllocError> {
        Term::variable(alloc, Variable(round_variable(self.round, v.0)))
    }
}

/// In a guard `here` is the store of a query, and `there` that of a round.
#[derive(Clone, Copy)]
pub(crate) struct GuardNames {
    pub(crate) slot: u32,
    pub(crate) round: u32,
}

impl Naming for GuardNames {
    ghost use Rattle.std.specs.Prelude.{◌<◌, ◌≤◌};
    ghost use Rattle.carol_program.specs.Limits.{most_statements, most_queries};
    ghost use Rattle.carol_obligation.specs.Formed.{guard_name};

    ghost name_of = { λ n v. guard_name n.slot n.round v };

    ghost can_name = { λ n v. (v < 32) × (n.slot < most_queries) × (n.round ≤ most_statements) };

    fn name(&self, alloc: Global, v: Variable) -> Result<Term, AllocError> {
        if v.0 < FIRST_THERE {
            Term::variable(alloc, Variable(query_variable(self.slot, v.0)))
        } else {
            Term::variable(
                alloc,
                Variable(round_variable(self.round, v.0 - FIRST_THERE)),
            )
        }
    }
}

/// In the invariant a cell is that of the store of a round after an issue of these parts.
#[derive(Clone, Copy)]
pub(crate) struct AfterNames<'a> {
    pub(crate) kinds: &'a [CellKind],
    pub(crate) parts: &'a [Part],
    pub(crate) round: u32,
}

impl<'a> Naming for AfterNames<'a> {
    ghost use Rattle.std.specs.Prelude.{◌<◌, ◌≤◌};
    ghost use Rattle.std.specs.List.{AllByRecursion};
    ghost use Rattle.carol_program.specs.Limits.{most_statements};
    ghost use Rattle.carol_obligation.specs.Formed.{after_name};
    ghost use Rattle.carol_obligation.specs.Budget.{AreLightParts};

    ghost name_of = { λ n v. after_name n.kinds.now n.parts.now n.round v };

    ghost can_name = { λ n v. (v < 16) × (n.round ≤ most_statements) × AreLightParts n.parts.now };

    fn name(&self, alloc: Global, v: Variable) -> Result<Term, AllocError> {
        after_name(alloc, self.kinds, self.parts, self.round, v.0)
    }
}

// A cell after an issue of these parts in a round.
fn after_name(
    alloc: Global,
    kinds: &[CellKind],
    parts: &[Part],
    round: u32,
    cell: u32,
) -> Result<Term, AllocError>
    requires cell { cell < 16 }
    requires round { round ≤ most_statements }
    requires light { AreLightParts parts.now }
    ensures { IfOk result (λ t. t ≡ after_name kinds.now parts.now round cell) }
{
    let Some(amount) = amount_for(cell, parts) else {
        return Term::variable(alloc, Variable(round_variable(round, cell)));
    };
    let done = done_name(alloc, round, cell, kind_at(kinds, cell), amount)?;
    Ok(done)
}

/// The kind of the cell, if there is one.
pub(crate) fn kind_at(kinds: &[CellKind], cell: u32) -> Option<CellKind>
    ensures { result ≡ slice_get kinds.now cell }
{
    kinds.get(cell as usize).copied()
}

// A cell after this is done to it in a round.
fn done_name(
    alloc: Global,
    round: u32,
    cell: u32,
    kind: Option<CellKind>,
    amount: &Term,
) -> Result<Term, AllocError>
    requires round { round ≤ most_statements }
    requires cell { cell < 16 }
    requires light { weight amount.now < amount_limit }
    ensures { IfOk result (λ t. t ≡ done_name round cell kind amount.now) }
{
    let before = Term::variable(alloc, Variable(round_variable(round, cell)))?;
    match kind {
        None => Ok(before),
        Some(CellKind::Counter) => plus(&before, amount),
        Some(CellKind::Peak) => Term::variable(alloc, Variable(cell)),
        Some(CellKind::Flag) => Ok(Term::constant(alloc, 1)),
    }
}

/// In a refinement the result is this value.
#[derive(Clone, Copy)]
pub(crate) struct ResultNames<'a> {
    pub(crate) value: &'a Term,
}

impl<'a> Naming for ResultNames<'a> {
    ghost use Rattle.std.specs.Prelude.{⊤};
    ghost use Rattle.carol_obligation.specs.Formed.{result_name};

    ghost name_of = { λ n v. result_name n.value.now v };

    ghost can_name = { λ n v. ⊤ };

    fn name(&self, alloc: Global, v: Variable) -> Result<Term, AllocError> {
        if v.0 == RESULT_VARIABLE {
            return self.value.copy();
        }
        Term::variable(alloc, v)
    }
}

/// The variable of the first cell of the store of the first round.
pub const FIRST_ROUND: u32 = 192;

/// A cell of the store of a round, the first of which is 0.
pub fn round_variable(round: u32, cell: u32) -> u32
    requires round { round ≤ most_statements }
    requires cell { cell < 16 }
    ensures { result ≡ round_variable round cell }
{
    FIRST_ROUND + STORE_VARIABLES * round + cell
}

ghost use Rattle.std.specs.Prelude.{◌≡◌, ◌≤◌, ◌<◌, ◌^◌, pos, IfOk};
ghost use Rattle.carol_formula.specs.Claim as claim;
ghost use Rattle.carol_formula.specs.Tree.{claim_of};
ghost use Rattle.carol_formula.specs.Weight.{weight};
ghost use Rattle.carol_program.specs.Rows.{at_most};
ghost use Rattle.carol_obligation.specs.Formed.{too_large, most_of};

use carol_formula::{Boxed, Formula, Term, plus};
use carol_program::at_most;
use carol_store::{CellKind, MOST_AMOUNT, MOST_TARGET};
use std::alloc::{AllocError, Global};

/// The same formula.
pub(crate) fn copied(alloc: Global, formula: &Boxed<Formula>) -> Result<Boxed<Formula>, AllocError>
    ensures { IfOk result (λ f. f ≡ formula.now) }
{
    let same = formula.get().copy(alloc)?;
    let same = Boxed::new(alloc, same)?;
    Ok(same)
}

// The largest amount of such a cell, in absolute value.
fn most_of(kind: CellKind) -> i128
    ensures { result ≡ pos (most_of kind) }
{
    match kind {
        CellKind::Counter => MOST_AMOUNT as i128,
        CellKind::Peak => MOST_TARGET as i128,
        CellKind::Flag => 1,
    }
}

/// The term is larger than an amount of such a cell, or smaller than the least one.
pub(crate) fn too_large(alloc: Global, kind: CellKind, term: &Term) -> Result<Formula, AllocError>
    requires { weight term.now < 2 ^ 89 }
    ensures { IfOk result (λ f. claim_of f ≡ too_large kind term.now) }
{
    let beyond = Term::constant(alloc, most_of(kind) + 1);
    let above = at_most(&beyond, term)?;
    let below = Formula::Le(plus(term, &beyond)?);
    Formula::or(alloc, above, below)
}

/// The variable of a raised peak is the greater of the cell of the round and the target.
pub(crate) fn tie(
    alloc: Global,
    cell: &Term,
    peak: &Term,
    target: &Term,
) -> Result<Formula, AllocError>
    requires target { weight target.now < 2 ^ 89 }
    requires cell { weight cell.now ≤ 1 }
    requires peak { weight peak.now ≤ 1 }
    ensures { IfOk result (λ f. claim_of f ≡ claim.And
        (claim.And (at_most cell.now peak.now) (at_most target.now peak.now))
        (claim.Or (at_most peak.now cell.now) (at_most peak.now target.now))) }
{
    let first = at_most(cell, peak)?;
    let second = at_most(target, peak)?;
    let least = Formula::and(alloc, first, second)?;
    let one = at_most(peak, cell)?;
    let other = at_most(peak, target)?;
    let most = Formula::or(alloc, one, other)?;
    Formula::and(alloc, least, most)
}

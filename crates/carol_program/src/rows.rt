//! Rows that say of the cells of a store what their kinds let them hold, as formulas.
ghost use Rattle.std.specs.Prelude.{◌≡◌, ◌+◌, ◌<◌, ◌^◌, length, IfOk};
ghost use Rattle.carol_formula.specs.Bounds.{term_limit};
ghost use Rattle.carol_formula.specs.Claim as claim;
ghost use Rattle.carol_formula.specs.Tree.{claim_of};
ghost use Rattle.carol_formula.specs.Weight.{weight};
ghost use Rattle.carol_program.specs.Rows.{at_most, is_flag, with_kind, with_kinds};

use carol_formula::{Boxed, Formula, Term, TermError, Variable};
use carol_store::CellKind;
use std::alloc::{AllocError, Global};

/// What is known, and this.
pub fn with_more(
    alloc: Global,
    known: Boxed<Formula>,
    more: Formula,
) -> Result<Boxed<Formula>, AllocError>
    ensures { IfOk result (λ f. claim_of f ≡ claim.And (claim_of known) (claim_of more)) }
{
    let more = Boxed::new(alloc, more)?;
    let both = Boxed::new(alloc, Formula::And(known, more))?;
    Ok(both)
}

/// The one term is at most the other. Their difference is a term.
pub fn at_most(one: &Term, other: &Term) -> Result<Formula, AllocError>
    requires { weight one.now + weight other.now < term_limit }
    ensures { IfOk result (λ f. claim_of f ≡ at_most one.now other.now) }
{
    match one.sub(other) {
        Ok(difference) => Ok(Formula::Le(difference)),
        Err(TermError::NoMemory) => Err(AllocError),
        Err(TermError::TooWide) => unreachable!(),
    }
}

// The variable is 0 or 1.
fn is_flag(alloc: Global, v: u32) -> Result<Formula, AllocError>
    ensures { IfOk result (λ f. claim_of f ≡ is_flag v) }
{
    let flag = Term::variable(alloc, Variable(v))?;
    let least = at_most(&Term::constant(alloc, 0), &flag)?;
    let most = at_most(&flag, &Term::constant(alloc, 1))?;
    Formula::and(alloc, least, most)
}

// What is known, and that the variable is what a cell of this kind may hold.
fn with_kind(
    alloc: Global,
    kind: CellKind,
    v: u32,
    known: Boxed<Formula>,
) -> Result<Boxed<Formula>, AllocError>
    ensures { IfOk result (λ f. claim_of f ≡ with_kind kind v (claim_of known)) }
{
    match kind {
        CellKind::Counter | CellKind::Peak => Ok(known),
        CellKind::Flag => {
            let flag = is_flag(alloc, v)?;
            with_more(alloc, known, flag)
        }
    }
}

/// What is known, and that the cells of the store with the variables from `base` on are what cells
/// of these kinds may hold.
pub fn with_kinds(
    alloc: Global,
    kinds: &[CellKind],
    base: u32,
    known: Boxed<Formula>,
) -> Result<Boxed<Formula>, AllocError>
    requires { base + length kinds.now < 2 ^ 32 }
    ensures { IfOk result (λ f. claim_of f ≡ with_kinds kinds.now base (claim_of known)) }
{
    let mut known = known;
    let mut left = kinds;
    let mut variable = base;
    while let Some((kind, more)) = left.split_first() {
        known = with_kind(alloc, *kind, variable, known)?;
        variable += 1;
        left = more;
    }
    Ok(known)
}

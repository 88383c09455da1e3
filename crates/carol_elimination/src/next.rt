ghost use Rattle.std.specs.Prelude.{◌≡◌, ◌<◌, [], ◌∷◌, length, map, IsTrue, List, ℕ, flat_map, IfOk, IfErr, OnOk};
ghost use Rattle.std.specs.List.{filter};
ghost use Rattle.carol_formula.specs.Linear.{Linear};
ghost use Rattle.carol_elimination.specs.Tightened.{tightened};
ghost use Rattle.carol_elimination.specs.Stage.{least, combinations, next};
ghost use Rattle.carol_elimination.specs.Derived.{IsPair};
ghost use Rattle.carol_elimination.specs.Free.{IsFree};
ghost use Rattle.carol_elimination.specs.Stands.{Stand};
ghost use Rattle.carol_elimination.specs.Entries.{row_in, rows_in, AreInside, Grow};
ghost use Rattle.carol_elimination.specs.Extends.{Extend};
ghost use Rattle.carol_elimination.specs.Sides.{is_of, ArePairs, AreAllPairs, KeepDerived, IsStop};

use crate::allowance::Allowance;
use crate::arena::Arena;
use crate::combination::combine;
use crate::stage::Stage;
use carol_cert::RowStep;
use carol_formula::{TermError, Variable};
use std::alloc::{AllocError, Global};

/// What a row says of a variable.
#[derive(Clone, Copy)]
pub enum Side {
    /// Nothing: it has no such variable.
    Free,
    /// It bounds it above.
    Upper,
    /// It bounds it below.
    Lower,
}

/// Why there is no next stage.
#[derive(Clone, Copy)]
pub enum Stop {
    /// The least combination of the two rows has a number that is not below 2^100 in absolute
    /// value.
    Wide { upper: u32, lower: u32 },
    /// Memory ran out.
    NoMemory,
}

impl From<AllocError> for Stop {
    ghost use Rattle.std.specs.Prelude.{◌≡◌};
    ghost use Rattle.carol_elimination.specs.declared.next.Stop.TheVariants.{NoMemory};

    ghost from_gives = { λ _ e. e ≡ NoMemory };

    fn from(_: AllocError) -> Stop {
        Stop::NoMemory
    }
}

// Whether the row says this of the variable.
fn is_of(side: Side, x: Variable, arena: &Arena, at: u32) -> bool
    requires { at < length arena.now }
    ensures { result ≡ is_of side x (row_in arena.now at) }
{
    let coefficient = arena.row(at).coefficient(x);
    match side {
        Side::Free => coefficient == 0,
        Side::Upper => coefficient > 0,
        Side::Lower => coefficient < 0,
    }
}

// The rows that say this of the variable.
fn select(
    alloc: Global,
    arena: &Arena,
    rows: &[u32],
    x: Variable,
    side: Side,
) -> Result<Vec<u32>, AllocError>
    requires { AreInside arena.now rows.now }
    ensures inside { IfOk result (λ v. AreInside arena.now v.items) }
    ensures filter { IfOk result (λ v. rows_in arena.now v.items
        ≡ filter (is_of side x) (rows_in arena.now rows.now)) }
{
    let mut selected = Vec::new(alloc);
    for at in rows {
        if is_of(side, x, arena, *at) {
            selected.push(*at)?;
        }
    }
    Ok(selected)
}

// Takes rows that were made before.
fn keep_all(stage: &mut Stage, arena: &Arena, rows: &[u32]) -> Result<(), AllocError>
    requires stage_inside { AreInside arena.now stage.old.rows.items }
    requires rows_inside { AreInside arena.now rows.now }
    ensures inside { OnOk result (AreInside arena.now stage.new.rows.items) }
    ensures extend { OnOk result (Extend (rows_in arena.now stage.old.rows.items)
        (rows_in arena.now stage.new.rows.items) (rows_in arena.now rows.now)) }
{
    for at in rows {
        stage.keep(arena, *at)?;
    }
    Ok(())
}

// Takes the least combination of two rows.
fn combine_two(
    stage: &mut Stage,
    arena: &mut Arena,
    x: Variable,
    upper: u32,
    lower: u32,
) -> Result<(), Stop>
    requires inside { AreInside arena.old stage.old.rows.items }
    requires upper { upper < length arena.old }
    requires lower { lower < length arena.old }
    requires pair { IsPair x (row_in arena.old upper) (row_in arena.old lower) }
    ensures inside { OnOk result (AreInside arena.new stage.new.rows.items) }
    ensures extend { OnOk result (Extend (rows_in arena.old stage.old.rows.items)
        (rows_in arena.new stage.new.rows.items)
        (tightened (least x (row_in arena.old upper) (row_in arena.old lower)) ∷ [])) }
    ensures grow { OnOk result (Grow arena.old arena.new) }
    ensures derived { OnOk result (KeepDerived arena.old arena.new) }
    ensures stop { IfErr result (IsStop x arena.old arena.new) }
{
    match combine(x, arena.row(upper), arena.row(lower)) {
        Ok(made) => {
            let step = RowStep::Combine {
                a: upper,
                m: made.m,
                b: lower,
                n: made.n,
            };
            stage.add(arena, step, made.row)?;
            Ok(())
        }
        Err(TermError::TooWide) => Err(Stop::Wide { upper, lower }),
        Err(TermError::NoMemory) => Err(Stop::NoMemory),
    }
}

// Takes the least combinations of a row that bounds the variable above with each one below.
fn combine_one(
    stage: &mut Stage,
    arena: &mut Arena,
    x: Variable,
    upper: u32,
    lowers: &[u32],
) -> Result<(), Stop>
    requires inside { AreInside arena.old stage.old.rows.items }
    requires upper { upper < length arena.old }
    requires lowers { AreInside arena.old lowers.now }
    requires pairs { ArePairs x (row_in arena.old upper) (rows_in arena.old lowers.now) }
    ensures inside { OnOk result (AreInside arena.new stage.new.rows.items) }
    ensures extend { OnOk result (Extend (rows_in arena.old stage.old.rows.items)
        (rows_in arena.new stage.new.rows.items)
        (combinations x (rows_in arena.old lowers.now) (row_in arena.old upper))) }
    ensures grow { OnOk result (Grow arena.old arena.new) }
    ensures derived { OnOk result (KeepDerived arena.old arena.new) }
    ensures stop { IfErr result (IsStop x arena.old arena.new) }
{
    for lower in lowers {
        combine_two(stage, arena, x, upper, *lower)?;
    }
    Ok(())
}

// Takes the least combinations of each row that bounds the variable above with each one below.
fn combine_all(
    stage: &mut Stage,
    arena: &mut Arena,
    x: Variable,
    uppers: &[u32],
    lowers: &[u32],
    allowance: &mut Allowance,
) -> Result<(), Stop>
    requires inside { AreInside arena.old stage.old.rows.items }
    requires uppers { AreInside arena.old uppers.now }
    requires lowers { AreInside arena.old lowers.now }
    requires pairs { AreAllPairs x (rows_in arena.old uppers.now) (rows_in arena.old lowers.now) }
    ensures inside { OnOk result (AreInside arena.new stage.new.rows.items) }
    ensures extend { OnOk result (Extend (rows_in arena.old stage.old.rows.items)
        (rows_in arena.new stage.new.rows.items)
        (flat_map (combinations x (rows_in arena.old lowers.now)) (rows_in arena.old uppers.now))) }
    ensures grow { OnOk result (Grow arena.old arena.new) }
    ensures derived { OnOk result (KeepDerived arena.old arena.new) }
    ensures stop { IfErr result (IsStop x arena.old arena.new) }
{
    for upper in uppers {
        allowance.take(lowers.len())?;
        combine_one(stage, arena, x, *upper, lowers)?;
    }
    Ok(())
}

/// The stage after the variable is eliminated. No row of the stage before has a variable below it.
/// Beyond what is allowed there is no room for more rows.
pub fn next(
    alloc: Global,
    arena: &mut Arena,
    rows: &[u32],
    x: Variable,
    allowance: &mut Allowance,
) -> Result<Vec<u32>, Stop>
    requires inside { AreInside arena.old rows.now }
    requires lowest { (v : ℕ) → v < x → IsFree v (rows_in arena.old rows.now) }
    ensures inside { IfOk result (λ v. AreInside arena.new v.items) }
    ensures stand { IfOk result (λ v.
        Stand (rows_in arena.new v.items) (next x (rows_in arena.old rows.now))) }
    ensures grow { OnOk result (Grow arena.old arena.new) }
    ensures derived { OnOk result (KeepDerived arena.old arena.new) }
    ensures stop { IfErr result (IsStop x arena.old arena.new) }
{
    allowance.take(rows.len())?;
    let free = select(alloc, arena, rows, x, Side::Free)?;
    let uppers = select(alloc, arena, rows, x, Side::Upper)?;
    let lowers = select(alloc, arena, rows, x, Side::Lower)?;
    let mut stage = Stage::new(alloc);
    keep_all(&mut stage, arena, &free)?;
    combine_all(&mut stage, arena, x, &uppers, &lowers, allowance)?;
    Ok(stage.into_rows())
}

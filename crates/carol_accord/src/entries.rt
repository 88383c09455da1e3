ghost use Rattle.std.specs.Prelude.{◌≡◌, IfOk, IfErr, OnOk};
ghost use Rattle.carol_formula.specs.Tree.{claim_of};
ghost use Rattle.carol_program.specs.Accords.{HasWay};
ghost use Rattle.carol_program.specs.Rules.{rules_in};
ghost use Rattle.carol_program.specs.WellFormed.{AreRules};
ghost use Rattle.carol_reading.specs.Good.{IsReflexive};
ghost use Rattle.carol_accord.specs.Inferred.{steps_of, FailsReflexive, StaysUndecided};
ghost use Rattle.carol_accord.specs.Parts.{
  IsGuard,
  IsEntry,
  IsAccord,
  AreAll,
  StopsEqual,
  StopsStep,
  Stops,
};

use crate::deciding::decided;
use crate::error::AccordError;
use crate::formulas::{equal_formula, step_formula};
use crate::steps::all_steps;
use carol_decide::{Aim, Answer, Wish};
use carol_formula::{Formula, Variable};
use carol_program::{Entry, EntryList, Place, Program};
use carol_store::Direction;
use std::alloc::{AllocError, Global};

// The numbers of a store are wished to be those of the initial one.
fn initial_wishes(alloc: Global, program: &Program) -> Result<Vec<Wish>, AllocError> {
    let mut wishes = Vec::new(alloc);
    for cell in 0..program.initial.len() {
        let value = program.initial.get(cell);
        wishes.push(Wish {
            variable: Variable(cell),
            aim: Aim::Number(i128::from(value)),
        })?;
    }
    Ok(wishes)
}

// Whether the guard, which has this number, is true of any two equal stores.
fn check_reflexive(
    alloc: Global,
    program: &Program,
    number: u32,
    guard: &Formula,
) -> Result<(), AccordError>
    requires { IsGuard (rules_in program.now).shape (claim_of guard.now) }
    ensures ok { OnOk result (IsReflexive (rules_in program.now) (claim_of guard.now)) }
    ensures err { IfErr result (StopsEqual (rules_in program.now) number (claim_of guard.now)) }
{
    let formula = equal_formula(alloc, program.shape.kinds(), guard)?;
    let wishes = initial_wishes(alloc, program)?;
    match decided(alloc, &formula, &wishes)? {
        Answer::Unsat(_) => Ok(()),
        Answer::Sat(at) => Err(AccordError::NotReflexive { guard: number, at }),
        Answer::Undecided(why) => {
            let place = Place::Reflexive { guard: number };
            Err(AccordError::Undecided { place, why })
        }
    }
}

// Whether the step keeps the guard, which has this number.
fn entry(
    alloc: Global,
    program: &Program,
    number: u32,
    guard: &Formula,
    step: Direction,
) -> Result<Entry, AccordError>
    requires guard { IsGuard (rules_in program.now).shape (claim_of guard.now) }
    requires step { HasWay (rules_in program.now).shape step.cell step.up }
    ensures ok { IfOk result (IsEntry (rules_in program.now).shape (claim_of guard.now) step) }
    ensures err { IfErr result (StopsStep (rules_in program.now) number (claim_of guard.now) step) }
{
    let kinds = program.shape.kinds();
    let kind = kinds[step.cell as usize];
    let formula = step_formula(alloc, kinds, guard, kind, step)?;
    match decided(alloc, &formula, &[])? {
        Answer::Unsat(_) => Ok(Entry::Yes),
        Answer::Sat(at) => Ok(Entry::No(at)),
        Answer::Undecided(why) => {
            let place = Place::Accord {
                guard: number,
                cell: step.cell,
                up: step.up,
            };
            Err(AccordError::Undecided { place, why })
        }
    }
}

// The entries of the guard, which has this number, for these steps, which are all.
fn guard_entries(
    alloc: Global,
    program: &Program,
    number: u32,
    guard: &Formula,
    steps: &[Direction],
) -> Result<EntryList, AccordError>
    requires guard { IsGuard (rules_in program.now).shape (claim_of guard.now) }
    requires steps { steps.now ≡ steps_of (rules_in program.now).shape }
    ensures ok { IfOk result (IsAccord (rules_in program.now) (claim_of guard.now)) }
    ensures err { IfErr result (Stops (rules_in program.now) number (claim_of guard.now)) }
{
    check_reflexive(alloc, program, number, guard)?;
    let mut entries = EntryList::new(alloc);
    let mut left = steps;
    while let Some((step, more)) = left.split_first() {
        let own = entry(alloc, program, number, guard, *step)?;
        entries.push(own)?;
        left = more;
    }
    Ok(entries)
}

/// The entries of all guards, in order.
pub(crate) fn all_entries(alloc: Global, program: &Program) -> Result<EntryList, AccordError>
    requires { AreRules (rules_in program.now) }
    ensures ok { let p = rules_in program.now in IfOk result (AreAll p p.guards) }
    ensures not_reflexive { IfErr result (FailsReflexive (rules_in program.now)) }
    ensures undecided { IfErr result (StaysUndecided (rules_in program.now)) }
{
    let steps = all_steps(alloc, program.shape.kinds())?;
    let mut all = EntryList::new(alloc);
    let mut number = 0;
    let mut left = program.guards.as_slice();
    while let Some((guard, more)) = left.split_first() {
        let own = guard_entries(alloc, program, number, &guard.formula, steps.as_slice())?;
        all.append(own)?;
        number += 1;
        left = more;
    }
    Ok(all)
}

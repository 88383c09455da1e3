ghost use Rattle.std.specs.Prelude.{◌↔◌, IsTrue, IfOk, IfErr};
ghost use Rattle.carol_accept.specs.Refusals.{
  AreReflexive,
  HandsBack,
  IsFault,
  IsKeptAs,
  IsRefusedFor,
  StartsWell,
};
ghost use Rattle.carol_accord.specs.Inferred.{HasWitnesses};
ghost use Rattle.carol_program.specs.Accords.{IsTable};
ghost use Rattle.carol_program.specs.Preserving.{IsRight};
ghost use Rattle.carol_program.specs.Rules.{rules_in};
ghost use Rattle.carol_program.specs.WellFormed.{AreRules, IsWellFormed};
ghost use Rattle.carol_reading.specs.Good.{IsAccepted};

use crate::refused::Refused;
use carol_accord::{AccordError, infer};
use carol_program::{AccordTable, OneStore, Program};
use carol_reading::Accepted;
use carol_typecheck::{Verdict, typecheck};
use std::alloc::Global;
use std::thread::Threads;

// The invariant is true of the initial store.
fn starts_well(program: &Program) -> bool
    requires { AreRules (rules_in program.now) }
    ensures { IsTrue result ↔ StartsWell (rules_in program.now) }
{
    let _words = program.initial.values();
    program.invariant.holds(&OneStore(&program.initial))
}

// Accepts the program with this table where its operations are good.
fn accept_with<R: Threads + Sync>(
    rt: &R,
    alloc: Global,
    program: Program,
    accords: AccordTable,
) -> Result<Accepted, Refused>
    requires well_formed { IsWellFormed (rules_in program) program.names }
    requires starts { StartsWell (rules_in program) }
    requires right { IsRight (rules_in program) accords }
    requires whole { IsTable accords }
    requires witnesses { HasWitnesses (rules_in program).shape (rules_in program).guards accords }
    requires reflexive { AreReflexive (rules_in program) }
    ensures accepted { IfOk result (IsKeptAs program) }
    ensures refused { IfErr result (IsRefusedFor (rules_in program)) }
    ensures program { IfErr result (HandsBack program) }
    ensures fault { IfErr result (λ r. IsFault r → ¬ IsAccepted (rules_in program)) }
{
    match typecheck(rt, alloc, &program) {
        Ok(Verdict::Good) => Ok(Accepted::new(program, accords)),
        Ok(Verdict::Fails(place, at)) => Err(Refused::Fails(program, place, at)),
        Ok(Verdict::Undecided(place, why)) => Err(Refused::Undecided(program, place, why)),
        Err(_) => Err(Refused::NoMemory),
    }
}

/// Accepts the program where the invariant is true of its initial store, each guard of any two
/// equal stores, and every operation is good. These are asked in this order, behind each guard
/// whether the steps of the cells keep it, and the first that isn't proved is answered:
/// `InitialFails`, `NotReflexive` and `Fails` exactly where it isn't so, with what shows it, and
/// `Undecided` with the reason. The program is well formed.
pub fn accept<R: Threads + Sync>(
    rt: &R,
    alloc: Global,
    program: Program,
) -> Result<Accepted, Refused>
    requires { IsWellFormed (rules_in program) program.names }
    ensures accepted { IfOk result (IsKeptAs program) }
    ensures refused { IfErr result (IsRefusedFor (rules_in program)) }
    ensures program { IfErr result (HandsBack program) }
    ensures fault { IfErr result (λ r. IsFault r → ¬ IsAccepted (rules_in program)) }
{
    if !starts_well(&program) {
        return Err(Refused::InitialFails(program));
    }
    match infer(alloc, &program) {
        Ok(accords) => accept_with(rt, alloc, program, accords),
        Err(AccordError::NotReflexive { guard, at }) => {
            Err(Refused::NotReflexive(program, guard, at))
        }
        Err(AccordError::Undecided { place, why }) => Err(Refused::Undecided(program, place, why)),
        Err(AccordError::NoMemory) => Err(Refused::NoMemory),
    }
}

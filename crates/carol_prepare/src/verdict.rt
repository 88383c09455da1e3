ghost use Rattle.std.specs.Prelude.{◌≡◌, option_map, IfErr, IfOk, IsSome};
ghost use Rattle.carol_accept.specs.Refusals.{IsKeptAs};
ghost use Rattle.carol_accept.specs.Verdicts.{HasRules};
ghost use Rattle.carol_prepare.specs.Verdicts.{IsToldRefused, verdict_answer};
ghost use Rattle.carol_program.specs.Rules.{rules_in};
ghost use Rattle.carol_program.specs.WellFormed.{IsWellFormed};
ghost use Rattle.carol_reply.specs.Reply.{HaltSays, HaltTells};

use carol_accept::{Refused, accept, verdict_text};
use carol_program::Program;
use carol_reading::Accepted;
use carol_reply::{Halt, Reply, Status};
use std::alloc::Global;
use std::thread::Threads;

/// The program with its table of accords, if it is accepted. The program is well formed.
pub fn accepted<R: Threads + Sync>(
    rt: &R,
    alloc: Global,
    program: Program,
) -> Result<Accepted, Halt>
    requires { IsWellFormed (rules_in program) program.names }
    ensures kept { IfOk result (IsKeptAs program) }
    ensures told { IfErr result (HaltSays (IsToldRefused program)) }
{
    match accept(rt, alloc, program) {
        Ok(accepted) => Ok(accepted),
        Err(refused) => Err(refusal(alloc, &refused)),
    }
}

// Tells why a program isn't accepted.
fn refusal(alloc: Global, refused: &Refused) -> Halt
    requires { IsSome (verdict_answer refused.now) → HasRules refused.now }
    ensures { HaltTells (verdict_answer refused.now) result }
{
    match verdict_status(refused) {
        Some(status) => match verdict_text(alloc, refused) {
            Ok(text) => Halt::Told(Reply { status, text }),
            Err(_) => Halt::NoMemory,
        },
        None => Halt::NoMemory,
    }
}

// The status of a refusal, unless memory ran out.
fn verdict_status(refused: &Refused) -> Option<Status>
    ensures { result ≡ option_map (λ answer. answer.0) (verdict_answer refused.now) }
{
    match refused {
        Refused::InitialFails(_) | Refused::NotReflexive(..) | Refused::Fails(..) => {
            Some(Status::Refused)
        }
        Refused::Undecided(..) => Some(Status::Undecided),
        Refused::NoMemory => None,
    }
}

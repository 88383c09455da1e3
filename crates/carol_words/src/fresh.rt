ghost use Rattle.std.specs.Prelude.{IfErr, IfOk};
ghost use Rattle.carol_prepare.specs.Parts.{IsFit};
ghost use Rattle.carol_prepare.specs.Verdicts.{IsToldRefused};
ghost use Rattle.carol_reply.specs.Reply.{HaltSays};
ghost use Rattle.carol_words.specs.Fresh.{IsFresh};

use carol_house::House;
use carol_prepare::{Placed, accepted};
use carol_reply::Halt;
use std::alloc::Global;
use std::thread::Threads;

/// The house of the program in the scene, before its first event, if the program is accepted.
pub fn fresh_house<R: Threads + Sync>(rt: &R, alloc: Global, placed: Placed) -> Result<House, Halt>
    requires { IsFit placed.program placed.scene }
    ensures fresh { IfOk result (IsFresh placed.program placed.scene) }
    ensures told { IfErr result (HaltSays (IsToldRefused placed.program)) }
{
    let Placed { program, scene } = placed;
    let accepted = accepted(rt, alloc, program)?;
    Ok(House::new(alloc, accepted, scene)?)
}

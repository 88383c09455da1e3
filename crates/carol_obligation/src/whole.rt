ghost use Rattle.std.specs.Prelude.{OnOk};
ghost use Rattle.carol_program.specs.Rules.{rules_in};
ghost use Rattle.carol_program.specs.WellFormed.{AreRules};
ghost use Rattle.carol_obligation.specs.Places.{obligations_of};
ghost use Rattle.carol_obligation.specs.Passing.{Passes};

use crate::body::walk;
use crate::collector::Collector;
use carol_program::Program;
use std::alloc::{AllocError, Global};

/// Hands over the obligations of all operations of a program, in the order of the text.
pub fn walk_all<C: Collector>(
    alloc: Global,
    program: &Program,
    collector: &mut C,
) -> Result<(), AllocError>
    requires needs { C.needs }
    requires rules { AreRules (rules_in program.now) }
    ensures { OnOk result
        (Passes C.holds collector.old collector.new (obligations_of (rules_in program.now))) }
{
    let mut left = program.ops.as_slice();
    let mut number = 0;
    while let Some((op, more)) = left.split_first() {
        walk(alloc, program, op, number, collector)?;
        number += 1;
        left = more;
    }
    Ok(())
}

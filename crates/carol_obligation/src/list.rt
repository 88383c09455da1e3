ghost use Rattle.std.specs.Prelude.{◌≡◌, IfOk};
ghost use Rattle.std.specs.List.{AllZip};
ghost use Rattle.carol_program.specs.Rules.{rules_in};
ghost use Rattle.carol_program.specs.WellFormed.{AreRules};
ghost use Rattle.carol_obligation.specs.Places.{obligations_of};
ghost use Rattle.carol_obligation.specs.Listed.{AreNarrow, IsOwedAt, owed_in};
ghost use Rattle.carol_obligation.specs.Spots.{spots_of};

use crate::collector::Collector;
use crate::whole::walk_all;
use carol_formula::Formula;
use carol_program::{Place, Program};
use sqlite_items::Items;
use std::alloc::{AllocError, Global};

/// What is owed at a place: the formula is true of exactly the numbers that are no breach there.
#[derive(Debug, Drop)]
pub struct Obligation {
    pub place: Place,
    pub formula: Formula,
}

/// Obligations in the order of the text.
pub type ObligationList = Items<Obligation>;

// Keeps all that it takes.
#[derive(Drop)]
struct Keeper {
    list: ObligationList,
}

impl Collector for Keeper {
    ghost use Rattle.carol_obligation.specs.Keeping.{AreKept};

    ghost holds = { λ keeper taken. AreKept keeper.list taken };

    fn take(&mut self, _alloc: Global, place: Place, formula: Formula) -> Result<(), AllocError> {
        self.list.push(Obligation { place, formula })
    }
}

/// All that a program owes, its places in the order of the text. Each formula is true of exactly
/// the numbers that are no breach at its place. No number in it or in its denial is 2^90 or more
/// in absolute value, and neither has more than 65,536 nodes.
pub fn obligations(alloc: Global, program: &Program) -> Result<ObligationList, AllocError>
    requires { AreRules (rules_in program.now) }
    ensures formulas { IfOk result (λ list. owed_in list ≡ obligations_of (rules_in program.now)) }
    ensures exact { let p = rules_in program.now in
        IfOk result (λ list. AllZip (IsOwedAt p) list (spots_of p)) }
    ensures narrow { IfOk result AreNarrow }
{
    let mut keeper = Keeper {
        list: Items::new(alloc),
    };
    walk_all(alloc, program, &mut keeper)?;
    Ok(keeper.list)
}

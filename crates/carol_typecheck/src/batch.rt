ghost use Rattle.std.specs.Prelude.{◌≡◌, [], ◌∷◌, ◌++◌, IfOk, OnOk};
ghost use Rattle.carol_formula.specs.Tree.{claim_of};
ghost use Rattle.carol_obligation.specs.Budget.{IsDecidable};
ghost use Rattle.carol_obligation.specs.Listed.{owed_in};
ghost use Rattle.carol_typecheck.specs.Formulas.{IsVerdictOn};

use crate::aims::Aims;
use crate::judge::{judge_all, judge_shared};
use crate::verdict::Verdict;
use carol_obligation::Obligation;
use std::alloc::{AllocError, Global};
use std::marker::Model;
use std::thread::Threads;

// How many obligations are decided at a time, and how many nodes their formulas have, about.
const MOST_WAITING: usize = 1_024;

const MOST_NODES: u32 = 262_144;

// From how many nodes on it is worth a thread to decide them.
const LEAST_SHARED: u32 = 512;

/// Obligations that wait to be decided, and that can be.
#[derive(Drop)]
pub(crate) struct Batch {
    waiting: Vec<Obligation>,
    // Those of all their formulas, which say only how these are decided.
    nodes: u32,
}

impl Model for Batch {
    ghost use Rattle.std.specs.Prelude.{List};
    ghost use Rattle.std.specs.Coded.{coded_list};
    ghost use Rattle.carol_obligation.specs.contracts.list.Obligation.{the_row};
    ghost use Rattle.carol_obligation.specs.declared.list.Obligation.{Obligation};
    ghost use Rattle.carol_obligation.specs.Keeping.{AreDecidable};

    ghost Value = { List Obligation };

    ghost coded = { coded_list the_row.coded };

    ghost view = { λ b. b.waiting.items };

    ghost invariant = { λ b. AreDecidable b.waiting.items };
}

impl Batch {
    /// None that wait.
    pub(crate) fn new(alloc: Global) -> Batch
        ensures { result ≡ [] }
    {
        Batch {
            waiting: Vec::new(alloc),
            nodes: 0,
        }
    }

    /// No more are to be taken before these are decided.
    pub(crate) fn is_full(&self) -> bool {
        self.waiting.len() >= MOST_WAITING || self.nodes >= MOST_NODES
    }

    /// One more.
    pub(crate) fn push(&mut self, obligation: Obligation) -> Result<(), AllocError>
        requires { IsDecidable (claim_of obligation.formula) }
        ensures { OnOk result (self.new ≡ self.old ++ obligation ∷ []) }
    {
        let nodes = obligation.formula.nodes();
        self.waiting.push(obligation)?;
        self.nodes = self.nodes.saturating_add(nodes);
        Ok(())
    }

    /// The verdict on all of them, which are shared out where there is enough to do.
    pub(crate) fn verdict<R: Threads + Sync>(
        &self,
        rt: &R,
        alloc: Global,
        aims: Aims<'_>,
    ) -> Result<Verdict, AllocError>
        ensures { IfOk result (IsVerdictOn (owed_in self.now)) }
    {
        if self.nodes < LEAST_SHARED {
            return judge_all(alloc, aims, self.waiting.as_slice());
        }
        judge_shared(rt, alloc, aims, self.waiting.as_slice())
    }

    /// None of them waits any more.
    pub(crate) fn clear(&mut self)
        ensures { self.new ≡ [] }
    {
        self.waiting.clear();
        self.nodes = 0;
    }
}

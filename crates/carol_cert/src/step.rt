ghost use Rattle.std.specs.Prelude.{◌≡◌, [], ◌++◌, ◌∷◌, MatchOption, OnOk, OnErr};

use std::alloc::{AllocError, Global};
use std::marker::Model;

/// A step that makes a row, the claim that a linear term is at most 0. Rows count from 0, in the
/// order in which the steps make them.
#[derive(Clone, Copy, Debug, PartialEq, Eq)]
pub enum RowStep {
    /// The term of formula `at`, a `Le` or an `Eq`.
    Given { at: u32 },
    /// The negated term of formula `at`, an `Eq`.
    Reversed { at: u32 },
    /// Row `a` taken `m` times plus row `b` taken `n` times, with `m` and `n` at least 0.
    Combine { a: u32, m: i128, b: u32, n: i128 },
    /// Row `a` divided by `d`, which is above 0 and divides each coefficient. Read as `t <= c`, the
    /// row becomes `t/d <= floor(c/d)`.
    Tighten { a: u32, d: i128 },
}

/// Steps in order, seen as their list.
#[derive(Debug, Drop)]
pub struct StepList {
    steps: Vec<RowStep>,
}

impl Model for StepList {
    ghost use Rattle.std.specs.Prelude.{List};
    ghost use Rattle.carol_cert.specs.declared.step.RowStep.{RowStep};

    ghost Value = { List RowStep };

    ghost view = { λ list. list.steps.items };
}

impl StepList {
    /// No steps.
    pub fn new(alloc: Global) -> StepList
        ensures { result ≡ [] }
    {
        StepList {
            steps: Vec::new(alloc),
        }
    }

    /// Appends a step. Without memory the list stays as it was.
    pub fn push(&mut self, step: RowStep) -> Result<(), AllocError>
        ensures ok { OnOk result (self.new ≡ self.old ++ step ∷ []) }
        ensures err { OnErr result (self.new ≡ self.old) }
    {
        self.steps.push(step)?;
        Ok(())
    }

    /// Takes the last step, if there is one.
    pub fn pop(&mut self) -> Option<RowStep>
        ensures { MatchOption result ((self.old ≡ []) × (self.new ≡ []))
            (λ last. self.old ≡ self.new ++ last ∷ []) }
    {
        self.steps.pop()
    }

    /// The steps in order.
    pub fn as_slice(&self) -> &[RowStep]
        ensures { result.now ≡ self.now }
    {
        self.steps.as_slice()
    }
}

ghost use Rattle.std.specs.Prelude.{◌≡◌, ◌+◌, ◌<◌, ◌++◌, ◌∷◌, [], length, take, IfOk, OnErr};
ghost use Rattle.carol_elimination.specs.Entries.{steps_of, row_in};

use carol_cert::{RowStep, StepList};
use carol_formula::Term;
use std::alloc::{AllocError, Global};
use std::marker::Model;

/// Rows in the order in which they were made, each with the step that made it of given rows and of
/// the rows before it.
#[derive(Debug, Drop)]
pub struct Arena {
    entries: Vec<(RowStep, Term)>,
}

impl Model for Arena {
    ghost use Rattle.std.specs.Prelude.{List};
    ghost use Rattle.carol_cert.specs.declared.step.RowStep.{RowStep};
    ghost use Rattle.carol_formula.specs.Linear.{Linear};

    ghost Value = { List (RowStep × Linear) };

    ghost view = { λ arena. arena.entries.items };
}

// How many rows there is room for.
const MOST_ROWS: usize = 20_000;

impl Arena {
    /// No rows.
    pub fn new(alloc: Global) -> Arena
        ensures { result ≡ [] }
    {
        Arena {
            entries: Vec::new(alloc),
        }
    }

    /// The row with the number.
    pub fn row(&self, at: u32) -> &Term
        requires { at < length self.now }
        ensures { result.now ≡ row_in self.now at }
    {
        &self.entries[at as usize].1
    }

    /// Appends a row, whose number it answers. There is no room for more than 20,000 rows.
    pub fn push(&mut self, step: RowStep, row: Term) -> Result<u32, AllocError>
        ensures number { IfOk result (λ at. at ≡ length self.old) }
        ensures ok { IfOk result (λ _. self.new ≡ self.old ++ (step, row) ∷ []) }
        ensures err { OnErr result (self.new ≡ self.old) }
    {
        let number = self.entries.len();
        if number >= MOST_ROWS {
            return Err(AllocError);
        }
        self.entries.push((step, row))?;
        Ok(number as u32)
    }

    /// The steps up to the row with the number.
    pub fn steps_to(&self, alloc: Global, at: u32) -> Result<StepList, AllocError>
        requires { at < length self.now }
        ensures { IfOk result (λ steps. steps ≡ steps_of (take (at + 1) self.now)) }
    {
        let mut steps = StepList::new(alloc);
        let (front, _) = self.entries.split_at(at as usize + 1);
        for entry in front {
            steps.push(entry.0)?;
        }
        Ok(steps)
    }
}

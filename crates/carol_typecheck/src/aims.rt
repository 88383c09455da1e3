//! Which numbers of a breach a reader would pick.

use crate::rounds::Rounds;
use carol_decide::{Aim, Wish};
use carol_formula::Variable;
use carol_obligation::FIRST_ROUND;
use carol_program::{FIRST_PARAMETER, FIRST_QUERIED, Op, Place, Program, STORE_VARIABLES};
use carol_store::CellKind;
use std::alloc::{AllocError, Global};

// The variable of a cell of the store with this number.
fn cell_variable(first: u32, store: u32, cell: u32) -> Variable {
    let before = store.saturating_mul(STORE_VARIABLES);
    Variable(first.saturating_add(before).saturating_add(cell))
}

/// What a breach is told by: small parameters, the store at the start, and stores that are equal
/// but for what breaks.
#[derive(Clone, Copy)]
pub(crate) struct Aims<'a> {
    program: &'a Program,
    // The operation that places speak of, where it is none of the program's own.
    op: Option<&'a Op>,
}

impl<'a> Aims<'a> {
    /// For the program's operations.
    pub(crate) fn new(program: &'a Program) -> Aims<'a> {
        Aims { program, op: None }
    }

    /// For one operation, whatever its number is.
    pub(crate) fn only(program: &'a Program, op: &'a Op) -> Aims<'a> {
        Aims {
            program,
            op: Some(op),
        }
    }

    // The operation with this number.
    fn op(&self, number: u32) -> Option<&'a Op> {
        match self.op {
            Some(op) => Some(op),
            None => self.program.ops.as_slice().get(number as usize),
        }
    }

    // The operation and the statement that the place is at.
    fn statement(&self, place: Place) -> Option<(&'a Op, u32)> {
        match place {
            Place::Amount { op, number, .. }
            | Place::Invariant { op, number }
            | Place::Outcome { op, number } => Some((self.op(op)?, number)),
            Place::Initial | Place::Reflexive { .. } | Place::Accord { .. } => None,
        }
    }

    /// What the numbers of a breach at the place are wished to be.
    pub(crate) fn wishes(&self, alloc: Global, place: Place) -> Result<Vec<Wish>, AllocError> {
        let mut wishes = Vec::new(alloc);
        let Some((op, statement)) = self.statement(place) else {
            return Ok(wishes);
        };
        let rounds = Rounds::new(alloc, &op.body, statement)?;
        let params = u32::try_from(op.params.len()).unwrap_or(u32::MAX);
        for param in 0..params {
            wishes.push(Wish {
                variable: Variable(FIRST_PARAMETER.saturating_add(param)),
                aim: Aim::Number(0),
            })?;
        }
        self.push_rounds(alloc, &mut wishes, &rounds)?;
        self.push_queries(&mut wishes, &rounds)?;
        self.push_peaks(&mut wishes, &rounds, params)?;
        Ok(wishes)
    }

    // The cells of the own round, and behind them those of the rounds before it.
    fn push_rounds(
        &self,
        alloc: Global,
        wishes: &mut Vec<Wish>,
        rounds: &Rounds,
    ) -> Result<(), AllocError> {
        let mut later = None;
        for round in &rounds.shown(alloc)? {
            for cell in 0..self.program.initial.len() {
                let value = self.program.initial.get(cell);
                let aim = match later {
                    Some(later) => Aim::Like(cell_variable(FIRST_ROUND, later, cell)),
                    None => Aim::Number(i128::from(value)),
                };
                let variable = cell_variable(FIRST_ROUND, *round, cell);
                wishes.push(Wish { variable, aim })?;
            }
            later = Some(*round);
        }
        Ok(())
    }

    // The cells of each query's store, which are to be those of its round.
    fn push_queries(&self, wishes: &mut Vec<Wish>, rounds: &Rounds) -> Result<(), AllocError> {
        for asked in &rounds.asked {
            for cell in 0..self.program.initial.len() {
                let variable = cell_variable(FIRST_QUERIED, asked.slot, cell);
                let aim = Aim::Like(cell_variable(FIRST_ROUND, asked.round, cell));
                wishes.push(Wish { variable, aim })?;
            }
        }
        Ok(())
    }

    // The peaks behind a raise, which are equal to what stood before it, or to what they are raised
    // to.
    fn push_peaks(
        &self,
        wishes: &mut Vec<Wish>,
        rounds: &Rounds,
        params: u32,
    ) -> Result<(), AllocError> {
        for (cell, kind) in self.program.shape.kinds().iter().enumerate() {
            if *kind == CellKind::Peak {
                let cell = cell as u32;
                let variable = Variable(cell);
                let before = Aim::With(cell_variable(FIRST_ROUND, rounds.own, cell));
                wishes.push(Wish {
                    variable,
                    aim: before,
                })?;
                for param in 0..params {
                    let aim = Aim::With(Variable(FIRST_PARAMETER.saturating_add(param)));
                    wishes.push(Wish { variable, aim })?;
                }
            }
        }
        Ok(())
    }
}

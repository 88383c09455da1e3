//! In which rounds of an operation its queries and a place stand.

use carol_program::Step;
use std::alloc::{AllocError, Global};

// How many statements a body has at most.
const MOST_STATEMENTS: u32 = 65_536;

/// A query by its slot, and the round that it belongs to, from 0.
#[derive(Debug, Clone, Copy)]
pub(crate) struct Asked {
    pub slot: u32,
    pub round: u32,
}

/// The queries of a body, and the round of one of its statements.
#[derive(Debug, Drop)]
pub(crate) struct Rounds {
    pub asked: Vec<Asked>,
    pub own: u32,
}

// A statement that is still to be looked at, and its round.
#[derive(Clone, Copy)]
struct Spot<'a> {
    step: &'a Step,
    round: u32,
}

impl Rounds {
    /// Those of the body, for the statement with this number.
    pub(crate) fn new(alloc: Global, body: &Step, statement: u32) -> Result<Rounds, AllocError> {
        let mut rounds = Rounds {
            asked: Vec::new(alloc),
            own: 0,
        };
        let mut waiting = Vec::new(alloc);
        waiting.push(Spot {
            step: body,
            round: 0,
        })?;
        for _ in 0..MOST_STATEMENTS {
            let Some(spot) = waiting.pop() else {
                break;
            };
            let found = rounds.look(&mut waiting, spot)?;
            if found == statement {
                rounds.own = spot.round;
            }
        }
        Ok(rounds)
    }

    // Looks at one statement, and gives its number. What stands behind it waits.
    fn look<'a>(&mut self, waiting: &mut Vec<Spot<'a>>, spot: Spot<'a>) -> Result<u32, AllocError> {
        let Spot { step, round } = spot;
        match step {
            Step::Query {
                number,
                slot,
                next,
                ..
            } => {
                self.asked.push(Asked { slot: *slot, round })?;
                let step = next.get();
                waiting.push(Spot { step, round })?;
                Ok(*number)
            }
            Step::Issue { number, next, .. } | Step::Release { number, next } => {
                let step = next.get();
                let round = round.saturating_add(1);
                waiting.push(Spot { step, round })?;
                Ok(*number)
            }
            Step::Branch {
                number,
                yes,
                no,
                ..
            } => {
                let step = no.get();
                waiting.push(Spot { step, round })?;
                let step = yes.get();
                waiting.push(Spot { step, round })?;
                Ok(*number)
            }
            Step::Return { number, .. } => Ok(*number),
        }
    }

    /// The rounds that a query belongs to, and the own one, up to the own one and from that on
    /// downwards.
    pub(crate) fn shown(&self, alloc: Global) -> Result<Vec<u32>, AllocError> {
        let mut shown = Vec::new(alloc);
        shown.push(self.own)?;
        for _ in 0..self.asked.len() {
            let mut next = None;
            for asked in &self.asked {
                let is_next = match next {
                    Some(round) => asked.round > round,
                    None => true,
                };
                if is_next && shown.last().is_some_and(|last: &u32| asked.round < *last) {
                    next = Some(asked.round);
                }
            }
            match next {
                Some(round) => shown.push(round)?,
                None => break,
            }
        }
        Ok(shown)
    }
}

ghost use Rattle.std.specs.Prelude.{◌≡◌, ◌<◌, ◌+◌, length};
ghost use Rattle.carol_program.specs.Bodies.{body_of};
ghost use Rattle.carol_store.specs.declared.short_list.TheConstants.{MOST_CELLS};
ghost use Rattle.carol_accept.specs.Fitting.{StandsBehind};
ghost use Rattle.carol_accept.specs.Lines.{shown_for, asks_in};
ghost use Rattle.carol_accept.specs.Trails.{behind_closing, behind_query, number_of, start, trail_to};

use carol_program::Step;
use carol_store::ShortList;
use std::alloc::Global;

/// A query on the way to a statement: its slot, and the round that it belongs to, from 0.
#[derive(Clone, Copy, Debug, Default)]
pub(crate) struct Asked {
    pub slot: u32,
    pub round: u32,
}

/// How a body comes to a statement: the queries on the way, in order, and how many rounds are over.
#[derive(Debug, Drop)]
pub(crate) struct Trail {
    pub asked: ShortList<Asked>,
    pub rounds: u32,
}

impl Trail {
    /// At the beginning of a body.
    pub(crate) fn new(alloc: Global) -> Trail
        ensures { result ≡ start }
    {
        Trail {
            asked: ShortList::new(alloc),
            rounds: 0,
        }
    }

    fn copy(&self) -> Trail
        ensures { result ≡ self.now }
    {
        Trail {
            asked: self.asked.copy(),
            rounds: self.rounds,
        }
    }

    // Behind a query into the slot.
    fn ask(&mut self, slot: u32)
        requires { length self.old.asked < MOST_CELLS }
        ensures { self.new ≡ behind_query slot self.old }
    {
        self.asked.push(Asked {
            slot,
            round: self.rounds,
        });
    }

    // Behind an issue or a release.
    fn close(&mut self)
        requires { self.old.rounds + 1 < u32.MAX }
        ensures { self.new ≡ behind_closing self.old }
    {
        self.rounds += 1;
    }

    // One of the queries belongs to the round.
    fn asks_in(&self, round: u32) -> bool
        ensures { result ≡ asks_in round self.now.asked }
    {
        let mut left = self.asked.as_slice();
        while let Some((first, more)) = left.split_first() {
            if first.round == round {
                return true;
            }
            left = more;
        }
        false
    }

    /// The round whose numbers are shown for this one.
    pub(crate) fn shown_for(&self, round: u32) -> u32
        ensures { result ≡ shown_for self.now round }
    {
        if self.asks_in(round) {
            round
        } else {
            self.rounds
        }
    }
}

// The number of the first statement.
fn number_of(step: &Step) -> u32
    ensures { result ≡ number_of (body_of step.now) }
{
    match step {
        Step::Query { number, .. }
        | Step::Issue { number, .. }
        | Step::Release { number, .. }
        | Step::Branch { number, .. }
        | Step::Return { number, .. } => *number,
    }
}

/// The trail to the statement with this number, behind the trail to the body.
pub(crate) fn trail_to(wanted: u32, body: &Step, trail: Trail) -> Option<Trail>
    requires { StandsBehind trail (body_of body.now) }
    ensures { result ≡ trail_to wanted (body_of body.now) trail }
{
    let mut trail = trail;
    let mut step = body;
    loop {
        if number_of(step) == wanted {
            return Some(trail);
        }
        match step {
            Step::Query { slot, next, .. } => {
                trail.ask(*slot);
                step = next.get();
            }
            Step::Issue { next, .. } => {
                trail.close();
                step = next.get();
            }
            Step::Release { next, .. } => {
                trail.close();
                step = next.get();
            }
            Step::Branch { yes, no, .. } => {
                if let Some(found) = trail_to(wanted, yes.get(), trail.copy()) {
                    return Some(found);
                }
                step = no.get();
            }
            Step::Return { .. } => return None,
        }
    }
}

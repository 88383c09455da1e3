ghost use Rattle.std.specs.Prelude.{◌≡◌, ◌<◌, ◌≤◌, ◌+◌, true, All, IfOk, IfSome, IfNone, length};
ghost use Rattle.crossbeam_queue.specs.Passes.{IsPassOf, ruled_capacity, view as hand_of};
ghost use Rattle.carol_worker.specs.Hands.{maker, times};
ghost use Rattle.carol_worker.specs.Rosters.{HasEnough, IsNewOf, IsOf, with_session};

use crate::rule::{HandPass, Joins, Line, Puts, Takes};
use std::alloc::{AllocError, Global};
use std::marker::Model;
use std::sync::Wait;

/// The sessions that wait for a worker, by number. Contracts see it as the queue that it is, and
/// how many sessions were put in.
#[derive(Drop)]
pub struct Roster {
    line: Line,
    count: u32,
}

impl Model for Roster {
    ghost use Rattle.carol_worker.specs.Rosters.{Roster};

    ghost Value = { Roster };

    ghost view = { λ r. record { table = r.line.table.shared.table_id; count = r.count } };
}

/// The right to take sessions from a roster. Contracts see it as the queue of which it is, how many
/// sessions were put in before it was made, whether it is the only one, and the sessions that it
/// took.
#[derive(Drop)]
pub struct Taker {
    pass: HandPass,
}

impl Model for Taker {
    ghost use Rattle.std.specs.Prelude.{◌≡◌, []};
    ghost use Rattle.crossbeam_queue.specs.Passes.{view as hand_of};
    ghost use Rattle.carol_worker.specs.Rosters.{Taker, taker_of};

    ghost Value = { Taker };

    ghost view = { λ t. taker_of t.pass.table_id (hand_of t.pass) };

    ghost invariant = { λ t. t.pass.me.1 ≡ [] };
}

/// Takers in the order in which they were made.
pub type TakerList = Vec<Taker>;

// Puts the maker's count in, for which there is room.
fn put<R: Wait>(rt: &R, line: &Line, pass: &mut HandPass, session: u32)
    requires pass { IsPassOf line.now pass.old }
    requires room { session < ruled_capacity line.now }
    requires view { hand_of pass.old ≡ maker session }
    ensures pass { IsPassOf line.now pass.new }
    ensures view { hand_of pass.new ≡ maker (session + 1) }
{
    // By the rule the queue is no longer than the count, so it isn't full.
    let _put = line.push_as::<Puts, R>(rt, pass, session);
}

impl Roster {
    /// A roster in which the sessions below `sessions` were put, with that many takers. There are 1
    /// to 64 sessions and 1 to 16 takers.
    pub fn new<R: Wait>(
        rt: &R,
        alloc: Global,
        sessions: u32,
        takers: u32,
    ) -> Result<(Roster, TakerList), AllocError>
        requires some_session { 1 ≤ sessions }
        requires few_sessions { sessions ≤ 64 }
        requires some_taker { 1 ≤ takers }
        requires few_takers { takers ≤ 16 }
        ensures count { IfOk result (λ made. made.0.count ≡ sessions) }
        ensures takers { IfOk result (λ made. length made.1.items ≡ takers) }
        ensures new { IfOk result (λ made. All (IsNewOf made.0) made.1.items) }
        ensures alone { takers ≡ 1 → IfOk result (λ made.
            All (λ taker. taker.alone ≡ true) made.1.items) }
    {
        let (line, mut pass) = Line::ruled(alloc, sessions as usize)?;
        for session in 0..sessions {
            put(rt, &line, &mut pass, session);
        }
        let mut list = Vec::new(alloc);
        for _taker in 1..takers {
            let pass = line.another::<Joins>(&mut pass);
            list.push(Taker { pass })?;
        }
        // The maker's own pass is the last taker's.
        list.push(Taker { pass })?;
        let roster = Roster {
            line,
            count: sessions,
        };
        Ok((roster, list))
    }

    /// How many sessions were put in.
    pub fn count(&self) -> u32
        ensures { result ≡ self.now.count }
    {
        self.count
    }

    /// Takes a session, which the taker didn't have; no other taker gets it. None is answered only
    /// where the roster was empty at a moment of the call, so that an only taker took each session.
    /// The taker is of this roster.
    pub fn take<R: Wait>(&self, rt: &R, taker: &mut Taker) -> Option<u32>
        requires { IsOf self.now taker.old }
        ensures roster { IsOf self.now taker.new }
        ensures some { IfSome result (λ session. (times session taker.old.taken ≡ 0)
            × (taker.new ≡ with_session taker.old session)) }
        ensures none { IfNone result ((taker.new ≡ taker.old) × HasEnough taker.old) }
    {
        self.line.pop_as::<Takes, R>(rt, &mut taker.pass)
    }
}

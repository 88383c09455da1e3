ghost use Rattle.carol_worker.specs.Hands.{Dealt, HasRest, IsShort, Put, Took, maker, taker, with_other};

use crossbeam_queue::protocol::{Lesson, Outcome, Protocol, Split};
use crossbeam_queue::{Pass, RuledArrayQueue};
use std::collections::LinkedList;

/// What a pass on the roster's queue knows. No value of it is made.
pub(crate) struct Hand {
    /// Whether it puts the numbers in.
    pub(crate) makes: bool,
    /// Whether there is no other pass.
    pub(crate) alone: bool,
    /// How many it put in, or were put in when it was made.
    pub(crate) count: u32,
    /// Which it took, in order.
    pub(crate) taken: LinkedList<u32>,
}

// The numbers from 0 are put in by one pass, and each goes to one pass.
pub(crate) struct Deal;

impl Protocol<u32, Hand> for Deal {
    ghost use Rattle.carol_worker.specs.Hands.{Dealt, maker};

    ghost holds = { Dealt };

    ghost first = { maker 0 };
}

// The maker puts its count in.
pub(crate) struct Puts;

impl Outcome<u32, Hand> for Puts {
    ghost then = { Put };
}

impl Lesson<u32, Hand> for Puts {
    ghost fact = { IsShort };
}

// A pass takes a number.
pub(crate) struct Takes;

impl Outcome<u32, Hand> for Takes {
    ghost then = { Took };
}

impl Lesson<u32, Hand> for Takes {
    ghost fact = { HasRest };
}

// A pass that only takes is made beside another.
pub(crate) struct Joins;

impl Split<Hand> for Joins {
    ghost use Rattle.carol_worker.specs.Hands.{taker, with_other};

    ghost left = { with_other };

    ghost right = { λ hand. taker hand.count };
}

// The queue of the numbers that wait.
pub(crate) type Line = RuledArrayQueue<u32, Hand, Deal>;

// A pass on it.
pub(crate) type HandPass = Pass<u32, Hand>;

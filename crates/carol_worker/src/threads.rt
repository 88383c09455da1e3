//! The threads of a run: workers, which take sessions from the roster, and those that gossip.
ghost use Rattle.std.specs.Prelude.{◌≡◌, All};
ghost use Rattle.carol_worker.specs.Rosters.{IsOf};

use crate::desk::{Desk, LockedDesk};
use crate::held::AtHouse;
use crate::roster::{Roster, Taker, TakerList};
use crate::serving::serve;
use carol_house::HouseError;
use carol_outer::Gate;
use std::sync::atomic::{AtomicUsize, Ordering};
use std::sync::{Mutex, Wait};
use std::thread;
use std::thread::Threads;

// Takes sessions from the roster and serves them, until none is left.
fn work<R: Wait, H: AtHouse, G: Gate>(
    rt: &R,
    house: &Mutex<H>,
    roster: &Roster,
    mut taker: Taker,
    gate: &G,
)
    requires { IsOf roster.now taker }
{
    let mut desk = LockedDesk::new(rt, house);
    for _ in 0..roster.count() {
        let Some(session) = roster.take(rt, &mut taker) else {
            return;
        };
        // What it leaves open is finished when the threads have ended.
        let _served = serve(&mut desk, gate, session);
    }
}

// Passes an entry on between each two replicas, and says whether the history has room for more.
fn gossip_round<D: Desk>(desk: &mut D, replicas: u32) -> bool {
    for from in 0..replicas {
        for to in 0..replicas {
            if let Err(HouseError::Full) = desk.gossip(from, to) {
                return false;
            }
        }
    }
    true
}

// Passes entries on until no worker is at work any more or the history is full.
fn spread<R: Wait, H: AtHouse>(rt: &R, house: &Mutex<H>, working: &AtomicUsize, replicas: u32) {
    let mut desk = LockedDesk::new(rt, house);
    for _ in rt.forever() {
        if working.load(Ordering::SeqCst) == 0 || !gossip_round(&mut desk, replicas) {
            return;
        }
        thread::yield_now();
    }
}

/// Runs the sessions of the roster on the house, each taker in a thread, with as many threads more
/// that gossip. What isn't done where a thread can't be started is left open.
pub(crate) fn run_threads<R: Threads + Wait + Sync, H: AtHouse + Send, G: Gate + Sync>(
    rt: &R,
    house: &Mutex<H>,
    roster: &Roster,
    takers: TakerList,
    gate: &G,
    gossipers: u32,
    replicas: u32,
)
    requires { All (IsOf roster.now) takers.items }
{
    let working = AtomicUsize::new(takers.len());
    let working = &working;
    thread::scope(
        thread::scope_env(),
        rt,
        |scope|
            requires { All (IsOf roster.now) takers.items }
        {
            for taker in takers {
                let worker = scope.spawn(
                    move ||
                        requires { IsOf roster.now taker }
                    {
                        work(rt, house, roster, taker, gate);
                        working.fetch_sub(1, Ordering::SeqCst);
                    },
                );
                if worker.is_err() {
                    working.fetch_sub(1, Ordering::SeqCst);
                }
            }
            for _ in 0..gossipers {
                let _gossiper = scope.spawn(move || spread(rt, house, working, replicas));
            }
        },
    );
}

ghost use Rattle.std.specs.Prelude.{◌≡◌, ℕ, ◌<◌, ◌≤◌, false, length, slice_get, IfOk};
ghost use Rattle.carol_grant.specs.Kept.{goes};

use crate::row::{Row, bare_rows};
use crate::tally::{Lacking, Tally};
use carol_program::{AccordTable, Entry, MOST_GUARDS, MOST_SESSIONS};
use carol_store::{CellKind, Direction, Effect, MOST_CELLS, Shape};
use std::alloc::{AllocError, Global};
use std::marker::Model;

/// The live grants of guards to sessions. Contracts see the guards' accords, and for each session
/// and guard whether it is granted.
#[derive(Drop)]
pub struct Grants {
    shape: Shape,
    accords: AccordTable,
    guards: u32,
    rows: Vec<Row>,
    total: Tally,
}

impl Model for Grants {
    ghost use Rattle.carol_grant.specs.Grants.{Grants};
    ghost use Rattle.carol_grant.specs.Kept.{IsKept, lives};

    ghost Value = { Grants };

    ghost view = { λ h. record { accords = h.accords; live = lives h.rows.items } };

    ghost invariant = { λ h. IsKept h.shape h.accords h.guards h.rows.items h.total };
}

impl Grants {
    ghost use Rattle.std.specs.Prelude.{Bool, slice_index_or};
    ghost use Rattle.carol_program.specs.Accords.{HasWay};
    ghost use Rattle.carol_store.specs.Effects.{IsEffect};
    ghost use Rattle.carol_store.specs.Directions.{directions};
    ghost use Rattle.carol_grant.specs.Bars.{IsFirst, is_bar};
    ghost use Rattle.carol_grant.specs.Grants.{
      Closes,
      GrantsOne,
      IsBarredBy,
      bars,
      is_granted,
    };
    ghost use Rattle.carol_grant.specs.Kept.{IsRow, lacks_way};
    ghost use Rattle.carol_grant.specs.Tallies.{AreCells, IsLacking, lacking_at};

    /// No grants of this many guards, whose accords these are, to this many sessions. There are at
    /// most 64 sessions and 16 guards, and the table is one of the shape and the guards.
    pub fn new(
        alloc: Global,
        shape: &Shape,
        accords: &AccordTable,
        sessions: u32,
        guards: u32,
    ) -> Result<Grants, AllocError>
        requires shape { accords.now.kinds ≡ shape.now }
        requires guards { accords.now.guards ≡ guards }
        requires few_guards { guards ≤ MOST_GUARDS }
        requires few_sessions { sessions ≤ MOST_SESSIONS }
        ensures accords { IfOk result (λ h. h.accords ≡ accords.now) }
        ensures none { IfOk result (λ h. (s g : ℕ) → is_granted h s g ≡ false) }
        ensures count { IfOk result (λ h. length h.live ≡ sessions) }
    {
        let _kinds = shape.kinds();
        Ok(Grants {
            shape: shape.copy(),
            accords: accords.copy(alloc)?,
            guards,
            rows: bare_rows(alloc, sessions)?,
            total: Tally::new(),
        })
    }

    /// Whether the guard is granted to the session. Both are in range.
    pub fn live(&self, session: u32, guard: u32) -> bool
        requires session { session < length self.now.live }
        requires guard { guard < self.now.accords.guards }
        ensures { result ≡ is_granted self.now session guard }
    {
        self.rows[session as usize].live[guard as usize]
    }

    /// Grants the guard to the session. Both are in range; nothing changes where it is granted.
    pub fn grant(&mut self, session: u32, guard: u32)
        requires session { session < length self.old.live }
        requires guard { guard < self.old.accords.guards }
        ensures { GrantsOne self.old session guard self.new }
    {
        if self.live(session, guard) {
            return;
        }
        let lacking = self.lacking(guard);
        let at = session as usize;
        let mut row = self.rows[at];
        row.live[guard as usize] = true;
        row.tally.add(&lacking);
        self.rows[at] = row;
        self.total.add(&lacking);
    }

    /// Ends all grants of the session, which is in range.
    pub fn close(&mut self, session: u32)
        requires { session < length self.old.live }
        ensures { Closes self.old session self.new }
    {
        let at = session as usize;
        let row = self.rows[at];
        self.total.take_away(&row.tally);
        self.rows[at] = Row::new();
    }

    /// How many live grants there are whose accord lacks the way, which the shape has.
    pub fn bars(&self, cell: u32, up: bool) -> u32
        requires { HasWay self.now.accords.kinds cell up }
        ensures { result ≡ bars self.now cell up }
    {
        self.total.at(cell, up)
    }

    /// The lowest live grant of another session whose accord lacks the effect, as its session and
    /// guard; `None` exactly where there is none. The session is in range, and the effect fits the
    /// shape.
    pub fn barred_by(&self, session: u32, effect: &Effect) -> Option<(u32, u32)>
        requires session { session < length self.now.live }
        requires effect { IsEffect self.now.accords.kinds effect.now }
        ensures { IsBarredBy self.now session effect.now result }
    {
        let directions = effect.directions(&self.shape);
        let ways = directions.as_slice();
        let own = &self.rows[session as usize].tally;
        if own.agrees(&self.total, ways) {
            return None;
        }
        self.first_bar(session, effect, ways)
    }

    // The lowest live grant of another session whose accord lacks the effect, whose ways these are.
    fn first_bar(&self, session: u32, effect: &Effect, ways: &[Direction]) -> Option<(u32, u32)>
        requires effect { IsEffect self.now.accords.kinds effect.now }
        requires ways { ways.now ≡ directions self.now.accords.kinds effect.now }
        requires cells { AreCells ways.now }
        ensures { IsBarredBy self.now session effect.now result }
    {
        for (holder, row) in self.rows.iter().enumerate() {
            let holder = holder as u32;
            if holder != session {
                if let Some(guard) = self.first_lacking(row, effect, ways) {
                    return Some((holder, guard));
                }
            }
        }
        None
    }

    // The lowest guard granted in the row whose accord lacks the effect, whose ways these are.
    fn first_lacking(&self, row: &Row, effect: &Effect, ways: &[Direction]) -> Option<u32>
        requires row { IsRow self.now.accords row.now }
        requires effect { IsEffect self.now.accords.kinds effect.now }
        requires ways { ways.now ≡ directions self.now.accords.kinds effect.now }
        requires cells { AreCells ways.now }
        ensures { IsFirst (is_bar self.now.accords row.now.live effect.now) result }
    {
        if row.tally.is_clear(ways) {
            return None;
        }
        for guard in 0..self.guards {
            if self.is_bar(&row.live, guard, effect) {
                return Some(guard);
            }
        }
        None
    }

    // Whether the guard is granted in the row, and its accord lacks the effect.
    fn is_bar(&self, live: &[bool], guard: u32, effect: &Effect) -> bool
        requires effect { IsEffect self.now.accords.kinds effect.now }
        requires wide { guard < length live.now }
        requires guard { guard < self.now.accords.guards }
        ensures { result ≡ is_bar self.now.accords live.now effect.now guard }
    {
        live[guard as usize] && !self.accords.admits(&self.shape, guard, effect)
    }

    // Which ways the guard's accord lacks.
    fn lacking(&self, guard: u32) -> Lacking
        requires { guard < self.now.accords.guards }
        ensures size { IsLacking result }
        ensures ways { (cell : ℕ) (up : Bool)
            → lacking_at result cell up ≡ lacks_way self.now.accords cell up guard }
    {
        Lacking {
            up: self.lacking_in(guard, true),
            down: self.lacking_in(guard, false),
        }
    }

    // For each cell, whether the guard's accord lacks its way up, or down.
    fn lacking_in(&self, guard: u32, up: bool) -> [bool; MOST_CELLS]
        requires { guard < self.now.accords.guards }
        ensures size { length result ≡ MOST_CELLS }
        ensures cells { (cell : ℕ)
            → slice_index_or result cell false ≡ lacks_way self.now.accords cell up guard }
    {
        let mut lacking = [false; MOST_CELLS];
        let cells = self.shape.kinds().len();
        for cell in 0..cells {
            lacking[cell] = self.lacks(guard, cell as u32, up);
        }
        lacking
    }

    // Whether the shape has the way, and the guard's accord lacks it.
    fn lacks(&self, guard: u32, cell: u32, up: bool) -> bool
        requires { guard < self.now.accords.guards }
        ensures { result ≡ lacks_way self.now.accords cell up guard }
    {
        if !goes(self.shape.kinds(), cell, up) {
            return false;
        }
        match self.accords.entry(guard, cell, up) {
            Entry::Yes => false,
            Entry::No(_) => true,
        }
    }
}

// Whether the cell is there, and can go up, or down.
fn goes(kinds: &[CellKind], cell: u32, up: bool) -> bool
    ensures { result ≡ goes (slice_get kinds.now cell) up }
{
    match kinds.get(cell as usize) {
        None => false,
        Some(kind) => kind.can_go(up),
    }
}

ghost use Rattle.std.specs.Prelude.{◌≡◌, ℕ, ◌+◌, ◌<◌, ◌≤◌, Bool, if◌then◌else◌, length, slice_index, slice_index_or, false};
ghost use Rattle.carol_grant.specs.Tallies.{AreCells, IsLacking, IsTally, agrees, is_clear, lacking_at, tally_at};

use carol_store::{Direction, MOST_CELLS};

/// How many grants lack each way, by cell: up, and down.
#[derive(Clone, Copy)]
pub struct Tally {
    pub up: [u32; MOST_CELLS],
    pub down: [u32; MOST_CELLS],
}

/// Which ways one guard's accord lacks, by cell: up, and down.
#[derive(Clone, Copy)]
pub struct Lacking {
    pub up: [bool; MOST_CELLS],
    pub down: [bool; MOST_CELLS],
}

impl Tally {
    /// No grant lacks any way.
    pub fn new() -> Tally
        ensures size { IsTally result }
        ensures none { (cell : ℕ) (up : Bool) → tally_at result cell up ≡ 0 }
    {
        Tally {
            up: [0; MOST_CELLS],
            down: [0; MOST_CELLS],
        }
    }

    /// Counts one more grant, whose accord lacks these ways.
    pub fn add(&mut self, lacking: &Lacking)
        requires size { IsTally self.old }
        requires lacking { IsLacking lacking.now }
        requires room { (cell : ℕ) (up : Bool) → tally_at self.old cell up < u32.MAX }
        ensures size { IsTally self.new }
        ensures more { (cell : ℕ) (up : Bool) → tally_at self.new cell up
            ≡ (if lacking_at lacking.now cell up then 1 else 0) + tally_at self.old cell up }
    {
        raise(&mut self.up, &lacking.up);
        raise(&mut self.down, &lacking.down);
    }

    /// Takes these numbers away, which it has.
    pub fn take_away(&mut self, gone: &Tally)
        requires size { IsTally self.old }
        requires gone { IsTally gone.now }
        requires covered { (cell : ℕ) (up : Bool)
            → tally_at gone.now cell up ≤ tally_at self.old cell up }
        ensures size { IsTally self.new }
        ensures fewer { (cell : ℕ) (up : Bool)
            → tally_at self.new cell up + tally_at gone.now cell up ≡ tally_at self.old cell up }
    {
        lower(&mut self.up, &gone.up);
        lower(&mut self.down, &gone.down);
    }

    /// The number for the way.
    pub fn at(&self, cell: u32, up: bool) -> u32
        requires size { IsTally self.now }
        requires cell { cell < MOST_CELLS }
        ensures { result ≡ tally_at self.now cell up }
    {
        if up {
            self.up[cell as usize]
        } else {
            self.down[cell as usize]
        }
    }

    /// Whether no grant lacks any of the ways.
    pub fn is_clear(&self, ways: &[Direction]) -> bool
        requires size { IsTally self.now }
        requires ways { AreCells ways.now }
        ensures { result ≡ is_clear self.now ways.now }
    {
        let mut left = ways;
        while let Some((way, more)) = left.split_first() {
            if self.at(way.cell, way.up) != 0 {
                return false;
            }
            left = more;
        }
        true
    }

    /// Whether both have the same number for each of the ways.
    pub fn agrees(&self, other: &Tally, ways: &[Direction]) -> bool
        requires size { IsTally self.now }
        requires other { IsTally other.now }
        requires ways { AreCells ways.now }
        ensures { result ≡ agrees self.now other.now ways.now }
    {
        let mut left = ways;
        while let Some((way, more)) = left.split_first() {
            if self.at(way.cell, way.up) != other.at(way.cell, way.up) {
                return false;
            }
            left = more;
        }
        true
    }
}

// Adds one wherever this is lacking.
fn raise(counts: &mut [u32], lacking: &[bool])
    requires size { length lacking.now ≡ length counts.old }
    requires room { (cell : ℕ) → slice_index counts.old cell < u32.MAX }
    ensures { (cell : ℕ) → slice_index counts.new cell
        ≡ (if slice_index_or lacking.now cell false then 1 else 0) + slice_index counts.old cell }
{
    for cell in 0..counts.len() {
        counts[cell] += u32::from(lacking[cell]);
    }
}

// Takes these numbers away, each where it is.
fn lower(counts: &mut [u32], gone: &[u32])
    requires size { length gone.now ≡ length counts.old }
    requires covered { (cell : ℕ) → slice_index gone.now cell ≤ slice_index counts.old cell }
    ensures { (cell : ℕ) → slice_index counts.new cell + slice_index gone.now cell
        ≡ slice_index counts.old cell }
{
    for cell in 0..counts.len() {
        counts[cell] -= gone[cell];
    }
}

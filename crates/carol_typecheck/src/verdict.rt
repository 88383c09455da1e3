ghost use Rattle.std.specs.Prelude.{◌≡◌, ◌↔◌, IsTrue};

use carol_decide::Why;
use carol_formula::Valuation;
use carol_program::Place;

/// What a type check says of a program.
#[derive(Debug, Drop)]
pub enum Verdict {
    /// Every operation is good.
    Good,
    /// The first place that isn't proved, and numbers that are a breach there.
    Fails(Place, Valuation),
    /// The first place that isn't proved, and why it stays undecided whether there is a breach.
    Undecided(Place, Why),
}

impl Verdict {
    /// Nothing stands against the program.
    pub(crate) fn is_good(&self) -> bool
        ensures { IsTrue result ↔ (self.now ≡ Verdict.Good) }
    {
        matches!(self, Verdict::Good)
    }
}

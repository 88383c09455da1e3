ghost use Rattle.std.specs.Prelude.{◌≡◌, ℕ, List, Option, None, IfOk, OnErr, ◌<◌, ◌≤◌, length};
ghost use Rattle.std.specs.Io.KnownBytes.{ReadConsumes, WriteAppends};
ghost use Rattle.carol_outer.specs.Faults.{Rose};

/// A call of a source or a sink failed. Its count of faults says so too.
#[derive(Clone, Copy, Debug, PartialEq, Eq)]
pub struct Failed;

/// Where bytes come from.
pub trait Source {
    // The bytes that are left, where the source tells them.
    ghost left: { Self → Option (List ℕ) } = { λ _. None };

    // How many faults there were. It never falls.
    ghost faults: { Self → ℕ };

    /// Puts the next bytes at the front of `into` and answers how many. Zero, where `into` isn't
    /// empty, is the end of the input. A failed call gives nothing, and raises the count of faults.
    fn read(&mut self, into: &mut [u8]) -> Result<usize, Failed>
        ensures bound { IfOk result (λ n. n ≤ length into.new) }
        ensures gives { ReadConsumes (left self.old) (left self.new) result into.new }
        ensures failed { OnErr result (Rose (faults self.old) (faults self.new)) }
        ensures counted { faults self.old ≤ faults self.new };
}

/// Where bytes go.
pub trait Sink {
    // The bytes that were taken, where the sink tells them.
    ghost taken: { Self → Option (List ℕ) } = { λ _. None };

    // How many faults there were. It never falls.
    ghost faults: { Self → ℕ };

    /// Appends the first bytes of `from` and answers how many. None, where `from` isn't empty, is a
    /// fault that was counted. A failed call takes nothing, and raises the count of faults.
    fn write(&mut self, from: &[u8]) -> Result<usize, Failed>
        ensures bound { IfOk result (λ n. n ≤ length from.now) }
        ensures takes { WriteAppends (taken self.old) (taken self.new) result from.now }
        ensures failed { OnErr result (Rose (faults self.old) (faults self.new)) }
        ensures stuck { IfOk result (λ n. n ≡ 0 → 0 < length from.now
            → Rose (faults self.old) (faults self.new)) }
        ensures counted { faults self.old ≤ faults self.new };
}

/// What a worker passes after each step of a session, with the kind of the event that was made.
/// It has no answer and no meaning: a test may hold a worker there.
pub trait Gate {
    fn pass(&self, session: u32, kind: u8);
}

/// A gate that holds nobody.
#[derive(Clone, Copy, Debug)]
pub struct OpenGate;

impl Gate for OpenGate {
    fn pass(&self, _session: u32, _kind: u8) {}
}

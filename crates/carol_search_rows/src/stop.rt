use std::alloc::AllocError;

/// Why a search ends without an answer.
#[derive(Debug, Clone, Copy, PartialEq, Eq)]
pub enum Stop {
    /// Memory ran out.
    NoMemory,
    /// The fuel is spent, a number is too wide, or the formula is too deep.
    GivenUp,
}

impl From<AllocError> for Stop {
    fn from(_: AllocError) -> Stop {
        Stop::NoMemory
    }
}

/// How many steps may still be taken.
#[derive(Debug, Drop)]
pub struct Fuel {
    left: u64,
}

impl Fuel {
    /// So many steps.
    pub fn new(steps: u64) -> Fuel {
        Fuel { left: steps }
    }

    /// Takes so many steps away. `GivenUp` comes where fewer are left.
    pub fn spend(&mut self, steps: usize) -> Result<(), Stop> {
        match self.left.checked_sub(steps as u64) {
            Some(left) => {
                self.left = left;
                Ok(())
            }
            None => {
                self.left = 0;
                Err(Stop::GivenUp)
            }
        }
    }
}

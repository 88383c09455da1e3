use std::alloc::AllocError;

/// How much may still be done: rows that are looked at for a variable, and combinations of two
/// rows. Eliminations that share one end together.
#[derive(Debug, Drop)]
pub struct Allowance {
    left: u64,
}

impl Allowance {
    /// So many rows and combinations.
    pub fn new(left: u64) -> Allowance {
        Allowance { left }
    }

    /// Takes so many away. There is no room for more than are left, and none for any from then on.
    pub fn take(&mut self, count: usize) -> Result<(), AllocError> {
        match self.left.checked_sub(count as u64) {
            Some(left) => {
                self.left = left;
                Ok(())
            }
            None => {
                self.left = 0;
                Err(AllocError)
            }
        }
    }
}

ghost use Rattle.std.specs.Prelude.{◌≡◌};
ghost use Rattle.carol_program.specs.Variables.{number_in, number_in_two, number_of_args};

use crate::variables::{FIRST_PARAMETER, FIRST_THERE};
use carol_formula::{Lookup, Variable};
use carol_store::Store;

/// The numbers of one store: the cell's variable has the cell's number.
#[derive(Clone, Copy)]
pub struct OneStore<'a>(pub &'a Store);

/// The numbers of two stores, the one that was read and the global one, in this order.
#[derive(Clone, Copy)]
pub struct TwoStores<'a>(pub &'a Store, pub &'a Store);

/// The numbers of arguments: a parameter's variable has its argument, and any other has 0.
#[derive(Clone, Copy)]
pub struct Arguments<'a>(pub &'a [i64]);

// The number in the cell, or 0 where the store has no such cell.
fn number_in(store: &Store, cell: u32) -> i128
    ensures { result ≡ number_in store.now cell }
{
    if cell < store.len() {
        i128::from(store.get(cell))
    } else {
        0
    }
}

impl<'a> Lookup for OneStore<'a> {
    ghost numbers = { λ s v. number_in s.0.now v };

    fn value_of(&self, v: Variable) -> i128 {
        number_in(self.0, v.0)
    }
}

impl<'a> Lookup for TwoStores<'a> {
    ghost numbers = { λ s v. number_in_two s.0.now s.1.now v };

    fn value_of(&self, v: Variable) -> i128 {
        if v.0 < FIRST_THERE {
            number_in(self.0, v.0)
        } else {
            number_in(self.1, v.0 - FIRST_THERE)
        }
    }
}

impl<'a> Lookup for Arguments<'a> {
    ghost numbers = { λ a v. number_of_args a.0.now v };

    fn value_of(&self, v: Variable) -> i128 {
        if v.0 < FIRST_PARAMETER {
            return 0;
        }
        match self.0.get((v.0 - FIRST_PARAMETER) as usize) {
            Some(argument) => i128::from(*argument),
            None => 0,
        }
    }
}

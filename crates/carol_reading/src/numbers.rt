ghost use Rattle.std.specs.Prelude.{◌≡◌};
ghost use Rattle.carol_program.specs.Variables.{number_of_args, query_variable};
ghost use Rattle.carol_reading.specs.Readings.{number_or, with_queries};

use carol_formula::{Lookup, Variable};
use carol_program::{Arguments, FIRST_QUERIED, OneStore, STORE_VARIABLES};
use carol_store::Store;

/// The numbers of an operation's variables: its arguments, and the stores of the queries that were
/// done, which are in these slots.
#[derive(Clone, Copy)]
pub(crate) struct Numbers<'a> {
    pub args: &'a [i64],
    pub slots: &'a [u32],
    pub stores: &'a [Store],
}

// The number of the variable in the store of the query in the slot, or the other number.
fn number_or(number: i128, slot: u32, store: &Store, v: Variable) -> i128
    ensures { result ≡ number_or (query_variable slot 0) store.now number v }
{
    let first = u64::from(FIRST_QUERIED) + u64::from(STORE_VARIABLES) * u64::from(slot);
    let place = u64::from(v.0);
    if place < first {
        return number;
    }
    if place >= first + u64::from(store.len()) {
        return number;
    }
    OneStore(store).value_of(Variable((place - first) as u32))
}

impl<'a> Lookup for Numbers<'a> {
    ghost numbers = { λ n. with_queries n.slots.now n.stores.now (number_of_args n.args.now) };

    fn value_of(&self, v: Variable) -> i128 {
        let mut number = Arguments(self.args).value_of(v);
        let mut slots = self.slots;
        let mut stores = self.stores;
        while let Some((slot, more)) = slots.split_first() {
            let Some((store, rest)) = stores.split_first() else {
                return number;
            };
            number = number_or(number, *slot, store, v);
            slots = more;
            stores = rest;
        }
        number
    }
}

ghost use Rattle.std.specs.Prelude.{◌≡◌, ◌<◌, ◌≤◌, ◌+◌, [], ◌∷◌, ◌++◌, length, IfOk};
ghost use Rattle.carol_program.specs.Limits.{most_queries};
ghost use Rattle.carol_reading.specs.Walks.{IsKeptWalk};

use carol_program::MOST_QUERIES;
use carol_store::Store;
use std::alloc::{AllocError, Global};
use std::marker::Model;

/// How far an operation has come since its last start: the stores that its queries got, and how
/// many queries, issues and releases it has done.
#[derive(Drop)]
pub struct Walk {
    stores: Vec<Store>,
    done: u32,
}

impl Model for Walk {
    ghost use Rattle.std.specs.Prelude.{◌≡◌, vec_capacity};
    ghost use Rattle.carol_reading.specs.Walks.{Progress, IsKeptWalk};
    ghost use Rattle.carol_program.specs.declared.limits.TheConstants.{MOST_QUERIES};

    ghost Value = { Progress };

    ghost view = { λ w. record { stores = w.stores.items; done = w.done } };

    ghost invariant = { λ w. IsKeptWalk (record { stores = w.stores.items; done = w.done })
        × (vec_capacity w.stores ≡ MOST_QUERIES) };
}

impl Walk {
    /// An operation that has done nothing, with room for the stores of all its queries.
    pub fn new(alloc: Global) -> Result<Walk, AllocError>
        ensures { IfOk result (λ w. w ≡ record { stores = []; done = 0 }) }
    {
        Ok(Walk {
            stores: Vec::with_capacity(alloc, MOST_QUERIES)?,
            done: 0,
        })
    }

    /// The stores that its queries got, in order.
    pub fn stores(&self) -> &[Store]
        ensures stores { result.now ≡ self.now.stores }
        ensures kept { IsKeptWalk self.now }
    {
        self.stores.as_slice()
    }

    /// How many queries, issues and releases it has done.
    pub fn done(&self) -> u32
        ensures { result ≡ self.now.done }
    {
        self.done
    }

    /// A query got the store. There are fewer than eight stores.
    pub fn take(&mut self, store: &Store)
        requires few { length self.old.stores < most_queries }
        requires done { self.old.done + 1 < u32.MAX }
        ensures { self.new ≡ record {
          stores = self.old.stores ++ store.now ∷ [];
          done = self.old.done + 1;
        } }
    {
        let _words = store.values();
        self.stores.push_reserved(store.copy());
        self.done += 1;
    }

    /// An issue or a release is done.
    pub fn pass(&mut self)
        requires { self.old.done + 1 < u32.MAX }
        ensures { self.new ≡ record { stores = self.old.stores; done = self.old.done + 1 } }
    {
        self.done += 1;
    }

    /// The operation starts anew.
    pub fn clear(&mut self)
        ensures { self.new ≡ record { stores = []; done = 0 } }
    {
        self.stores.clear();
        self.done = 0;
    }

    /// The operation has come as far as the other walk.
    pub fn set(&mut self, other: &Walk)
        ensures { self.new ≡ other.now }
    {
        self.clear();
        for store in other.stores() {
            self.stores.push_reserved(store.copy());
        }
        self.done = other.done();
    }
}

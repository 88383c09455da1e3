ghost use Rattle.std.specs.Prelude.{◌≡◌, ◌↔◌, ◌<◌, ◌≤◌, [], ◌∷◌, ◌++◌, length, IsSome};
ghost use Rattle.std.specs.Option.{option_to_list};

use smallvec::SmallVec;
use std::alloc::Global;
use std::marker::Model;

/// How many cells a shape has at most, and so how many items a short list has.
pub const MOST_CELLS: usize = 16;

/// A list of at most sixteen items, as many as a shape has cells, that are kept in place. Contracts
/// see it as the list of its items.
#[derive(Debug, Drop)]
pub struct ShortList<T> {
    items: SmallVec<T, MOST_CELLS>,
}

impl<T> Model for ShortList<T> {
    ghost use Rattle.std.specs.Prelude.{List, ◌≡◌, ◌≤◌, length};
    ghost use Rattle.std.specs.Coded.{coded_list};
    ghost use Rattle.carol_store.specs.declared.short_list.TheConstants.{MOST_CELLS};

    ghost Value = { List T };

    ghost coded = { coded_list T.code };

    ghost view = { λ l. l.items.items };

    ghost invariant = { λ l. (length l.items.items ≤ MOST_CELLS) × (l.items.capacity ≡ MOST_CELLS) };
}

impl<T: Copy + Default> ShortList<T> {
    /// An empty list.
    pub fn new(alloc: Global) -> ShortList<T>
        ensures { result ≡ [] }
    {
        ShortList {
            items: SmallVec::new(alloc),
        }
    }

    /// The list of these items, of which there are at most sixteen.
    pub fn from_slice(alloc: Global, items: &[T]) -> ShortList<T>
        requires { length items.now ≤ MOST_CELLS }
        ensures { result ≡ items.now }
    {
        ShortList {
            items: SmallVec::from_slice(alloc, items).unwrap(),
        }
    }

    /// An equal list.
    pub fn copy(&self) -> ShortList<T>
        ensures { result ≡ self.now }
    {
        ShortList::from_slice(*self.items.allocator(), self.items.as_slice())
    }

    /// Appends an item. The list isn't full.
    pub fn push(&mut self, item: T)
        requires { length self.old < MOST_CELLS }
        ensures { self.new ≡ self.old ++ item ∷ [] }
    {
        self.items.push_reserved(item);
    }

    /// Takes the last item. `None` exactly where there is none.
    pub fn pop(&mut self) -> Option<T>
        ensures items { self.old ≡ self.new ++ option_to_list result }
        ensures variant { IsSome result ↔ (0 < length self.old) }
    {
        self.items.pop()
    }

    /// The items, in order.
    pub fn as_slice(&self) -> &[T]
        ensures items { result.now ≡ self.now }
        ensures few { length self.now ≤ MOST_CELLS }
    {
        self.items.as_slice()
    }
}

ghost use Rattle.std.specs.Prelude.{◌≡◌, ◌<◌, [], ◌∷◌, ◌++◌, length, map, slice_get, slice_set, IfSome};
ghost use Rattle.std.specs.Option.{option_map};
ghost use Rattle.carol_formula.specs.Tree.{claim_of};

use carol_formula::{Formula, Term, Variable};

// How many items of a list have a number.
const ITEMS: u64 = 1 << 32;

/// A formula at a place of a refutation: one that was given or a part of it, or one that the tree
/// made.
#[derive(Clone, Copy)]
pub enum Item<'a> {
    /// A formula as it was given, or a part of one.
    Whole(&'a Formula),
    /// The term is below 0, as `t + 1 <= 0`.
    Negative(&'a Term),
    /// The term is above 0, as `1 - t <= 0`.
    Positive(&'a Term),
    /// The variable is at most the number.
    AtMost(&'a Variable, i128),
    /// The variable is at least the number.
    AtLeast(&'a Variable, i128),
}

/// The list of formulas at a place of a refutation, as a chain of changes that lies on the stack.
#[derive(Drop)]
pub enum Place<'a> {
    /// The formulas that were given.
    Root(&'a [Formula]),
    /// The list before with more items at its end. `at` is the number of the first of them, and
    /// 2^32 where that is beyond the numbers of a `u32`.
    More {
        at: u64,
        items: &'a [Item<'a>],
        before: &'a Place<'a>,
    },
    /// The list before with an item in place of that at `at`.
    Replaced {
        at: u32,
        item: Item<'a>,
        before: &'a Place<'a>,
    },
}

impl<'a> Place<'a> {
    ghost use Rattle.carol_cert.specs.Place.{claims_at, claim_of_item, counted, AreItems, IsItem, IsPlace};

    /// The place at which the formulas stand as they were given.
    pub fn root(formulas: &'a [Formula]) -> Place<'a>
        ensures claims { claims_at result ≡ map claim_of formulas.now }
        ensures right { IsPlace result }
    {
        Place::Root(formulas)
    }

    /// The place with more items at the end of its list.
    pub fn more(&'a self, items: &'a [Item<'a>]) -> Place<'a>
        requires right { IsPlace self.now }
        requires bounded { AreItems items.now }
        ensures claims { claims_at result ≡ claims_at self.now ++ map claim_of_item items.now }
        ensures right { IsPlace result }
    {
        self.more_from(self.count(), items)
    }

    /// The place with more items at the end of its list, whose count is known.
    pub fn more_from(&'a self, count: u64, items: &'a [Item<'a>]) -> Place<'a>
        requires right { IsPlace self.now }
        requires count { count ≡ counted (length (claims_at self.now)) }
        requires bounded { AreItems items.now }
        ensures claims { claims_at result ≡ claims_at self.now ++ map claim_of_item items.now }
        ensures right { IsPlace result }
    {
        Place::More {
            at: count,
            items,
            before: self,
        }
    }

    /// The place with an item in place of that at the number.
    pub fn replaced(&'a self, at: u32, item: Item<'a>) -> Place<'a>
        requires right { IsPlace self.now }
        requires stands { at < length (claims_at self.now) }
        requires bounded { IsItem item }
        ensures claims { claims_at result
            ≡ slice_set (claims_at self.now) at (claim_of_item item.entry) }
        ensures right { IsPlace result }
    {
        Place::Replaced {
            at,
            item,
            before: self,
        }
    }

    /// The length of the list, and 2^32 for each greater one.
    pub fn count(&self) -> u64
        requires { IsPlace self.now }
        ensures { result ≡ counted (length (claims_at self.now)) }
    {
        let mut place = self;
        loop {
            match place {
                Place::Root(formulas) => return (formulas.len() as u64).min(ITEMS),
                Place::More { at, items, .. } => {
                    return at.saturating_add(items.len() as u64).min(ITEMS);
                }
                Place::Replaced { before, .. } => place = before,
            }
        }
    }

    /// The item with the number, if there is one.
    pub fn item(&self, at: u32) -> Option<Item<'a>>
        requires { IsPlace self.now }
        ensures found { option_map claim_of_item result ≡ slice_get (claims_at self.now) at }
        ensures bounded { IfSome result IsItem }
    {
        let mut place = self;
        loop {
            match place {
                Place::Root(formulas) => {
                    let index = at as usize;
                    if index >= formulas.len() {
                        return None;
                    }
                    return Some(Item::Whole(&formulas[index]));
                }
                Place::More {
                    at: first,
                    items,
                    before,
                } => {
                    if u64::from(at) >= *first {
                        let index = (u64::from(at) - *first) as usize;
                        if index >= items.len() {
                            return None;
                        }
                        return Some(items[index]);
                    }
                    place = before;
                }
                Place::Replaced {
                    at: number,
                    item,
                    before,
                } => {
                    if *number == at {
                        return Some(*item);
                    }
                    place = before;
                }
            }
        }
    }
}

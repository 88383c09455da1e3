ghost use Rattle.std.specs.Prelude.{◌≡◌, ◌↔◌, ◌<◌, ◌≤◌, ◌+◌, ◌-◌, ◌^◌, ◌||◌, ◌+ℤ◌, pos, SomeIff, [], ◌∷◌, ◌++◌, length, map, slice_get, slice_set, IsTrue, IfSome};
ghost use Rattle.std.specs.Option.{option_map};
ghost use Rattle.carol_formula.specs.Bounds.{IsBelow, value_limit};
ghost use Rattle.carol_formula.specs.Claim.{Claim};
ghost use Rattle.carol_formula.specs.Tree.{claim_of};
ghost use Rattle.carol_cert.specs.Place.{claims_at, claim_of_item, IsItem, IsPlace};
ghost use Rattle.carol_cert.specs.Proof.{Absurd, Part, Split, Branch, Rows, proof_of};
ghost use Rattle.carol_cert.specs.Refutes.{parts_at, sides_at, Refutes, IsNeverTrue, AreNeverTrue};
ghost use Rattle.carol_cert.specs.Counts.{turns_of, GoesRight, IsUnfinished};
ghost use Rattle.carol_cert.specs.Walked.{counted, walked};

use crate::block::Block;
use crate::tree::Refutation;
use crate::{Item, Place, RowStep, leaf_closes};
use carol_formula::{Formula, VALUE_LIMIT, Variable, is_below, sum_within};
use std::slice;

// What a walk over a tree brings back: how many turns it has, as far as a `u32` counts, and
// whether a leaf is unclosed.
#[derive(Clone, Copy)]
struct Walked {
    turns: u32,
    has_gap: bool,
}

impl Walked {
    // Both walks together.
    fn and(self, other: Walked) -> Walked
        ensures { result ≡ record {
          turns = counted (self.turns + other.turns);
          has_gap = self.has_gap || other.has_gap;
        } }
    {
        Walked {
            turns: self.turns.saturating_add(other.turns),
            has_gap: self.has_gap || other.has_gap,
        }
    }
}

// A turn, and no leaf that is unclosed.
const TURN: Walked = Walked {
    turns: 1,
    has_gap: false,
};

/// Whether the tree refutes the formula. If it does, the formula is true under no valuation.
pub fn check(formula: &Formula, tree: &Refutation) -> bool
    ensures exact { IsTrue result ↔ Refutes (proof_of tree.now) (claim_of formula.now ∷ []) }
    ensures sound { IsTrue result → IsNeverTrue (claim_of formula.now) }
{
    check_list(slice::from_ref(formula), tree)
}

/// Whether the tree refutes the formula in at most so many turns: leaves that close their lists,
/// and branches.
pub fn check_within(formula: &Formula, tree: &Refutation, most: u32) -> bool
    requires { most < 2 ^ 32 - 1 }
    ensures refutes { IsTrue result
        → Refutes (proof_of tree.now) (claim_of formula.now ∷ []) }
    ensures turns { IsTrue result → turns_of (proof_of tree.now) ≤ most }
    ensures exact { Refutes (proof_of tree.now) (claim_of formula.now ∷ [])
        → turns_of (proof_of tree.now) ≤ most → IsTrue result }
{
    let formulas = slice::from_ref(formula);
    match walk(&Place::root(formulas), tree) {
        Some(walk) => {
            if walk.has_gap {
                false
            } else {
                walk.turns <= most
            }
        }
        None => false,
    }
}

/// Whether the tree refutes the list of formulas. If it does, no valuation makes all of them true.
pub fn check_list(formulas: &[Formula], tree: &Refutation) -> bool
    ensures exact { IsTrue result ↔ Refutes (proof_of tree.now) (map claim_of formulas.now) }
    ensures sound { IsTrue result → AreNeverTrue (map claim_of formulas.now) }
{
    match walk(&Place::root(formulas), tree) {
        Some(walk) => !walk.has_gap,
        None => false,
    }
}

/// How many turns the tree has: leaves that close their lists, and branches. There is an answer
/// where each of these is right, as for `check`, and at least one leaf is unclosed.
pub fn turns(formula: &Formula, tree: &Refutation) -> Option<u32>
    requires { turns_of (proof_of tree.now) < 2 ^ 32 }
    ensures { SomeIff result (IsUnfinished (proof_of tree.now) (claim_of formula.now ∷ []))
        (turns_of (proof_of tree.now)) }
{
    turns_list(slice::from_ref(formula), tree)
}

/// How many turns the tree has, from the list of formulas.
pub fn turns_list(formulas: &[Formula], tree: &Refutation) -> Option<u32>
    requires { turns_of (proof_of tree.now) < 2 ^ 32 }
    ensures { SomeIff result (IsUnfinished (proof_of tree.now) (map claim_of formulas.now))
        (turns_of (proof_of tree.now)) }
{
    match walk(&Place::root(formulas), tree) {
        Some(walk) => { if walk.has_gap { Some(walk.turns) } else { None } }
        None => None,
    }
}

// The walk over the tree from the list at the place, where the tree goes right. The arms are
// functions of their own and stay so, since a level of a deep tree then takes little of the stack.
#[cycle(walk)]
fn walk(place: &Place<'_>, tree: &Refutation) -> Option<Walked>
    requires { IsPlace place.now }
    ensures { SomeIff result (GoesRight (proof_of tree.now) (claims_at place.now))
        (walked (proof_of tree.now)) }
{
    match tree {
        Refutation::Absurd { at } => walk_absurd(&*place, *at),
        Refutation::Part { at, rest } => walk_part(&*place, *at, rest.get()),
        Refutation::Split { at, left, right } => {
            walk_split(&*place, *at, left.get(), right.get())
        }
        Refutation::Branch {
            variable,
            k,
            low,
            high,
        } => {
            if low.get().is_branch() || high.get().is_branch() {
                walk_branches(&*place, variable, *k, low.get(), high.get())
            } else {
                walk_branch(&*place, variable, *k, low.get(), high.get())
            }
        }
        Refutation::Rows(steps) => walk_rows(&*place, steps.as_slice()),
        Refutation::Unclosed => Some(Walked {
            turns: 0,
            has_gap: true,
        }),
    }
}

// The walk over the tree from the list in which the parts of an `And` stand for it.
#[cycle(walk)]
#[inline(never)]
fn walk_part(place: &Place<'_>, at: u32, rest: &Refutation) -> Option<Walked>
    requires { IsPlace place.now }
    ensures { SomeIff result (GoesRight (Part at (proof_of rest.now)) (claims_at place.now))
        (walked (Part at (proof_of rest.now))) }
{
    match parts(&*place, at) {
        Some((left, right)) => walk_more(&(&*place).replaced(at, left), right, &*rest),
        None => None,
    }
}

// The walks over both trees, each from the list with its case in place of an `Or` or a `Ne`.
#[cycle(walk)]
#[inline(never)]
fn walk_split(place: &Place<'_>, at: u32, left: &Refutation, right: &Refutation) -> Option<Walked>
    requires { IsPlace place.now }
    ensures { let tree = Split at (proof_of left.now) (proof_of right.now) in
        SomeIff result (GoesRight tree (claims_at place.now)) (walked tree) }
{
    match sides(&*place, at) {
        Some((first, second)) => {
            let walk = walk_replaced(&*place, at, first, &*left)?;
            let other = walk_replaced(&*place, at, second, &*right)?;
            Some(walk.and(other))
        }
        None => None,
    }
}

// The walks over both trees, from the list with the variable at most `k`, and at least `k + 1`.
#[cycle(walk)]
#[inline(never)]
fn walk_branch(
    place: &Place<'_>,
    variable: &Variable,
    k: i128,
    low: &Refutation,
    high: &Refutation,
) -> Option<Walked>
    requires { IsPlace place.now }
    ensures { let tree = Branch variable.now k (proof_of low.now) (proof_of high.now) in
        SomeIff result (GoesRight tree (claims_at place.now)) (walked tree) }
{
    if !is_below(k, VALUE_LIMIT) {
        return None;
    }
    let next = sum_within(k, 1, VALUE_LIMIT)?;
    let walk = walk_more(&*place, Item::AtMost(&*variable, k), &*low)?;
    let other = walk_more(&*place, Item::AtLeast(&*variable, next), &*high)?;
    Some(walk.and(other).and(TURN))
}

// The same walks where a branch stands below the branch. One call serves all branches that come one
// below the other, as many as a block holds, so that a level of them takes little of the stack: it
// goes down on the low sides and comes back for the high ones.
#[cycle(walk)]
#[inline(never)]
fn walk_branches(
    place: &Place<'_>,
    variable: &Variable,
    k: i128,
    low: &Refutation,
    high: &Refutation,
) -> Option<Walked>
    requires { IsPlace place.now }
    ensures { let tree = Branch variable.now k (proof_of low.now) (proof_of high.now) in
        SomeIff result (GoesRight tree (claims_at place.now)) (walked tree) }
{
    if !has_sides(k) {
        return None;
    }
    let count = place.count();
    let mut block = Block::new(Item::AtMost(&*variable, k), &*high);
    let mut walked = TURN;
    let mut tree = &*low;
    loop {
        match tree {
            Refutation::Branch {
                variable,
                k,
                low,
                high,
            } if !block.is_full() => {
                if !has_sides(*k) {
                    return None;
                }
                block.push(Item::AtMost(variable, *k), high.get());
                walked = walked.and(TURN);
                tree = low.get();
            }
            _ => {
                let below = walk(&(&*place).more_from(count, block.bounds()), tree)?;
                walked = walked.and(below);
                match block.turn() {
                    Some(next) => tree = next,
                    None => return Some(walked),
                }
            }
        }
    }
}

// Whether the numbers of both sides of a branch are below 2^126.
fn has_sides(k: i128) -> bool
    ensures { IsTrue result ↔ (IsBelow value_limit k × IsBelow value_limit (k +ℤ pos 1)) }
{
    is_below(k, VALUE_LIMIT) && sum_within(k, 1, VALUE_LIMIT).is_some()
}

// The walk over the tree from the list with an item more.
#[cycle(walk)]
#[inline(never)]
fn walk_more(place: &Place<'_>, item: Item<'_>, tree: &Refutation) -> Option<Walked>
    requires right { IsPlace place.now }
    requires bounded { IsItem item }
    ensures { SomeIff result
        (GoesRight (proof_of tree.now) (claims_at place.now ++ claim_of_item item.entry ∷ []))
        (walked (proof_of tree.now)) }
{
    walk(&(&*place).more(slice::from_ref(&item)), &*tree)
}

// The walk over the tree from the list with an item in place of that at the number.
#[cycle(walk)]
#[inline(never)]
fn walk_replaced(place: &Place<'_>, at: u32, item: Item<'_>, tree: &Refutation) -> Option<Walked>
    requires right { IsPlace place.now }
    requires stands { at < length (claims_at place.now) }
    requires bounded { IsItem item }
    ensures { SomeIff result (GoesRight (proof_of tree.now)
        (slice_set (claims_at place.now) at (claim_of_item item.entry)))
        (walked (proof_of tree.now)) }
{
    walk(&(&*place).replaced(at, item), &*tree)
}

// The turn of a leaf, where the item with the number is `False`.
#[inline(never)]
fn walk_absurd(place: &Place<'_>, at: u32) -> Option<Walked>
    requires { IsPlace place.now }
    ensures { SomeIff result (GoesRight (Absurd at) (claims_at place.now)) (walked (Absurd at)) }
{
    if is_false(place, at) {
        Some(TURN)
    } else {
        None
    }
}

// The turn of a leaf, where its steps close the list.
#[inline(never)]
fn walk_rows(place: &Place<'_>, steps: &[RowStep]) -> Option<Walked>
    requires { IsPlace place.now }
    ensures { SomeIff result (GoesRight (Rows steps.now) (claims_at place.now))
        (walked (Rows steps.now)) }
{
    if leaf_closes(place, steps) {
        Some(TURN)
    } else {
        None
    }
}

// Whether the item with the number is `False`.
#[inline(never)]
fn is_false(place: &Place<'_>, at: u32) -> bool
    requires { IsPlace place.now }
    ensures { IsTrue result ↔ (slice_get (claims_at place.now) at ≡ Some Claim.False) }
{
    match place.item(at) {
        Some(Item::Whole(formula)) => matches!(formula, Formula::False),
        _ => false,
    }
}

// The parts of the `And` with the number.
fn parts<'a>(place: &Place<'a>, at: u32) -> Option<(Item<'a>, Item<'a>)>
    requires { IsPlace place.now }
    ensures found { option_map (λ p. (claim_of_item p.0, claim_of_item p.1)) result
        ≡ parts_at (claims_at place.now) at }
    ensures bounded { IfSome result (λ p. IsItem p.0 × IsItem p.1) }
{
    match place.item(at) {
        Some(Item::Whole(Formula::And(left, right))) => {
            Some((Item::Whole(left.get()), Item::Whole(right.get())))
        }
        _ => None,
    }
}

// The cases of the `Or` or the `Ne` with the number.
fn sides<'a>(place: &Place<'a>, at: u32) -> Option<(Item<'a>, Item<'a>)>
    requires { IsPlace place.now }
    ensures found { option_map (λ p. (claim_of_item p.0, claim_of_item p.1)) result
        ≡ sides_at (claims_at place.now) at }
    ensures bounded { IfSome result (λ p. IsItem p.0 × IsItem p.1) }
{
    match place.item(at) {
        Some(Item::Whole(Formula::Or(left, right))) => {
            Some((Item::Whole(left.get()), Item::Whole(right.get())))
        }
        Some(Item::Whole(Formula::Ne(term))) => Some((Item::Negative(term), Item::Positive(term))),
        _ => None,
    }
}

ghost use Rattle.std.specs.Prelude.{◌≡◌, ◌<◌, ◌≤◌, ◌↔◌, ◌+ℤ◌, pos, List, [], ◌∷◌, ◌++◌, map, MatchOption, IsTrue};
ghost use Rattle.carol_formula.specs.Claim.{Claim};
ghost use Rattle.carol_cert.specs.Place.{AreItems};
ghost use Rattle.carol_cert.specs.Proof.{proof_of};
ghost use Rattle.carol_cert.specs.Left.{bound_of, claims_below, waiting, IsSide};

use crate::Item;
use crate::tree::Refutation;

/// How many branches a block holds.
pub const BRANCHES: usize = 16;

/// Branches on the way down to a place. Of each it has the bound that the place has from it, and
/// the tree of its high side, which waits where the bound is that of the low side.
#[derive(Drop)]
pub struct Block<'a> {
    bounds: [Item<'a>; BRANCHES],
    trees: [&'a Refutation; BRANCHES],
    count: usize,
}

impl<'a> Block<'a> {
    ghost use Rattle.carol_cert.specs.Block.{held, IsBlock};

    /// The block of one branch.
    pub fn new(bound: Item<'a>, tree: &'a Refutation) -> Block<'a>
        requires { IsSide bound }
        ensures held { held result ≡ (bound.entry, proof_of tree.now) ∷ [] }
        ensures right { IsBlock result }
    {
        Block {
            bounds: [bound; BRANCHES],
            trees: [tree; BRANCHES],
            count: 1,
        }
    }

    /// Whether the block holds as many branches as it can.
    pub fn is_full(&self) -> bool
        requires { IsBlock self.now }
        ensures { IsTrue result ↔ (BRANCHES ≤ self.now.count) }
    {
        self.count >= BRANCHES
    }

    /// The bounds, from above.
    pub fn bounds(&self) -> &[Item<'a>]
        requires { IsBlock self.now }
        ensures value { result.now ≡ map bound_of (held self.now) }
        ensures bounded { AreItems result.now }
    {
        &self.bounds[..self.count]
    }

    /// Adds a branch below the others.
    pub fn push(&mut self, bound: Item<'a>, tree: &'a Refutation)
        requires right { IsBlock self.old }
        requires room { self.old.count < BRANCHES }
        requires side { IsSide bound }
        ensures held { held self.new ≡ held self.old ++ (bound.entry, proof_of tree.now) ∷ [] }
        ensures right { IsBlock self.new }
    {
        let last = self.count;
        let bounds = &mut self.bounds[..];
        bounds[last] = bound;
        let trees = &mut self.trees[..];
        trees[last] = tree;
        self.count = last + 1;
    }

    // Takes the lowest branch away, if there is one.
    fn pop(&mut self) -> Option<(Item<'a>, &'a Refutation)>
        requires { IsBlock self.old }
        ensures held { MatchOption result (held self.old ≡ [])
            (λ p. held self.old ≡ held self.new ++ (p.0, proof_of p.1.now) ∷ []) }
        ensures room { MatchOption result (self.new ≡ self.old)
            (λ p. (self.new.count < self.old.count) × IsSide p.0) }
        ensures right { IsBlock self.new }
    {
        if self.count == 0 {
            return None;
        }
        let last = self.count - 1;
        self.count = last;
        let bounds = &self.bounds[..];
        let bound = bounds[last];
        let trees = &self.trees[..];
        Some((bound, trees[last]))
    }

    /// Goes back up to the lowest branch whose high side waits, if there is one, and takes that
    /// side.
    pub fn turn(&mut self) -> Option<&'a Refutation>
        requires { IsBlock self.old }
        ensures next { (claims : List Claim) → MatchOption result
            (waiting claims (held self.old) ≡ [])
            (λ next. waiting claims (held self.old)
            ≡ (proof_of next.now, claims_below claims (held self.new))
            ∷ waiting claims (held self.new)) }
        ensures right { IsBlock self.new }
    {
        while let Some((bound, tree)) = self.pop() {
            if let Item::AtMost(variable, k) = bound {
                self.push(Item::AtLeast(variable, k + 1), tree);
                return Some(tree);
            }
        }
        None
    }
}

ghost use Rattle.std.specs.Prelude.{◌≡◌, ◌+◌, ◌++◌, ◌∷◌, [], ℕ, slice_set, IfOk, OnOk};
ghost use Rattle.carol_formula.specs.Claim.{Claim};
ghost use Rattle.carol_formula.specs.Tree.{claim_of};
ghost use Rattle.carol_cert.specs.Proof.{Part, Split, proof_of};
ghost use Rattle.carol_linear.specs.Answer.{IsSpent};
ghost use Rattle.carol_decide.specs.Piece.{claims_in};
ghost use Rattle.carol_decide.specs.Frames.{Lead, turns_on};
ghost use Rattle.carol_decide.specs.Table.{IsClosed, IsFound};
ghost use Rattle.carol_decide.specs.State.{IsRoot, IsAt, IsUnder, IsOpenUnder, IsAbove, Goes};

use crate::answer::{Answer, Why};
use crate::attempt::{attempt, settle};
use crate::fork::{Next, next_at};
use crate::found::Found;
use crate::frame::Frame;
use crate::piece::Piece;
use carol_cert::Refutation;
use carol_elimination::Allowance;
use carol_formula::{Boxed, Formula};
use std::alloc::{AllocError, Global};

/// Where a decision stands: at a place with formulas, behind others that were taken apart.
#[derive(Drop)]
pub struct Walk<'a> {
    pub pieces: Vec<Piece<'a>>,
    pub frames: Vec<Frame<'a>>,
    /// Where the first `And` is looked for.
    pub from: u32,
    /// How many turns may be taken.
    pub left: u32,
    /// How much may be eliminated.
    pub allowance: Allowance,
}

// Some two seconds.
const ALLOWED: u64 = 4_000_000;

// The tree that takes an `And` apart.
fn part(alloc: Global, at: u32, rest: Refutation) -> Result<Refutation, AllocError>
    ensures { IfOk result (λ tree. proof_of tree ≡ Part at (proof_of rest)) }
{
    let rest = Boxed::new(alloc, rest)?;
    Ok(Refutation::Part { at, rest })
}

// The tree of both sides.
fn split(
    alloc: Global,
    at: u32,
    low: Refutation,
    high: Refutation,
) -> Result<Refutation, AllocError>
    ensures { IfOk result (λ tree. proof_of tree ≡ Split at (proof_of low) (proof_of high)) }
{
    let left = Boxed::new(alloc, low)?;
    let right = Boxed::new(alloc, high)?;
    Ok(Refutation::Split { at, left, right })
}

impl<'a> Walk<'a> {
    /// At the place of the formula alone.
    pub fn new(alloc: Global, formula: &'a Formula, leaves: u32) -> Result<Walk<'a>, AllocError>
        ensures { IfOk result (IsAt (claim_of formula.now) leaves) }
    {
        let mut pieces = Vec::new(alloc);
        pieces.push(Piece::Whole(formula))?;
        Ok(Walk {
            pieces,
            frames: Vec::new(alloc),
            from: 0,
            left: leaves,
            allowance: Allowance::new(ALLOWED),
        })
    }

    // Puts a formula in place of the one with the number.
    fn put(&mut self, at: u32, piece: Piece<'a>)
        ensures pieces { self.new.pieces.items ≡ slice_set self.old.pieces.items at piece.entry }
        ensures frames { self.new.frames.items ≡ self.old.frames.items }
        ensures left { self.new.left ≡ self.old.left }
    {
        if (at as usize) < self.pieces.len() {
            self.pieces[at as usize] = piece;
        }
    }

    // Takes an `And` apart.
    fn take_parts(
        &mut self,
        at: u32,
        whole: Piece<'a>,
        left: Piece<'a>,
        right: Piece<'a>,
    ) -> Result<(), AllocError>
        ensures pieces { OnOk result (self.new.pieces.items
            ≡ slice_set self.old.pieces.items at left.entry ++ right.entry ∷ []) }
        ensures frames { OnOk result (self.new.frames.items
            ≡ self.old.frames.items ++ Frame.Parts at whole.entry ∷ []) }
        ensures left { OnOk result (self.new.left ≡ self.old.left) }
    {
        self.put(at, left);
        self.pieces.push(right)?;
        self.frames.push(Frame::Parts { at, whole })?;
        self.from = at;
        Ok(())
    }

    // Takes the low side of an `Or` or a `Ne`.
    fn take_low(
        &mut self,
        at: u32,
        whole: Piece<'a>,
        low: Piece<'a>,
        other: Piece<'a>,
    ) -> Result<(), AllocError>
        ensures pieces { OnOk result (self.new.pieces.items
            ≡ slice_set self.old.pieces.items at low.entry) }
        ensures frames { OnOk result (self.new.frames.items
            ≡ self.old.frames.items ++ Frame.Low at whole.entry other.entry ∷ []) }
        ensures left { OnOk result (self.new.left ≡ self.old.left) }
    {
        self.put(at, low);
        self.frames.push(Frame::Low { at, whole, other })?;
        self.from = at;
        Ok(())
    }

    // Takes the high side of an `Or` or a `Ne`, whose low side is finished.
    fn take_high(
        &mut self,
        at: u32,
        whole: Piece<'a>,
        other: Piece<'a>,
        low: Refutation,
    ) -> Result<(), AllocError>
        ensures pieces { OnOk result (self.new.pieces.items
            ≡ slice_set self.old.pieces.items at other.entry) }
        ensures frames { OnOk result (self.new.frames.items
            ≡ self.old.frames.items ++ Frame.High at whole.entry low ∷ []) }
        ensures left { OnOk result (self.new.left ≡ self.old.left) }
    {
        self.put(at, other);
        self.frames.push(Frame::High { at, whole, low })?;
        self.from = at;
        Ok(())
    }

    // Puts the finished tree of the place under what was taken apart, up to a side that is waiting.
    fn climb(&mut self, alloc: Global, tree: Refutation) -> Result<Option<Refutation>, AllocError>
        ensures above { IfOk result (λ o. (claim : Claim) → (leaves : ℕ)
            → IsUnder claim leaves self.old (proof_of tree) → IsAbove claim leaves self.new o) }
        ensures left { OnOk result (self.new.left ≡ self.old.left) }
    {
        let mut tree = tree;
        while let Some(frame) = self.frames.pop() {
            match frame {
                Frame::Parts { at, whole } => {
                    let _right = self.pieces.pop();
                    self.put(at, whole);
                    tree = part(alloc, at, tree)?;
                }
                Frame::Low { at, whole, other } => {
                    self.take_high(at, whole, other, tree)?;
                    return Ok(None);
                }
                Frame::High { at, whole, low } => {
                    self.put(at, whole);
                    tree = split(alloc, at, low, tree)?;
                }
            }
        }
        Ok(Some(tree))
    }

    // Puts a tree with an unclosed leaf under what was taken apart. Each side that is waiting stays
    // unclosed.
    fn finish(&mut self, alloc: Global, tree: Refutation) -> Result<Refutation, AllocError>
        ensures { IfOk result (λ whole. (claim : Claim) → (leaves : ℕ)
            → IsOpenUnder claim leaves self.old.frames.items (proof_of tree)
            → IsSpent (claim ∷ []) leaves (proof_of whole)) }
    {
        let mut tree = tree;
        while let Some(frame) = self.frames.pop() {
            match frame {
                Frame::Parts { at, whole: _ } => tree = part(alloc, at, tree)?,
                Frame::Low {
                    at,
                    whole: _,
                    other: _,
                } => tree = split(alloc, at, tree, Refutation::Unclosed)?,
                Frame::High { at, whole: _, low } => tree = split(alloc, at, low, tree)?,
            }
        }
        Ok(tree)
    }

    // Goes on from what is found at the place.
    fn conclude(&mut self, alloc: Global, found: Found) -> Result<Option<Answer>, AllocError>
        ensures { let leaves = turns_on self.old.frames.items + self.old.left in
            IfOk result (λ o. (claim : Claim) → IsRoot claim → IsAt claim leaves self.old
            → IsFound claim (claims_in self.old.pieces.items) self.old.left found
            → Goes claim leaves self.old self.new o) }
    {
        match found {
            Found::Closed { tree, turns } => self.close(alloc, tree, turns),
            Found::Model(values) => Ok(Some(Answer::Sat(values))),
            Found::Spent(tree) => {
                let tree = self.finish(alloc, tree)?;
                Ok(Some(Answer::Undecided(Why::Leaves(tree))))
            }
            Found::Wide(wide) => Ok(Some(Answer::Undecided(Why::Wide(wide)))),
            Found::Far(far) => Ok(Some(Answer::Undecided(Why::Far(far)))),
        }
    }

    // Goes on from a tree that refutes the formulas at the place in so many turns.
    fn close(
        &mut self,
        alloc: Global,
        tree: Refutation,
        turns: u32,
    ) -> Result<Option<Answer>, AllocError>
        ensures { let leaves = turns_on self.old.frames.items + self.old.left in
            IfOk result (λ o. (claim : Claim) → IsRoot claim → IsAt claim leaves self.old
            → IsClosed (claims_in self.old.pieces.items) self.old.left (proof_of tree) turns
            → Goes claim leaves self.old self.new o) }
    {
        self.left = self.left.saturating_sub(turns);
        match self.climb(alloc, tree)? {
            Some(tree) => Ok(Some(Answer::Unsat(tree))),
            None => Ok(None),
        }
    }

    /// Decides one place, or takes one formula there apart.
    pub fn step(&mut self, alloc: Global, formula: &Formula) -> Result<Option<Answer>, AllocError>
        requires root { IsRoot (claim_of formula.now) }
        requires lead { Lead (claim_of formula.now ∷ []) self.old.frames.items
            (claims_in self.old.pieces.items) }
        ensures { let leaves = turns_on self.old.frames.items + self.old.left in
            IfOk result (Goes (claim_of formula.now) leaves self.old self.new) }
    {
        if self.left == 0 {
            let tree = self.finish(alloc, Refutation::Unclosed)?;
            return Ok(Some(Answer::Undecided(Why::Leaves(tree))));
        }
        match next_at(&self.pieces, self.from) {
            Next::Close(at) => self.close(alloc, Refutation::Absurd { at }, 1),
            Next::Part {
                at,
                whole,
                left,
                right,
            } => {
                self.take_parts(at, whole, left, right)?;
                Ok(None)
            }
            Next::Split {
                at,
                whole,
                low,
                high,
            } => match attempt(alloc, formula, &self.pieces, self.left, &mut self.allowance)? {
                Some(found) => self.conclude(alloc, found),
                None => {
                    self.take_low(at, whole, low, high)?;
                    Ok(None)
                }
            },
            Next::Settle => {
                let found = settle(alloc, &self.pieces, self.left, &mut self.allowance)?;
                self.conclude(alloc, found)
            }
        }
    }
}

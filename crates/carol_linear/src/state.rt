ghost use Rattle.std.specs.Prelude.{◌≡◌, ◌<◌, ◌+◌, ◌^◌, ◌++◌, None, IfOk, OnOk, IfNone, IfSome};
ghost use Rattle.carol_cert.specs.Proof.{proof_of};
ghost use Rattle.carol_cert.specs.declared.step.RowStep.TheVariants.{Given};
ghost use Rattle.carol_elimination.specs.Entries.{terms_of};
ghost use Rattle.carol_elimination.specs.Due.{IsDueFor};
ghost use Rattle.carol_linear.specs.Path.{frame_rows, waiting_on};
ghost use Rattle.carol_linear.specs.Place.{names_from};
ghost use Rattle.carol_linear.specs.State.{Start, IsAt, IsUnder, IsAbove, IsNext, CloseAt, HasEntered, HasLeft, Stays, all_rows, rank_of};

use crate::answer::{Far, RowList, RowsAnswer, Wide};
use crate::branch::{Frame, branch};
use crate::place::Place;
use crate::visit::{Visit, visit_place};
use carol_cert::{Refutation, RowStep, StepList};
use carol_elimination::Allowance;
use carol_formula::Row;
use std::alloc::{AllocError, Global};

/// Where a search stands: behind some branches, at a place with rows that stand for those of the
/// start and of the branches.
#[derive(Drop)]
pub struct State {
    pub place: Place,
    /// How many claims the search began with.
    pub claims: u32,
    pub frames: Vec<Frame>,
    /// How many turns may be taken.
    pub left: u32,
    /// Whether a leaf was left open.
    pub has_gap: bool,
}

// The rows of the branches.
fn branch_rows(alloc: Global, frames: &[Frame]) -> Result<RowList, AllocError>
    ensures { IfOk result (λ list. terms_of list ≡ frame_rows frames.now) }
{
    let mut rows = RowList::new(alloc);
    for frame in frames {
        rows.push(frame.row(alloc)?)?;
    }
    Ok(rows)
}

// The name of a branch's row, a claim that comes after those of the start and of the branches
// before. There is no room for more than 2^32 claims.
fn name(claims: u32, before: usize) -> Result<RowStep, AllocError>
    requires { before < 2 ^ 63 }
    ensures { IfOk result (λ name. name ≡ Given (claims + before)) }
{
    match u32::try_from(claims as usize + before) {
        Ok(at) => Ok(RowStep::Given { at }),
        Err(_) => Err(AllocError),
    }
}

impl State {
    /// At the place of the rows themselves.
    pub fn new(
        alloc: Global,
        rows: &[Row],
        names: &[RowStep],
        claims: u32,
        leaves: u32,
    ) -> Result<State, AllocError>
        ensures { IfOk result (IsAt (record {
          rows = terms_of rows.now;
          names = names.now;
          claims = claims;
          leaves = leaves;
        })) }
    {
        Ok(State {
            place: Place::new(alloc, rows, names)?,
            claims,
            frames: Vec::new(alloc),
            left: leaves,
            has_gap: false,
        })
    }

    // Goes to a side of a branch.
    fn enter(&mut self, alloc: Global, frame: Frame) -> Result<(), AllocError>
        ensures { OnOk result (HasEntered self.old self.new frame) }
    {
        let mut frame = frame;
        let name = name(self.claims, self.frames.len())?;
        frame.covered = self.place.add(frame.row(alloc)?, name)?;
        self.frames.push(frame)?;
        Ok(())
    }

    // Goes back to the place before the last branch.
    fn leave(&mut self) -> Option<Frame>
        ensures some { IfSome result (HasLeft self.old self.new) }
        ensures none { IfNone result (Stays self.old self.new) }
    {
        let mut frame = self.frames.pop()?;
        self.place.take_back(frame.covered.take());
        Some(frame)
    }

    // Puts the finished tree of the place under the branches whose low side is finished, up to one
    // whose high side is waiting.
    fn climb(&mut self, alloc: Global, tree: Refutation) -> Result<Option<Refutation>, AllocError>
        ensures above { IfOk result (λ o. (start : Start)
            → IsUnder start self.old (proof_of tree) → IsAbove start self.new o) }
        ensures falls { IfOk result (λ o. IfNone o
            (waiting_on self.new.frames.items < waiting_on self.old.frames.items)) }
        ensures left { OnOk result (self.new.left ≡ self.old.left) }
    {
        let mut tree = tree;
        while let Some(frame) = self.leave() {
            let Frame {
                variable,
                k,
                low,
                covered: _,
            } = frame;
            match low {
                None => {
                    let low = Some(tree);
                    let covered = None;
                    self.enter(
                        alloc,
                        Frame {
                            variable,
                            k,
                            low,
                            covered,
                        },
                    )?;
                    return Ok(None);
                }
                Some(low) => tree = branch(alloc, variable, k, low, tree)?,
            }
        }
        Ok(Some(tree))
    }

    // Goes on from the finished tree of the place.
    fn close(&mut self, alloc: Global, tree: Refutation) -> Result<Option<RowsAnswer>, AllocError>
        ensures next { IfOk result (λ o. (start : Start)
            → IsUnder start self.old (proof_of tree) → IsNext start self.new o) }
        ensures falls { IfOk result (λ o. IfNone o
            (waiting_on self.new.frames.items < waiting_on self.old.frames.items)) }
        ensures left { OnOk result (self.new.left ≡ self.old.left) }
    {
        match self.climb(alloc, tree)? {
            Some(tree) => {
                if self.has_gap {
                    Ok(Some(RowsAnswer::Spent(tree)))
                } else {
                    Ok(Some(RowsAnswer::Refuted(tree)))
                }
            }
            None => Ok(None),
        }
    }

    // Takes a turn for steps that close the claims at the place.
    fn close_by(&mut self, alloc: Global, steps: StepList) -> Result<Option<RowsAnswer>, AllocError>
        requires { 0 < self.old.left }
        ensures next { IfOk result (λ o. (start : Start)
            → IsAt start self.old → CloseAt start self.old steps → IsNext start self.new o) }
        ensures falls { IfOk result (λ o. IfNone o (rank_of self.new < rank_of self.old)) }
    {
        self.left -= 1;
        self.close(alloc, Refutation::Rows(steps))
    }

    // Takes a turn for a branch, and goes to its low side.
    fn split(&mut self, alloc: Global, frame: Frame) -> Result<Option<RowsAnswer>, AllocError>
        requires left { 0 < self.old.left }
        requires low { frame.low ≡ None }
        ensures next { IfOk result (λ o. (start : Start) → IsAt start self.old
            → IsDueFor (all_rows start self.old) frame.variable frame.k
            → IsNext start self.new o) }
        ensures falls { IfOk result (λ o. IfNone o (rank_of self.new < rank_of self.old)) }
    {
        self.left -= 1;
        self.enter(alloc, frame)?;
        Ok(None)
    }

    // All rows and names of the place, where those of the start are given.
    fn whole(&self, alloc: Global, rows: &[Row], names: &[RowStep]) -> Result<Place, AllocError>
        ensures rows { IfOk result (λ place. terms_of place.rows.items
            ≡ terms_of rows.now ++ frame_rows self.now.frames.items) }
        ensures names { IfOk result (λ place. place.names.items
            ≡ names.now ++ names_from self.now.claims (frame_rows self.now.frames.items)) }
    {
        let mut place = Place::new(alloc, rows, names)?;
        for before in 0..self.frames.len() {
            let row = self.frames[before].row(alloc)?;
            place.push(row, name(self.claims, before)?)?;
        }
        Ok(place)
    }

    // Decides the place by all its rows.
    fn decide(
        &mut self,
        alloc: Global,
        rows: &[Row],
        names: &[RowStep],
        allowance: &mut Allowance,
    ) -> Result<Option<RowsAnswer>, AllocError>
        requires { 0 < self.old.left }
        ensures next { IfOk result (λ o. (start : Start) → start.rows ≡ terms_of rows.now
            → start.names ≡ names.now → IsAt start self.old → IsNext start self.new o) }
        ensures falls { IfOk result (λ o. IfNone o (rank_of self.new < rank_of self.old)) }
    {
        let whole = self.whole(alloc, rows, names)?;
        match visit_place(alloc, &whole.rows, &whole.names, allowance)? {
            Visit::Closed(steps) => self.close_by(alloc, steps),
            Visit::Branch(frame) => self.split(alloc, frame),
            Visit::Model(values) => Ok(Some(RowsAnswer::Model(values))),
            Visit::Wide {
                upper,
                lower,
                variable,
            } => Ok(Some(RowsAnswer::Wide(Wide {
                branches: branch_rows(alloc, &self.frames)?,
                upper,
                lower,
                variable,
            }))),
            Visit::Far { row, values } => Ok(Some(RowsAnswer::Far(Far {
                branches: branch_rows(alloc, &self.frames)?,
                row,
                values,
            }))),
        }
    }

    /// Searches one place, and goes on to the next one if that gives no answer. The rows and names
    /// are those of the start. Behind branches few rows that stand for all are tried first, and all
    /// rows only where these neither close the place nor split it: a long way has many branches.
    pub fn step(
        &mut self,
        alloc: Global,
        rows: &[Row],
        names: &[RowStep],
        allowance: &mut Allowance,
    ) -> Result<Option<RowsAnswer>, AllocError>
        ensures next { IfOk result (λ o. (start : Start) → start.rows ≡ terms_of rows.now
            → start.names ≡ names.now → IsAt start self.old → IsNext start self.new o) }
        ensures falls { IfOk result (λ o. IfNone o (rank_of self.new < rank_of self.old)) }
    {
        if self.left == 0 {
            self.has_gap = true;
            return self.close(alloc, Refutation::Unclosed);
        }
        if self.frames.is_empty() {
            return self.decide(alloc, rows, names, allowance);
        }
        match visit_place(alloc, &self.place.rows, &self.place.names, allowance)? {
            Visit::Closed(steps) => self.close_by(alloc, steps),
            Visit::Branch(frame) => self.split(alloc, frame),
            _ => self.decide(alloc, rows, names, allowance),
        }
    }
}

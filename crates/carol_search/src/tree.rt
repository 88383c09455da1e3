//! The refutation that a search found, as one of the formula.

use crate::node::{Claim, Side, Sort};
use crate::state::{State, Tree};
use carol_cert::{Refutation, RowStep, StepList};
use carol_formula::{Boxed, Variable};
use carol_search_rows::{Cited, Reason, Stop, add, at, get, put};
use std::alloc::Global;

// How many jobs are done at most, and how many wait at most. A refutation is no deeper than that.
const JOBS: u32 = 4_000_000;

const MOST_WAITING: usize = 8_000;

// What is to be done for the refutation. What comes last is done first.
#[derive(Debug, Clone, Copy)]
enum Job {
    // To make the refutation of a tree.
    Make(usize),
    // To put a `Part` at the place over the last refutation. The node's parts lose their places.
    Part { node: usize, at: u32 },
    // To put a `Split` at the place over the last two refutations.
    Split(u32),
    // To put a branch over the last two refutations.
    Branch { form: usize, most: i128 },
    // The side of a choice stands at the place.
    Enter(Side, u32),
    // It doesn't any more.
    Leave(Side),
    // The row of a branch comes last.
    EnterBranch(usize),
    // It doesn't any more.
    LeaveBranch(usize),
}

// The maker of a refutation.
#[derive(Drop)]
struct Maker<'a> {
    state: &'a State,
    // The place of each node in the list of formulas, if it has one.
    places: Vec<Option<u32>>,
    // The place of each branch's row.
    rows: Vec<Option<u32>>,
    // How long the list is.
    count: u32,
    jobs: Vec<Job>,
    done: Vec<Refutation>,
}

// A row that stands among the steps.
#[derive(Debug, Clone, Copy)]
struct Placed {
    reason: Reason,
    row: u32,
}

// The steps of a leaf.
#[derive(Drop)]
struct Steps {
    list: StepList,
    count: u32,
    placed: Vec<Placed>,
}

// One more, as far as numbers go.
fn next_of(count: u32) -> Result<u32, Stop> {
    match count.checked_add(1) {
        Some(next) => Ok(next),
        None => Err(Stop::GivenUp),
    }
}

// A refutation in a box.
fn boxed(alloc: Global, tree: Refutation) -> Result<Boxed<Refutation>, Stop> {
    Ok(Boxed::new(alloc, tree)?)
}

impl Steps {
    fn new(alloc: Global) -> Steps {
        Steps {
            list: StepList::new(alloc),
            count: 0,
            placed: Vec::new(alloc),
        }
    }

    // Appends a step, and gives its row.
    fn push(&mut self, step: RowStep) -> Result<u32, Stop> {
        let row = self.count;
        self.count = next_of(row)?;
        self.list.push(step)?;
        Ok(row)
    }

    // The row with the reason, if it stands among the steps.
    fn found(&self, reason: Reason) -> Option<u32> {
        for placed in &self.placed {
            if placed.reason == reason {
                return Some(placed.row);
            }
        }
        None
    }

    // Appends the sum of the rows, each so many times, as the last row.
    fn combine(&mut self, maker: &Maker<'_>, cited: &[Cited]) -> Result<u32, Stop> {
        let mut sum: Option<(u32, i128)> = None;
        for one in cited {
            let row = self.row_of(maker, one.reason)?;
            sum = match sum {
                None => Some((row, one.times)),
                Some((a, m)) => {
                    let step = RowStep::Combine {
                        a,
                        m,
                        b: row,
                        n: one.times,
                    };
                    Some((self.push(step)?, 1))
                }
            };
        }
        let Some((a, m)) = sum else {
            return Err(Stop::GivenUp);
        };
        if m == 1 && next_of(a)? == self.count {
            return Ok(a);
        }
        self.push(RowStep::Combine { a, m, b: a, n: 0 })
    }

    // The row with the reason, which is appended if it doesn't stand among the steps. Cuts do.
    fn row_of(&mut self, maker: &Maker<'_>, reason: Reason) -> Result<u32, Stop> {
        if let Some(row) = self.found(reason) {
            return Ok(row);
        }
        let (step, divisor) = maker.given(reason)?;
        let given = self.push(step)?;
        let row = if divisor > 1 {
            self.push(RowStep::Tighten {
                a: given,
                d: divisor,
            })?
        } else {
            given
        };
        add(&mut self.placed, Placed { reason, row })?;
        Ok(row)
    }
}

// By what the row was divided.
fn divisor_of(claim: Claim) -> i128 {
    match claim {
        Claim::Constant(_) => 1,
        Claim::Bound { divisor, .. } => divisor,
    }
}

// The node that a row stands in, if it stands in one.
fn node_of(reason: Reason) -> Option<usize> {
    match reason {
        Reason::Given(node) | Reason::Reversed(node) => Some(node),
        Reason::Negative(node) | Reason::Positive(node) => Some(node),
        Reason::Branch(_) | Reason::Cut(_) | Reason::Link => None,
    }
}

impl<'a> Maker<'a> {
    fn new(alloc: Global, state: &'a State) -> Result<Maker<'a>, Stop> {
        let mut places = Vec::new(alloc);
        for _ in 0..state.nodes.len() {
            add(&mut places, None)?;
        }
        put(&mut places, 0, Some(0))?;
        let mut rows = Vec::new(alloc);
        for _ in 0..state.branches.len() {
            add(&mut rows, None)?;
        }
        Ok(Maker {
            state,
            places,
            rows,
            count: 1,
            jobs: Vec::new(alloc),
            done: Vec::new(alloc),
        })
    }

    // The place of the node, which has one.
    fn place(&self, node: usize) -> Result<u32, Stop> {
        match at(&self.places, node)? {
            Some(place) => Ok(place),
            None => Err(Stop::GivenUp),
        }
    }

    // The step that takes a row from the list, and by what the row is to be divided.
    fn given(&self, reason: Reason) -> Result<(RowStep, i128), Stop> {
        match reason {
            Reason::Given(node) | Reason::Negative(node) | Reason::Positive(node) => {
                let claim = self.state.node(node)?.first;
                let at = self.place(node)?;
                Ok((RowStep::Given { at }, divisor_of(claim)))
            }
            Reason::Reversed(node) => {
                let claim = self.state.node(node)?.second;
                let at = self.place(node)?;
                Ok((RowStep::Reversed { at }, divisor_of(claim)))
            }
            Reason::Branch(row) => match at(&self.rows, row)? {
                Some(at) => Ok((RowStep::Given { at }, 1)),
                None => Err(Stop::GivenUp),
            },
            Reason::Cut(_) | Reason::Link => Err(Stop::GivenUp),
        }
    }

    // Adds a job.
    fn wait(&mut self, job: Job) -> Result<(), Stop> {
        if self.jobs.len() >= MOST_WAITING {
            return Err(Stop::GivenUp);
        }
        add(&mut self.jobs, job)
    }

    // Takes each `And` over the node apart that isn't yet, so that the node has a place.
    fn reach(&mut self, alloc: Global, node: usize) -> Result<(), Stop> {
        let mut way = Vec::new(alloc);
        let mut next = node;
        for _ in 0..self.places.len() {
            if at(&self.places, next)?.is_some() {
                break;
            }
            match self.state.node(next)?.above {
                Some(above) => {
                    add(&mut way, above)?;
                    next = above;
                }
                None => return Err(Stop::GivenUp),
            }
        }
        for above in way.iter().rev() {
            self.take_apart(*above)?;
        }
        Ok(())
    }

    // Takes an `And` apart.
    fn take_apart(&mut self, number: usize) -> Result<(), Stop> {
        let node = self.state.node(number)?;
        if node.sort != Sort::And {
            return Err(Stop::GivenUp);
        }
        let at = self.place(number)?;
        put(&mut self.places, node.left, Some(at))?;
        put(&mut self.places, node.right, Some(self.count))?;
        self.count = next_of(self.count)?;
        self.wait(Job::Part { node: number, at })
    }

    // Marks the cuts that the rows cite.
    fn mark_cuts(&self, needed: &mut [bool], cited: &[Cited]) -> Result<(), Stop> {
        for one in cited {
            if let Reason::Cut(cut) = one.reason {
                put(needed, cut, true)?;
            }
        }
        Ok(())
    }

    // The cuts that the rows need, the first first. A cut needs only earlier ones.
    fn cuts_of(&self, alloc: Global, cited: &[Cited]) -> Result<Vec<usize>, Stop> {
        let state = self.state;
        let mut needed = Vec::new(alloc);
        for _ in 0..state.cuts.len() {
            add(&mut needed, false)?;
        }
        self.mark_cuts(&mut needed, cited)?;
        let mut cuts = Vec::new(alloc);
        for cut in (0..state.cuts.len()).rev() {
            if at(&needed, cut)? {
                self.mark_cuts(&mut needed, &get(&state.cuts, cut)?.cited)?;
                add(&mut cuts, cut)?;
            }
        }
        cuts.reverse();
        Ok(cuts)
    }

    // Gives each node that the rows stand in a place.
    fn reach_all(&mut self, alloc: Global, cited: &[Cited]) -> Result<(), Stop> {
        for one in cited {
            if let Some(node) = node_of(one.reason) {
                self.reach(alloc, node)?;
            }
        }
        Ok(())
    }

    // The refutation by the rows, each so many times.
    fn rows(&mut self, alloc: Global, cited: &[Cited]) -> Result<Refutation, Stop> {
        let state = self.state;
        let cuts = self.cuts_of(alloc, cited)?;
        self.reach_all(alloc, cited)?;
        for cut in &cuts {
            self.reach_all(alloc, &get(&state.cuts, *cut)?.cited)?;
        }
        let mut steps = Steps::new(alloc);
        for cut in &cuts {
            let made = get(&state.cuts, *cut)?;
            let sum = steps.combine(self, &made.cited)?;
            let row = steps.push(RowStep::Tighten {
                a: sum,
                d: made.divisor,
            })?;
            let reason = Reason::Cut(*cut);
            add(&mut steps.placed, Placed { reason, row })?;
        }
        steps.combine(self, cited)?;
        let Steps {
            list,
            count: _,
            placed: _,
        } = steps;
        Ok(Refutation::Rows(list))
    }

    // Begins the refutation of a tree.
    fn make(&mut self, alloc: Global, tree: usize) -> Result<(), Stop> {
        let state = self.state;
        match get(&state.trees, tree)? {
            Tree::Absurd(node) => {
                self.reach(alloc, *node)?;
                let at = self.place(*node)?;
                add(&mut self.done, Refutation::Absurd { at })
            }
            Tree::Rows(cited) => {
                let made = self.rows(alloc, cited)?;
                add(&mut self.done, made)
            }
            Tree::Split { node, left, right } => {
                self.reach(alloc, *node)?;
                let at = self.place(*node)?;
                let first = state.node(*node)?.side(*node, false);
                let second = state.node(*node)?.side(*node, true);
                self.wait(Job::Split(at))?;
                self.wait(Job::Leave(second))?;
                self.wait(Job::Make(*right))?;
                self.wait(Job::Enter(second, at))?;
                self.wait(Job::Leave(first))?;
                self.wait(Job::Make(*left))?;
                self.wait(Job::Enter(first, at))
            }
            Tree::Branch {
                form,
                most,
                low,
                high,
            } => {
                self.wait(Job::Branch {
                    form: *form,
                    most: *most,
                })?;
                for side in [high, low] {
                    self.wait(Job::LeaveBranch(side.row))?;
                    self.wait(Job::Make(side.tree))?;
                    self.wait(Job::EnterBranch(side.row))?;
                }
                Ok(())
            }
        }
    }

    // The last refutation.
    fn last(&mut self) -> Result<Refutation, Stop> {
        match self.done.pop() {
            Some(tree) => Ok(tree),
            None => Err(Stop::GivenUp),
        }
    }

    // Puts a `Part` over the last refutation.
    fn part(&mut self, alloc: Global, number: usize, at: u32) -> Result<(), Stop> {
        let node = self.state.node(number)?;
        put(&mut self.places, node.left, None)?;
        put(&mut self.places, node.right, None)?;
        self.count = self.count.saturating_sub(1);
        let rest = boxed(alloc, self.last()?)?;
        add(&mut self.done, Refutation::Part { at, rest })
    }

    // Puts a `Split` over the last two refutations.
    fn split(&mut self, alloc: Global, at: u32) -> Result<(), Stop> {
        let right = boxed(alloc, self.last()?)?;
        let left = boxed(alloc, self.last()?)?;
        add(&mut self.done, Refutation::Split { at, left, right })
    }

    // Puts a branch over the last two refutations.
    fn branch(&mut self, alloc: Global, form: usize, most: i128) -> Result<(), Stop> {
        let variable = Variable(at(&self.state.variables, form)?);
        let high = boxed(alloc, self.last()?)?;
        let low = boxed(alloc, self.last()?)?;
        let tree = Refutation::Branch {
            variable,
            k: most,
            low,
            high,
        };
        add(&mut self.done, tree)
    }

    // The side of a choice gets the place, or loses it. A case of a `Ne` stands where the `Ne` did.
    fn set_side(&mut self, side: Side, place: Option<u32>) -> Result<(), Stop> {
        match side {
            Side::Whole(node) => put(&mut self.places, node, place),
            Side::Negative(_) | Side::Positive(_) => Ok(()),
        }
    }

    // Does a job.
    fn work(&mut self, alloc: Global, job: Job) -> Result<(), Stop> {
        match job {
            Job::Make(tree) => self.make(alloc, tree),
            Job::Part { node, at } => self.part(alloc, node, at),
            Job::Split(at) => self.split(alloc, at),
            Job::Branch { form, most } => self.branch(alloc, form, most),
            Job::Enter(side, at) => self.set_side(side, Some(at)),
            Job::Leave(side) => self.set_side(side, None),
            Job::EnterBranch(row) => {
                put(&mut self.rows, row, Some(self.count))?;
                self.count = next_of(self.count)?;
                Ok(())
            }
            Job::LeaveBranch(row) => {
                put(&mut self.rows, row, None)?;
                self.count = self.count.saturating_sub(1);
                Ok(())
            }
        }
    }
}

/// The refutation of the formula that the tree with the number is.
pub fn refutation(alloc: Global, state: &State, tree: usize) -> Result<Refutation, Stop> {
    let mut maker = Maker::new(alloc, state)?;
    maker.wait(Job::Make(tree))?;
    for _ in 0..JOBS {
        match maker.jobs.pop() {
            Some(job) => maker.work(alloc, job)?,
            None => return maker.last(),
        }
    }
    Err(Stop::GivenUp)
}

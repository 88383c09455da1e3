//! The search itself: choices, branches, and what they find.

use crate::cut::Outcome;
use crate::hull::Limit;
use crate::state::{BranchRow, BranchTree, Closed, Frame, Pick, Refuted, State, Tree, Trial};
use carol_search_rows::{Bound, Fraction, Reason, Stop, add, at, cite, get_mut, sum};
use std::alloc::Global;

// How many levels there are at most.
const LEVELS: usize = 1_500;

// How often cuts are tried where nothing is branched on, and elsewhere.
const ROUNDS: usize = 8;

const ROUNDS_BELOW: usize = 2;

/// What is next.
#[derive(Debug, Drop)]
pub enum Task {
    /// To go on at the place.
    Solve,
    /// To split the choice.
    Split(usize),
    /// To go back up from a place that is refuted.
    Close(Closed),
    /// Nothing: these are numbers for the variables.
    Found(Vec<i128>),
}

impl State {
    /// Takes the formula for true.
    pub fn begin(&mut self, alloc: Global) -> Result<Task, Stop> {
        let refuted = self.take(alloc, crate::node::Side::Whole(0), 0)?;
        self.go_on(alloc, refuted)
    }

    /// Takes the next step.
    pub fn step(&mut self, alloc: Global, task: Task) -> Result<Task, Stop> {
        self.tableau.fuel.spend(8)?;
        match task {
            Task::Solve => self.solve(alloc),
            Task::Split(node) => {
                let pick = self.picked(node)?;
                self.split(alloc, pick)
            }
            Task::Close(closed) => self.close(alloc, closed),
            Task::Found(values) => Ok(Task::Found(values)),
        }
    }

    // Goes on, unless the place is refuted.
    fn go_on(&mut self, alloc: Global, refuted: Option<Refuted>) -> Result<Task, Stop> {
        match refuted {
            Some(refuted) => Ok(Task::Close(self.leaf(alloc, refuted)?)),
            None => Ok(Task::Solve),
        }
    }

    // Goes on at a place.
    fn solve(&mut self, alloc: Global) -> Result<Task, Stop> {
        self.tableau.fuel.spend(self.open.len())?;
        if let Some(pick) = self.pick(None)? {
            return self.split(alloc, pick);
        }
        if let Some(cited) = self.tableau.check(alloc)? {
            return Ok(Task::Close(self.leaf(alloc, Refuted::Rows(cited))?));
        }
        let model = self.model(alloc)?;
        let Some(pick) = self.pick(Some(&model))? else {
            return self.whole(alloc);
        };
        if !pick.is_first_dead && !pick.is_second_dead {
            if let Some(limit) = self.hull(alloc, &model, pick.node)? {
                return self.split_hull(alloc, pick.node, limit);
            }
        }
        self.split(alloc, pick)
    }

    // Adds a level.
    fn push(&mut self, trial: Trial, is_turned: bool) -> Result<usize, Stop> {
        if self.frames.len() >= LEVELS {
            return Err(Stop::GivenUp);
        }
        let frame = Frame {
            trial,
            mark: self.tableau.mark(),
            open: self.open.len(),
            is_turned,
            row: 0,
            done: None,
            done_row: 0,
        };
        add(&mut self.frames, frame)?;
        Ok(self.frames.len())
    }

    // Tries the sides of a choice, the one that will be refuted first.
    fn split(&mut self, alloc: Global, pick: Pick) -> Result<Task, Stop> {
        let node = at(&self.nodes, pick.node)?;
        let model = self.model(alloc)?;
        let is_turned = if pick.is_first_dead || pick.is_second_dead {
            !pick.is_first_dead
        } else {
            let first = self.falsehoods(&model, node.side(pick.node, false))?;
            let second = self.falsehoods(&model, node.side(pick.node, true))?;
            first > second
        };
        let level = self.push(Trial::Split(pick.node), is_turned)?;
        get_mut(&mut self.nodes, pick.node)?.split = Some(level);
        let refuted = self.take(alloc, node.side(pick.node, is_turned), level)?;
        self.go_on(alloc, refuted)
    }

    // Tries one side of a branch.
    fn take_branch(
        &mut self,
        alloc: Global,
        form: usize,
        most: i128,
        is_low: bool,
    ) -> Result<Option<Refuted>, Stop> {
        let level = self.frames.len();
        let row = self.branches.len();
        let branch = BranchRow {
            level,
            form,
            most,
            is_low,
        };
        add(&mut self.branches, branch)?;
        if let Some(frame) = self.frames.last_mut() {
            frame.row = row;
        }
        let bound = Bound {
            value: if is_low { most } else { sum(most, 1)? },
            reason: Reason::Branch(row),
        };
        self.take_bound(alloc, form, is_low, bound)
    }

    // Tries the bound that both sides of the choice have.
    fn split_hull(&mut self, alloc: Global, node: usize, limit: Limit) -> Result<Task, Stop> {
        let most = if limit.is_upper {
            limit.value
        } else {
            sum(limit.value, -1)?
        };
        let trial = Trial::Hull {
            form: limit.form,
            most,
            node,
        };
        self.push(trial, !limit.is_upper)?;
        let refuted = self.take_branch(alloc, limit.form, most, limit.is_upper)?;
        self.go_on(alloc, refuted)
    }

    // Tries both halves of the numbers of a variable.
    fn branch(&mut self, alloc: Global, form: usize, most: i128) -> Result<Task, Stop> {
        self.push(Trial::Branch { form, most }, false)?;
        self.branching = self.branching.saturating_add(1);
        let refuted = self.take_branch(alloc, form, most, true)?;
        self.go_on(alloc, refuted)
    }

    // Tries the side that is left, where one is refuted.
    fn turn(&mut self, alloc: Global, frame: Frame, closed: Closed) -> Result<Task, Stop> {
        let Frame {
            trial,
            mark,
            open,
            is_turned,
            row,
            done: _,
            done_row: _,
        } = frame;
        let next = Frame {
            trial,
            mark,
            open,
            is_turned,
            row: 0,
            done: Some(closed),
            done_row: row,
        };
        add(&mut self.frames, next)?;
        let level = self.frames.len();
        match trial {
            Trial::Split(number) => {
                let side = at(&self.nodes, number)?.side(number, !is_turned);
                let refuted = self.take(alloc, side, level)?;
                self.go_on(alloc, refuted)
            }
            Trial::Branch { form, most } => {
                let refuted = self.take_branch(alloc, form, most, is_turned)?;
                self.go_on(alloc, refuted)
            }
            Trial::Hull { form, most, node } => {
                if let Some(refuted) = self.take_branch(alloc, form, most, is_turned)? {
                    return Ok(Task::Close(self.leaf(alloc, refuted)?));
                }
                match self.tableau.check(alloc)? {
                    Some(cited) => Ok(Task::Close(self.leaf(alloc, Refuted::Rows(cited))?)),
                    None => Ok(Task::Split(node)),
                }
            }
        }
    }

    // Leaves a level.
    fn leave(&mut self, trial: Trial) -> Result<(), Stop> {
        match trial {
            Trial::Split(node) => get_mut(&mut self.nodes, node)?.split = None,
            Trial::Branch { .. } => self.branching = self.branching.saturating_sub(1),
            Trial::Hull { .. } => {}
        }
        Ok(())
    }

    // Goes back up from a place that is refuted. A level that isn't needed is left out.
    fn close(&mut self, alloc: Global, closed: Closed) -> Result<Task, Stop> {
        let level = self.frames.len();
        let Some(frame) = self.frames.pop() else {
            return Err(Stop::GivenUp);
        };
        self.tableau.undo(frame.mark)?;
        self.open.truncate(frame.open);
        if closed.levels.last() != Some(&level) {
            self.leave(frame.trial)?;
            return Ok(Task::Close(closed));
        }
        if frame.done.is_none() {
            return self.turn(alloc, frame, closed);
        }
        self.leave(frame.trial)?;
        Ok(Task::Close(self.join(frame, closed)?))
    }

    // Both sides of a level are refuted.
    fn join(&mut self, frame: Frame, closed: Closed) -> Result<Closed, Stop> {
        let Frame {
            trial,
            mark: _,
            open: _,
            is_turned,
            row,
            done,
            done_row,
        } = frame;
        let Some(
            Closed {
                tree: first,
                levels: first_levels,
            },
        ) = done
        else {
            return Err(Stop::GivenUp);
        };
        let Closed {
            tree: second,
            mut levels,
        } = closed;
        let own = levels.pop();
        for level in &first_levels {
            if Some(*level) != own {
                cite(&mut levels, *level)?;
            }
        }
        let one = BranchTree {
            row: done_row,
            tree: first,
        };
        let other = BranchTree { row, tree: second };
        let (low, high) = if is_turned {
            (other, one)
        } else {
            (one, other)
        };
        if let Trial::Split(node) = trial {
            cite(&mut levels, self.node(node)?.level)?;
        }
        let tree = self.trees.len();
        add(&mut self.trees, joined(trial, low, high))?;
        Ok(Closed { tree, levels })
    }

    // The numbers of the variables, rounded down, or up.
    fn rounded(
        &self,
        alloc: Global,
        model: &[Fraction],
        is_up: bool,
    ) -> Result<Vec<Fraction>, Stop> {
        let mut numbers = Vec::new(alloc);
        for value in model {
            let down = value.down()?;
            let is_whole = value.is_at_most(down)?;
            let number = if is_up && !is_whole {
                sum(down, 1)?
            } else {
                down
            };
            add(&mut numbers, Fraction::whole(number))?;
        }
        Ok(numbers)
    }

    // Whole numbers near the model that make the formula true.
    fn near(&mut self, alloc: Global) -> Result<Option<Task>, Stop> {
        let model = self.model(alloc)?;
        for is_up in [false, true] {
            self.tableau.fuel.spend(self.nodes.len())?;
            let numbers = self.rounded(alloc, &model, is_up)?;
            if self.is_true(&numbers, 0)? {
                return Ok(Some(found(alloc, &numbers)?));
            }
        }
        Ok(None)
    }

    // Rows and choices hold: looks for whole numbers.
    fn whole(&mut self, alloc: Global) -> Result<Task, Stop> {
        let rounds = if self.branching == 0 {
            ROUNDS
        } else {
            ROUNDS_BELOW
        };
        for _ in 0..rounds {
            let rows = self.fractions(alloc)?;
            if rows.is_empty() {
                let model = self.model(alloc)?;
                return found(alloc, &model);
            }
            if let Some(task) = self.near(alloc)? {
                return Ok(task);
            }
            match self.cut(alloc, &rows)? {
                Outcome::Refuted(refuted) => return Ok(Task::Close(self.leaf(alloc, refuted)?)),
                Outcome::Nothing => break,
                Outcome::Made => {}
            }
            if let Some(cited) = self.tableau.check(alloc)? {
                return Ok(Task::Close(self.leaf(alloc, Refuted::Rows(cited))?));
            }
            let model = self.model(alloc)?;
            if self.pick(Some(&model))?.is_some() {
                return Ok(Task::Solve);
            }
        }
        self.branch_least(alloc)
    }

    // Branches on the first variable that has no whole number.
    fn branch_least(&mut self, alloc: Global) -> Result<Task, Stop> {
        let model = self.model(alloc)?;
        for (form, value) in model.iter().enumerate() {
            let down = value.down()?;
            if !value.is_at_most(down)? {
                return self.branch(alloc, form, down);
            }
        }
        found(alloc, &model)
    }
}

// The tree of both sides of what was tried.
fn joined(trial: Trial, low: BranchTree, high: BranchTree) -> Tree {
    match trial {
        Trial::Split(node) => Tree::Split {
            node,
            left: low.tree,
            right: high.tree,
        },
        Trial::Branch { form, most } => Tree::Branch {
            form,
            most,
            low,
            high,
        },
        Trial::Hull {
            form,
            most,
            node: _,
        } => Tree::Branch {
            form,
            most,
            low,
            high,
        },
    }
}

// The whole numbers are found.
fn found(alloc: Global, model: &[Fraction]) -> Result<Task, Stop> {
    let mut values = Vec::new(alloc);
    for value in model {
        add(&mut values, value.down()?)?;
    }
    Ok(Task::Found(values))
}

//! Where a search stands, and what it asks there.

use crate::node::{Claim, Flattened, Node, Side, Sort};
use carol_formula::Formula;
use carol_search_rows::{
    Bound, Cited, Fraction, Fuel, Mark, Reason, Stop, Tableau, add, at, cite, cite_all, get,
    get_mut,
};
use std::alloc::Global;

// How deep a formula is looked into.
const MOST_DEEP: u32 = 4_000;

/// A row that a branch adds: the form is at most `most`, or above it.
#[derive(Debug, Clone, Copy)]
pub struct BranchRow {
    pub level: usize,
    pub form: usize,
    pub most: i128,
    pub is_low: bool,
}

/// A row that follows for whole numbers: rows are added up, and the sum is divided.
#[derive(Debug, Drop)]
pub struct Cut {
    pub cited: Vec<Cited>,
    pub divisor: i128,
    pub levels: Vec<usize>,
}

/// What shows that a place is refuted.
#[derive(Debug, Drop)]
pub enum Tree {
    /// The node is `False`.
    Absurd(usize),
    /// The rows, each so many times, make an absurd row.
    Rows(Vec<Cited>),
    /// Both sides of the node are refuted, by these trees.
    Split {
        node: usize,
        left: usize,
        right: usize,
    },
    /// Both rows of a branch are refuted.
    Branch {
        form: usize,
        most: i128,
        low: BranchTree,
        high: BranchTree,
    },
}

/// A branch's row and the tree that refutes it, by their numbers.
#[derive(Debug, Clone, Copy)]
pub struct BranchTree {
    pub row: usize,
    pub tree: usize,
}

/// A refuted place: the tree's number, and the levels that it needs.
#[derive(Debug, Drop)]
pub struct Closed {
    pub tree: usize,
    pub levels: Vec<usize>,
}

/// What is being tried at a level.
#[derive(Debug, Clone, Copy)]
pub enum Trial {
    /// The sides of the node.
    Split(usize),
    /// The variable is at most the number, or above it.
    Branch {
        form: usize,
        most: i128,
    },
    /// The same, where one of these follows from both sides of the node.
    Hull {
        form: usize,
        most: i128,
        node: usize,
    },
}

/// A level: what is tried, and what it found so far.
#[derive(Debug, Drop)]
pub struct Frame {
    pub trial: Trial,
    pub mark: Mark,
    pub open: usize,
    /// The second side is tried first.
    pub is_turned: bool,
    /// The row of the present side of a branch.
    pub row: usize,
    /// The side that is refuted, with its row.
    pub done: Option<Closed>,
    pub done_row: usize,
}

/// A choice to be split, and whether bounds alone refute its sides.
#[derive(Debug, Clone, Copy)]
pub struct Pick {
    pub node: usize,
    pub is_first_dead: bool,
    pub is_second_dead: bool,
}

/// Where a search stands.
#[derive(Debug, Drop)]
pub struct State {
    pub nodes: Vec<Node>,
    pub variables: Vec<u32>,
    pub tableau: Tableau,
    /// The choices that hold and aren't made.
    pub open: Vec<usize>,
    pub frames: Vec<Frame>,
    pub trees: Vec<Tree>,
    pub cuts: Vec<Cut>,
    pub branches: Vec<BranchRow>,
    /// How many levels are branches.
    pub branching: usize,
}

/// Why a place is refuted.
#[derive(Debug, Drop)]
pub enum Refuted {
    /// The node is `False`.
    Absurd(usize),
    /// The rows contradict one another.
    Rows(Vec<Cited>),
}

impl State {
    /// The beginning, at which the formula isn't taken yet.
    pub fn new(alloc: Global, formula: &Formula, fuel: Fuel) -> Result<State, Stop> {
        let Flattened {
            nodes,
            variables,
            forms,
        } = Flattened::new(alloc, formula)?;
        Ok(State {
            nodes,
            variables,
            tableau: Tableau::new(alloc, forms, fuel),
            open: Vec::new(alloc),
            frames: Vec::new(alloc),
            trees: Vec::new(alloc),
            cuts: Vec::new(alloc),
            branches: Vec::new(alloc),
            branching: 0,
        })
    }

    /// The node with the number.
    pub fn node(&self, number: usize) -> Result<&Node, Stop> {
        get(&self.nodes, number)
    }

    // Puts the levels that a row needs into the list.
    fn cite_levels(&self, levels: &mut Vec<usize>, reason: Reason) -> Result<(), Stop> {
        match reason {
            Reason::Given(node) | Reason::Reversed(node) => cite(levels, self.node(node)?.level),
            Reason::Negative(node) | Reason::Positive(node) => match self.node(node)?.split {
                Some(level) => cite(levels, level),
                None => Err(Stop::GivenUp),
            },
            Reason::Branch(row) => cite(levels, at(&self.branches, row)?.level),
            Reason::Cut(cut) => cite_all(levels, &get(&self.cuts, cut)?.levels),
            Reason::Link => Ok(()),
        }
    }

    /// The levels that the rows need.
    pub fn levels_of(&self, alloc: Global, cited: &[Cited]) -> Result<Vec<usize>, Stop> {
        let mut levels = Vec::new(alloc);
        for one in cited {
            self.cite_levels(&mut levels, one.reason)?;
        }
        Ok(levels)
    }

    /// The place is refuted, and the tree is a leaf.
    pub fn leaf(&mut self, alloc: Global, refuted: Refuted) -> Result<Closed, Stop> {
        let tree = self.trees.len();
        match refuted {
            Refuted::Absurd(node) => {
                let mut levels = Vec::new(alloc);
                add(&mut levels, self.node(node)?.level)?;
                add(&mut self.trees, Tree::Absurd(node))?;
                Ok(Closed { tree, levels })
            }
            Refuted::Rows(cited) => {
                let levels = self.levels_of(alloc, &cited)?;
                add(&mut self.trees, Tree::Rows(cited))?;
                Ok(Closed { tree, levels })
            }
        }
    }

    // Takes a row for true.
    fn take_row(
        &mut self,
        alloc: Global,
        claim: Claim,
        reason: Reason,
    ) -> Result<Option<Refuted>, Stop> {
        match claim {
            Claim::Constant(true) => Ok(None),
            Claim::Constant(false) => {
                let mut cited = Vec::new(alloc);
                add(&mut cited, Cited { reason, times: 1 })?;
                Ok(Some(Refuted::Rows(cited)))
            }
            Claim::Bound {
                form,
                is_upper,
                value,
                divisor: _,
            } => self.take_bound(alloc, form, is_upper, Bound { value, reason }),
        }
    }

    /// Takes a bound for true.
    pub fn take_bound(
        &mut self,
        alloc: Global,
        form: usize,
        is_upper: bool,
        bound: Bound,
    ) -> Result<Option<Refuted>, Stop> {
        match self.tableau.bound(alloc, form, is_upper, bound)? {
            Some(cited) => Ok(Some(Refuted::Rows(cited))),
            None => Ok(None),
        }
    }

    /// Takes a side for true from the level on.
    pub fn take(
        &mut self,
        alloc: Global,
        side: Side,
        level: usize,
    ) -> Result<Option<Refuted>, Stop> {
        match side {
            Side::Whole(node) => self.take_node(alloc, node, level),
            Side::Negative(node) => {
                let claim = self.node(node)?.first;
                self.take_row(alloc, claim, Reason::Negative(node))
            }
            Side::Positive(node) => {
                let claim = self.node(node)?.second;
                self.take_row(alloc, claim, Reason::Positive(node))
            }
        }
    }

    // Takes the node for true, and with an `And` its parts.
    fn take_node(
        &mut self,
        alloc: Global,
        node: usize,
        level: usize,
    ) -> Result<Option<Refuted>, Stop> {
        let mut waiting = Vec::new(alloc);
        add(&mut waiting, node)?;
        for _ in 0..self.nodes.len() {
            let Some(number) = waiting.pop() else {
                return Ok(None);
            };
            self.tableau.fuel.spend(2)?;
            get_mut(&mut self.nodes, number)?.level = level;
            let node = at(&self.nodes, number)?;
            if node.sort == Sort::And {
                add(&mut waiting, node.right)?;
                add(&mut waiting, node.left)?;
            } else if let Some(refuted) = self.take_leaf(alloc, number, &node)? {
                return Ok(Some(refuted));
            }
        }
        Ok(None)
    }

    // Takes a node that is no `And` for true.
    fn take_leaf(
        &mut self,
        alloc: Global,
        number: usize,
        node: &Node,
    ) -> Result<Option<Refuted>, Stop> {
        match node.sort {
            Sort::False => Ok(Some(Refuted::Absurd(number))),
            Sort::Le => self.take_row(alloc, node.first, Reason::Given(number)),
            Sort::Eq => match self.take_row(alloc, node.first, Reason::Given(number))? {
                Some(refuted) => Ok(Some(refuted)),
                None => self.take_row(alloc, node.second, Reason::Reversed(number)),
            },
            Sort::Ne | Sort::Or => {
                add(&mut self.open, number)?;
                Ok(None)
            }
            Sort::True | Sort::And => Ok(None),
        }
    }

    /// The number of each variable in the present model.
    pub fn model(&mut self, alloc: Global) -> Result<Vec<Fraction>, Stop> {
        self.tableau.fuel.spend(self.variables.len())?;
        let mut model = Vec::new(alloc);
        for variable in 0..self.variables.len() {
            add(&mut model, self.tableau.value(variable)?)?;
        }
        Ok(model)
    }

    // Whether the row is true of the model.
    fn is_row_true(&self, model: &[Fraction], claim: Claim) -> Result<bool, Stop> {
        match claim {
            Claim::Constant(is_true) => Ok(is_true),
            Claim::Bound {
                form,
                is_upper,
                value,
                divisor: _,
            } => {
                let mut total = Fraction::whole(0);
                for variable in &self.tableau.form(form)?.variables {
                    total = total.plus(variable.times, at(model, variable.form)?)?;
                }
                if is_upper {
                    total.is_at_most(value)
                } else {
                    total.is_at_least(value)
                }
            }
        }
    }

    // Whether the node is true of the model. It is looked into so many levels deep.
    fn is_true_within(&self, model: &[Fraction], number: usize, deep: u32) -> Result<bool, Stop> {
        if deep == 0 {
            return Err(Stop::GivenUp);
        }
        let node = self.node(number)?;
        match node.sort {
            Sort::True => Ok(true),
            Sort::False => Ok(false),
            Sort::Le => self.is_row_true(model, node.first),
            Sort::Eq => Ok(
                self.is_row_true(model, node.first)? && self.is_row_true(model, node.second)?,
            ),
            Sort::Ne => Ok(
                self.is_row_true(model, node.first)? || self.is_row_true(model, node.second)?,
            ),
            Sort::And => {
                if !self.is_true_within(model, node.left, deep - 1)? {
                    return Ok(false);
                }
                self.is_true_within(model, node.right, deep - 1)
            }
            Sort::Or => {
                if self.is_true_within(model, node.left, deep - 1)? {
                    return Ok(true);
                }
                self.is_true_within(model, node.right, deep - 1)
            }
        }
    }

    /// Whether the node is true of the model.
    pub fn is_true(&self, model: &[Fraction], number: usize) -> Result<bool, Stop> {
        self.is_true_within(model, number, MOST_DEEP)
    }

    // Whether a bound refutes the row.
    fn is_row_dead(&self, claim: Claim) -> Result<bool, Stop> {
        match claim {
            Claim::Constant(is_true) => Ok(!is_true),
            Claim::Bound {
                form,
                is_upper,
                value,
                divisor: _,
            } => match self.tableau.form(form)?.bound(!is_upper) {
                Some(other) if is_upper => Ok(other.value > value),
                Some(other) => Ok(other.value < value),
                None => Ok(false),
            },
        }
    }

    // Whether bounds alone refute the node.
    fn is_dead_within(&self, number: usize, deep: u32) -> Result<bool, Stop> {
        if deep == 0 {
            return Err(Stop::GivenUp);
        }
        let node = self.node(number)?;
        match node.sort {
            Sort::True => Ok(false),
            Sort::False => Ok(true),
            Sort::Le => self.is_row_dead(node.first),
            Sort::Eq => Ok(self.is_row_dead(node.first)? || self.is_row_dead(node.second)?),
            Sort::Ne => Ok(self.is_row_dead(node.first)? && self.is_row_dead(node.second)?),
            Sort::And => {
                if self.is_dead_within(node.left, deep - 1)? {
                    return Ok(true);
                }
                self.is_dead_within(node.right, deep - 1)
            }
            Sort::Or => {
                if !self.is_dead_within(node.left, deep - 1)? {
                    return Ok(false);
                }
                self.is_dead_within(node.right, deep - 1)
            }
        }
    }

    // Whether bounds alone refute the side.
    fn is_side_dead(&self, side: Side) -> Result<bool, Stop> {
        match side {
            Side::Whole(node) => self.is_dead_within(node, MOST_DEEP),
            Side::Negative(node) => self.is_row_dead(self.node(node)?.first),
            Side::Positive(node) => self.is_row_dead(self.node(node)?.second),
        }
    }

    // How many conjuncts of the node the model makes false.
    fn false_within(&self, model: &[Fraction], number: usize, deep: u32) -> Result<usize, Stop> {
        if deep == 0 {
            return Err(Stop::GivenUp);
        }
        let node = self.node(number)?;
        if node.sort == Sort::And {
            let left = self.false_within(model, node.left, deep - 1)?;
            let right = self.false_within(model, node.right, deep - 1)?;
            return Ok(left.saturating_add(right));
        }
        if self.is_true(model, number)? {
            Ok(0)
        } else {
            Ok(1)
        }
    }

    /// How many conjuncts of the side the model makes false.
    pub fn falsehoods(&self, model: &[Fraction], side: Side) -> Result<usize, Stop> {
        let is_true = match side {
            Side::Whole(node) => return self.false_within(model, node, MOST_DEEP),
            Side::Negative(node) => self.is_row_true(model, self.node(node)?.first)?,
            Side::Positive(node) => self.is_row_true(model, self.node(node)?.second)?,
        };
        if is_true { Ok(0) } else { Ok(1) }
    }

    /// The choice with the number, and whether bounds refute its sides.
    pub fn picked(&self, number: usize) -> Result<Pick, Stop> {
        let node = self.node(number)?;
        Ok(Pick {
            node: number,
            is_first_dead: self.is_side_dead(node.side(number, false))?,
            is_second_dead: self.is_side_dead(node.side(number, true))?,
        })
    }

    /// The last open choice that is to be split: without a model one of the last conjunct, else one
    /// that the model makes false. One with a side that bounds refute goes first.
    pub fn pick(&self, model: Option<&[Fraction]>) -> Result<Option<Pick>, Stop> {
        let mut found = None;
        for number in self.open.iter().rev() {
            let node = self.node(*number)?;
            let is_wanted = match model {
                _ if node.split.is_some() => false,
                None => node.is_goal,
                Some(model) => !self.is_true(model, *number)?,
            };
            if is_wanted {
                let pick = self.picked(*number)?;
                if pick.is_first_dead || pick.is_second_dead {
                    return Ok(Some(pick));
                }
                if found.is_none() {
                    found = Some(pick);
                }
            }
        }
        Ok(found)
    }
}

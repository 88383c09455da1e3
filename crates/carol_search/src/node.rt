//! The formula as a list of nodes, and what its comparisons say of forms.

use carol_formula::{Formula, Term};
use carol_search_rows::{
    Forms, Product, Signed, Stop, add, at, divided, divisor_of, floor, get, get_mut, negated, sum,
};
use std::alloc::Global;

// The most nodes of a formula that is searched.
const MOST_NODES: u32 = 65_536;

// The parameters and the result of an operation: each stands in a group of its own.
const ALONE_FROM: u32 = 32;

const ALONE_BELOW: u32 = 64;

// The other variables of one group have the same number but for the last four bits.
const GROUP: u32 = 16;

/// What a node of the formula is.
#[derive(Debug, Clone, Copy, PartialEq, Eq)]
pub enum Sort {
    True,
    False,
    Le,
    Eq,
    Ne,
    And,
    Or,
}

/// What a row says.
#[derive(Debug, Clone, Copy)]
pub enum Claim {
    /// It has no variables, and is true or false.
    Constant(bool),
    /// The form is at most the value, or at least. The row was divided by the divisor.
    Bound {
        form: usize,
        is_upper: bool,
        value: i128,
        divisor: i128,
    },
}

/// A node of the formula.
#[derive(Debug, Clone, Copy)]
pub struct Node {
    pub sort: Sort,
    pub left: usize,
    pub right: usize,
    pub above: Option<usize>,
    /// The row of a `Le` or an `Eq` as it stands, or the first case of a `Ne`.
    pub first: Claim,
    /// The row of an `Eq` with its sign turned, or the second case of a `Ne`.
    pub second: Claim,
    /// It is a choice in the last conjunct.
    pub is_goal: bool,
    /// The level from which on it holds.
    pub level: usize,
    /// The level at which its sides are tried, if they are.
    pub split: Option<usize>,
}

/// One of the two sides of a choice.
#[derive(Debug, Clone, Copy)]
pub enum Side {
    Whole(usize),
    Negative(usize),
    Positive(usize),
}

impl Node {
    /// Whether there are two sides to choose from.
    pub fn is_choice(&self) -> bool {
        self.sort == Sort::Or || self.sort == Sort::Ne
    }

    /// The side of a choice with this number.
    pub fn side(&self, number: usize, is_second: bool) -> Side {
        match (self.sort, is_second) {
            (Sort::Ne, false) => Side::Negative(number),
            (Sort::Ne, true) => Side::Positive(number),
            (_, false) => Side::Whole(self.left),
            (_, true) => Side::Whole(self.right),
        }
    }
}

// A part of the formula, under a node on one side.
#[derive(Clone, Copy)]
struct Flat<'a> {
    formula: &'a Formula,
    above: Option<usize>,
    is_right: bool,
}

// The parts of the formula, each before its own parts.
fn flatten<'a>(alloc: Global, formula: &'a Formula) -> Result<Vec<Flat<'a>>, Stop> {
    let mut list = Vec::new(alloc);
    let mut waiting = Vec::new(alloc);
    add(
        &mut waiting,
        Flat {
            formula,
            above: None,
            is_right: false,
        },
    )?;
    for _ in 0..MOST_NODES {
        let Some(next) = waiting.pop() else {
            return Ok(list);
        };
        let above = Some(list.len());
        add(&mut list, next)?;
        match next.formula {
            Formula::And(left, right) | Formula::Or(left, right) => {
                for (formula, is_right) in [(right.get(), true), (left.get(), false)] {
                    add(
                        &mut waiting,
                        Flat {
                            formula,
                            above,
                            is_right,
                        },
                    )?;
                }
            }
            Formula::Not(_) => return Err(Stop::GivenUp),
            _ => {}
        }
    }
    Err(Stop::GivenUp)
}

// The term that the formula compares, if it is a comparison.
fn term_of(formula: &Formula) -> Option<&Term> {
    match formula {
        Formula::Le(term) | Formula::Eq(term) | Formula::Ne(term) => Some(term),
        _ => None,
    }
}

// The variables of all comparisons, by ascending number.
fn variables_of(alloc: Global, list: &[Flat<'_>]) -> Result<Vec<u32>, Stop> {
    let mut all = Vec::new(alloc);
    for flat in list {
        if let Some(term) = term_of(flat.formula) {
            for pair in term.pairs() {
                add(&mut all, pair.0.0)?;
            }
        }
    }
    all.sort()?;
    let mut variables = Vec::new(alloc);
    let mut last = None;
    for variable in &all {
        if last != Some(*variable) {
            add(&mut variables, *variable)?;
            last = Some(*variable);
        }
    }
    Ok(variables)
}

// The group of each variable.
fn groups_of(alloc: Global, variables: &[u32]) -> Result<Vec<u32>, Stop> {
    let mut groups = Vec::new(alloc);
    for variable in variables {
        let is_alone = *variable >= ALONE_FROM && *variable < ALONE_BELOW;
        let group = if is_alone {
            u32::MAX - *variable
        } else {
            *variable / GROUP
        };
        add(&mut groups, group)?;
    }
    Ok(groups)
}

// The row of a form with a constant: the form, or with its sign turned, is at most the constant
// with its sign turned.
fn bound_of(
    signed: Signed,
    divisor: i128,
    constant: i128,
    is_reversed: bool,
) -> Result<Claim, Stop> {
    let is_upper = signed.is_turned == is_reversed;
    let most = floor(negated(constant)?, divisor)?;
    Ok(Claim::Bound {
        form: signed.form,
        is_upper,
        value: if is_upper { most } else { negated(most)? },
        divisor,
    })
}

// The constants of the two rows of a comparison.
fn constants_of(sort: Sort, rest: i128) -> Result<(i128, i128), Stop> {
    if sort == Sort::Ne {
        return Ok((sum(rest, 1)?, sum(1, negated(rest)?)?));
    }
    Ok((rest, negated(rest)?))
}

// The two rows of a comparison.
fn claims_of(
    alloc: Global,
    forms: &mut Forms,
    variables: &[u32],
    sort: Sort,
    term: &Term,
) -> Result<(Claim, Claim), Stop> {
    let (first, second) = constants_of(sort, term.rest())?;
    let mut products = Vec::new(alloc);
    for pair in term.pairs() {
        let Ok(form) = variables.binary_search(&pair.0.0) else {
            return Err(Stop::GivenUp);
        };
        add(
            &mut products,
            Product {
                form,
                times: pair.1,
            },
        )?;
    }
    if products.is_empty() {
        return Ok((Claim::Constant(first <= 0), Claim::Constant(second <= 0)));
    }
    let divisor = divisor_of(&products)?;
    let products = divided(alloc, &products, divisor, false)?;
    let signed = forms.signed(alloc, &products)?;
    Ok((
        bound_of(signed, divisor, first, false)?,
        bound_of(signed, divisor, second, true)?,
    ))
}

// What the formula is. A `Not` is none of these.
fn sort_of(formula: &Formula) -> Sort {
    match formula {
        Formula::True => Sort::True,
        Formula::Le(_) => Sort::Le,
        Formula::Eq(_) => Sort::Eq,
        Formula::Ne(_) => Sort::Ne,
        Formula::And(_, _) => Sort::And,
        Formula::Or(_, _) => Sort::Or,
        Formula::False | Formula::Not(_) => Sort::False,
    }
}

/// A formula that is searched.
#[derive(Debug, Drop)]
pub struct Flattened {
    /// Its nodes. The first is the formula itself, and each stands before its parts.
    pub nodes: Vec<Node>,
    /// The number of each variable.
    pub variables: Vec<u32>,
    pub forms: Forms,
}

impl Flattened {
    /// The formula's nodes and forms.
    pub fn new(alloc: Global, formula: &Formula) -> Result<Flattened, Stop> {
        let list = flatten(alloc, formula)?;
        let variables = variables_of(alloc, &list)?;
        let groups = groups_of(alloc, &variables)?;
        let forms = Forms::new(alloc, groups)?;
        let mut made = Flattened {
            nodes: Vec::new(alloc),
            variables,
            forms,
        };
        for flat in &list {
            made.push(alloc, flat)?;
        }
        made.mark_goal(alloc)?;
        Ok(made)
    }

    // Adds the node of a part.
    fn push(&mut self, alloc: Global, flat: &Flat<'_>) -> Result<(), Stop> {
        let sort = sort_of(flat.formula);
        let (first, second) = match term_of(flat.formula) {
            Some(term) => claims_of(alloc, &mut self.forms, &self.variables, sort, term)?,
            None => (Claim::Constant(true), Claim::Constant(true)),
        };
        let number = self.nodes.len();
        if let Some(above) = flat.above {
            let node = get_mut(&mut self.nodes, above)?;
            if flat.is_right {
                node.right = number;
            } else {
                node.left = number;
            }
        }
        let node = Node {
            sort,
            left: number,
            right: number,
            above: flat.above,
            first,
            second,
            is_goal: false,
            level: 0,
            split: None,
        };
        add(&mut self.nodes, node)
    }

    // The last conjunct.
    fn goal(&self) -> Result<usize, Stop> {
        let mut goal = 0;
        for _ in 0..self.nodes.len() {
            let node = get(&self.nodes, goal)?;
            if node.sort != Sort::And {
                break;
            }
            goal = node.right;
        }
        Ok(goal)
    }

    // Marks the choices of the last conjunct.
    fn mark_goal(&mut self, alloc: Global) -> Result<(), Stop> {
        let mut waiting = Vec::new(alloc);
        add(&mut waiting, self.goal()?)?;
        for _ in 0..self.nodes.len() {
            let Some(number) = waiting.pop() else {
                return Ok(());
            };
            let node = at(&self.nodes, number)?;
            if node.is_choice() {
                get_mut(&mut self.nodes, number)?.is_goal = true;
            }
            if node.sort == Sort::Or {
                add(&mut waiting, node.right)?;
                add(&mut waiting, node.left)?;
            }
        }
        Ok(())
    }
}

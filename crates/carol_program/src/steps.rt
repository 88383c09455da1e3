use carol_formula::{Formula, Term};
use sqlite_items::{Boxed, Items};

/// What an issue does to one cell: a counter's amount is added, a peak's is its target, and a
/// flag's is 1.
#[derive(Debug, Drop)]
pub struct Part {
    pub cell: u32,
    pub amount: Term,
}

/// The parts of an issue, in the order in which they are written.
pub type PartList = Items<Part>;

/// What an operation does, from one statement on. `number` counts the operation's statements from
/// 1, in the order of the text and with those that name a term, and `slot` its queries from 0.
#[derive(Debug)]
pub enum Step {
    Query {
        number: u32,
        guard: u32,
        slot: u32,
        next: Boxed<Step>,
    },
    Issue {
        number: u32,
        parts: PartList,
        next: Boxed<Step>,
    },
    Release {
        number: u32,
        next: Boxed<Step>,
    },
    Branch {
        number: u32,
        test: Formula,
        yes: Boxed<Step>,
        no: Boxed<Step>,
    },
    Return {
        number: u32,
        value: Term,
    },
}

// A chain of statements takes no stack; branches are nested at most 64 deep.
impl Drop for Step {
    fn drop(mut self) {
        loop {
            match self {
                Step::Query {
                    number: _,
                    guard: _,
                    slot: _,
                    next,
                } => self = next.into_inner(),
                Step::Issue {
                    number: _,
                    parts: _,
                    next,
                } => self = next.into_inner(),
                Step::Release { number: _, next } => self = next.into_inner(),
                Step::Branch {
                    number: _,
                    test: _,
                    yes,
                    no,
                } => {
                    let _yes = yes.into_inner();
                    self = no.into_inner();
                }
                Step::Return {
                    number: _,
                    value: _,
                } => return,
            }
        }
    }
}

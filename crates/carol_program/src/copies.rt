ghost use Rattle.std.specs.Prelude.{◌≡◌, IfOk};

use crate::accords::Entry;
use crate::names::{Name, Names, OpNames};
use crate::program::{Guard, Op, Program};
use crate::scenes::{Command, Scene, SessionPlan};
use crate::steps::Part;
use carol_formula::Formula;
use sqlite_items::Items;
use std::alloc::{AllocError, Global};

/// What lists are copied of.
pub(crate) trait Copied: Sized {
    /// An equal value.
    fn copied(&self, alloc: Global) -> Result<Self, AllocError>
        ensures { IfOk result (λ same. same ≡ self.now) };
}

/// An equal list.
pub(crate) fn copied_list<T: Copied + Drop>(
    alloc: Global,
    items: &Items<T>,
) -> Result<Items<T>, AllocError>
    ensures { IfOk result (λ same. same ≡ items.now) }
{
    let mut same = Items::new(alloc);
    let mut left = items.as_slice();
    while let Some((item, more)) = left.split_first() {
        same.push(item.copied(alloc)?)?;
        left = more;
    }
    Ok(same)
}

impl Copied for Name {
    fn copied(&self, alloc: Global) -> Result<Name, AllocError> {
        Name::new(alloc, self.bytes())
    }
}

impl Copied for OpNames {
    fn copied(&self, alloc: Global) -> Result<OpNames, AllocError> {
        Ok(OpNames {
            own: self.own.copied(alloc)?,
            params: copied_list(alloc, &self.params)?,
            queries: copied_list(alloc, &self.queries)?,
        })
    }
}

impl Copied for Formula {
    fn copied(&self, alloc: Global) -> Result<Formula, AllocError> {
        self.copy(alloc)
    }
}

impl Copied for Guard {
    fn copied(&self, alloc: Global) -> Result<Guard, AllocError> {
        Ok(Guard {
            formula: self.formula.copy(alloc)?,
        })
    }
}

impl Copied for Part {
    fn copied(&self, _alloc: Global) -> Result<Part, AllocError> {
        Ok(Part {
            cell: self.cell,
            amount: self.amount.copy()?,
        })
    }
}

impl Copied for Op {
    fn copied(&self, alloc: Global) -> Result<Op, AllocError> {
        Ok(Op {
            params: copied_list(alloc, &self.params)?,
            result: self.result.copy(alloc)?,
            body: self.body.copy(alloc)?,
        })
    }
}

impl Copied for Command {
    fn copied(&self, alloc: Global) -> Result<Command, AllocError> {
        Ok(Command {
            op: self.op,
            args: Items::from_slice(alloc, self.args.as_slice())?,
        })
    }
}

impl Copied for SessionPlan {
    fn copied(&self, alloc: Global) -> Result<SessionPlan, AllocError> {
        self.copy(alloc)
    }
}

impl Copied for Entry {
    fn copied(&self, _alloc: Global) -> Result<Entry, AllocError> {
        match self {
            Entry::Yes => Ok(Entry::Yes),
            Entry::No(stores) => Ok(Entry::No(stores.copy()?)),
        }
    }
}

impl Names {
    /// Equal names.
    pub fn copy(&self, alloc: Global) -> Result<Names, AllocError>
        ensures { IfOk result (λ same. same ≡ self.now) }
    {
        Ok(Names {
            cells: copied_list(alloc, &self.cells)?,
            guards: copied_list(alloc, &self.guards)?,
            ops: copied_list(alloc, &self.ops)?,
        })
    }
}

impl Program {
    /// An equal program.
    pub fn copy(&self, alloc: Global) -> Result<Program, AllocError>
        ensures { IfOk result (λ same. same ≡ self.now) }
    {
        Ok(Program {
            shape: self.shape.copy(),
            initial: self.initial.copy(),
            invariant: self.invariant.copy(alloc)?,
            guards: copied_list(alloc, &self.guards)?,
            ops: copied_list(alloc, &self.ops)?,
            names: self.names.copy(alloc)?,
        })
    }
}

impl SessionPlan {
    /// An equal plan.
    pub fn copy(&self, alloc: Global) -> Result<SessionPlan, AllocError>
        ensures { IfOk result (λ same. same ≡ self.now) }
    {
        Ok(SessionPlan {
            replica: self.replica,
            commands: copied_list(alloc, &self.commands)?,
        })
    }
}

impl Scene {
    /// An equal scene.
    pub fn copy(&self, alloc: Global) -> Result<Scene, AllocError>
        ensures { IfOk result (λ same. same ≡ self.now) }
    {
        Ok(Scene {
            replicas: self.replicas,
            tries: self.tries,
            workers: self.workers,
            gossipers: self.gossipers,
            sessions: copied_list(alloc, &self.sessions)?,
        })
    }
}

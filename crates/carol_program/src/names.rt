ghost use Rattle.std.specs.Prelude.{◌≡◌, ◌<◌, length, slice_get, Some, IfOk};
ghost use Rattle.carol_program.specs.Called.{own_of, params_of, queries_of};

use sqlite_items::Items;
use std::alloc::{AllocError, Global};
use std::marker::Model;

/// The bytes of a name.
#[derive(Debug, Drop)]
pub struct Name {
    bytes: Vec<u8>,
}

impl Model for Name {
    ghost use Rattle.std.specs.Prelude.{List, ℕ};
    ghost use Rattle.std.specs.Coded.{coded_list, coded_ℕ};

    ghost Value = { List ℕ };

    ghost coded = { coded_list coded_ℕ };

    ghost view = { λ n. n.bytes.items };
}

impl Name {
    /// A name of these bytes, whatever they are.
    pub fn new(alloc: Global, bytes: &[u8]) -> Result<Name, AllocError>
        ensures { IfOk result (λ name. name ≡ bytes.now) }
    {
        Ok(Name {
            bytes: Vec::from_slice(alloc, bytes)?,
        })
    }

    /// Its bytes.
    pub fn bytes(&self) -> &[u8]
        ensures { result.now ≡ self.now }
    {
        self.bytes.as_slice()
    }
}

/// Names by number, from 0.
pub type NameList = Items<Name>;

/// The name of an operation, those of its parameters in order, and those of its queries by slot.
#[derive(Debug, Drop)]
pub struct OpNames {
    pub own: Name,
    pub params: NameList,
    pub queries: NameList,
}

/// The names of operations by number, from 0.
pub type OpNameList = Items<OpNames>;

/// What the parts of a program are called. A cell has its whole path, as `s.a`.
#[derive(Debug, Drop)]
pub struct Names {
    pub cells: NameList,
    pub guards: NameList,
    pub ops: OpNameList,
}

// The name with this number, which is in range.
fn nth(names: &NameList, number: u32) -> &[u8]
    requires { number < length names.now }
    ensures { slice_get names.now number ≡ Some result.now }
{
    names.as_slice()[number as usize].bytes()
}

impl Names {
    /// The names of the cells, the guards and the operations, each in order.
    pub fn new(cells: NameList, guards: NameList, ops: OpNameList) -> Names
        ensures { result ≡ record { cells = cells; guards = guards; ops = ops } }
    {
        Names { cells, guards, ops }
    }

    /// The name of the cell, which is in range.
    pub fn cell_name(&self, number: u32) -> &[u8]
        requires { number < length self.now.cells }
        ensures { slice_get self.now.cells number ≡ Some result.now }
    {
        nth(&self.cells, number)
    }

    /// The name of the guard, which is in range.
    pub fn guard_name(&self, number: u32) -> &[u8]
        requires { number < length self.now.guards }
        ensures { slice_get self.now.guards number ≡ Some result.now }
    {
        nth(&self.guards, number)
    }

    /// The name of the operation, which is in range.
    pub fn op_name(&self, number: u32) -> &[u8]
        requires { number < length self.now.ops }
        ensures { own_of self.now number ≡ Some result.now }
    {
        self.ops.as_slice()[number as usize].own.bytes()
    }

    /// The name of the operation's parameter; both are in range.
    pub fn param_name(&self, op: u32, number: u32) -> &[u8]
        requires op { op < length self.now.ops }
        requires number { number < length (params_of self.now op) }
        ensures { slice_get (params_of self.now op) number ≡ Some result.now }
    {
        nth(&self.ops.as_slice()[op as usize].params, number)
    }

    /// The name of the operation's query in this slot; both are in range.
    pub fn query_name(&self, op: u32, number: u32) -> &[u8]
        requires op { op < length self.now.ops }
        requires number { number < length (queries_of self.now op) }
        ensures { slice_get (queries_of self.now op) number ≡ Some result.now }
    {
        nth(&self.ops.as_slice()[op as usize].queries, number)
    }
}

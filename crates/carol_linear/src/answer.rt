ghost use Rattle.std.specs.Prelude.{◌≡◌, [], ◌++◌, ◌∷◌, OnOk, OnErr, MatchOption};

use carol_cert::{Refutation, StepList};
use carol_formula::{Row, Valuation, Variable};
use std::alloc::{AllocError, Global};
use std::marker::Model;

/// Rows in order, seen as their list.
#[derive(Debug, Drop)]
pub struct RowList {
    rows: Vec<Row>,
}

impl Model for RowList {
    ghost use Rattle.std.specs.Prelude.{List};
    ghost use Rattle.carol_formula.specs.declared.term.Row.{Row};

    ghost Value = { List Row };

    ghost view = { λ list. list.rows.items };
}

impl RowList {
    /// No rows.
    pub fn new(alloc: Global) -> RowList
        ensures { result ≡ [] }
    {
        RowList {
            rows: Vec::new(alloc),
        }
    }

    /// Appends a row. Without memory the list stays as it was.
    pub fn push(&mut self, row: Row) -> Result<(), AllocError>
        ensures ok { OnOk result (self.new ≡ self.old ++ row ∷ []) }
        ensures err { OnErr result (self.new ≡ self.old) }
    {
        self.rows.push(row)?;
        Ok(())
    }

    /// Takes the last row out, if there is one.
    pub fn pop(&mut self) -> Option<Row>
        ensures { MatchOption result ((self.old ≡ []) × (self.new ≡ []))
            (λ last. self.old ≡ self.new ++ last ∷ []) }
    {
        self.rows.pop()
    }

    /// The rows in order.
    pub fn as_slice(&self) -> &[Row]
        ensures { result.now ≡ self.now }
    {
        self.rows.as_slice()
    }
}

/// A row with steps that make it of given rows by elimination alone.
#[derive(Debug, Drop)]
pub struct Derived {
    /// Each is `Given`, with the number of a given row, or a step of elimination.
    pub steps: StepList,
    /// The row of the last step.
    pub row: Row,
}

/// Two rows whose least positive combination that cancels the variable, the lowest of both, has a
/// product or a sum that is not below 2^100 in absolute value.
#[derive(Debug, Drop)]
pub struct Wide {
    /// The rows of the branches on the way to the place.
    pub branches: RowList,
    /// The row that bounds the variable above, from the rows and the branch rows after them.
    pub upper: Derived,
    /// The row that bounds the variable below.
    pub lower: Derived,
    /// The variable.
    pub variable: Variable,
}

/// A row whose value has a product or a partial sum that is not below 2^100 in absolute value.
#[derive(Debug, Drop)]
pub struct Far {
    /// The rows of the branches on the way to the place.
    pub branches: RowList,
    /// The row, from the rows and the branch rows after them.
    pub row: Derived,
    /// The values that were chosen, from the last variable down.
    pub values: Valuation,
}

/// Whether rows can be true together.
#[derive(Debug, Drop)]
pub enum RowsAnswer {
    /// The tree refutes the claims.
    Refuted(Refutation),
    /// The valuation makes every row true.
    Model(Valuation),
    /// All turns are taken, and the tree has unclosed leaves.
    Spent(Refutation),
    /// A combination of two rows is too wide.
    Wide(Wide),
    /// A row has too large a value.
    Far(Far),
}

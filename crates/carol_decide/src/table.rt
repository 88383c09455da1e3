ghost use Rattle.std.specs.Prelude.{◌≡◌, ◌≤◌, ◌^◌, ◌++◌, ◌∷◌, [], negsuc, length, IfOk, OnOk};
ghost use Rattle.std.specs.List.{All};
ghost use Rattle.carol_formula.specs.Bounds.{row_limit};
ghost use Rattle.carol_formula.specs.Linear.{IsWithin, scaled};
ghost use Rattle.carol_formula.specs.Claim.{Le, Eq};
ghost use Rattle.carol_cert.specs.Cases.{below_zero, above_zero};
ghost use Rattle.carol_difference.specs.Rows.{AreDifference, IsDifference, IsNarrow};
ghost use Rattle.carol_elimination.specs.Due.{rows_at};
ghost use Rattle.carol_elimination.specs.Entries.{terms_of};
ghost use Rattle.carol_decide.specs.Sizes.{AreReady, IsReady, OfDifferences};
ghost use Rattle.carol_decide.specs.Piece.{claim_of_piece, claims_in};
ghost use Rattle.carol_decide.specs.Table.{IsTableOf, own_names};

use crate::piece::Piece;
use carol_cert::RowStep;
use carol_formula::{Formula, Row, Term, TermError};
use std::alloc::{AllocError, Global};

/// The rows at a place, and for each the step that takes it from the formulas there.
#[derive(Drop)]
pub struct Table {
    pub rows: Vec<Row>,
    pub names: Vec<RowStep>,
}

/// The rows of the formulas, of an `Eq` both readings.
pub fn table_of(alloc: Global, pieces: &[Piece<'_>]) -> Result<Table, AllocError>
    requires ready { AreReady (claims_in pieces.now) }
    requires count { length pieces.now ≤ 2 ^ 32 }
    ensures { IfOk result (IsTableOf (claims_in pieces.now)) }
{
    let mut table = Table {
        rows: Vec::new(alloc),
        names: Vec::new(alloc),
    };
    for at in 0..pieces.len() {
        table.add(alloc, at as u32, &pieces[at])?;
    }
    Ok(table)
}

impl Table {
    // The row of the term.
    fn push(&mut self, name: RowStep, term: Term) -> Result<(), AllocError>
        ensures rows { OnOk result (terms_of self.new.rows.items
            ≡ terms_of self.old.rows.items ++ term ∷ []) }
        ensures names { OnOk result (self.new.names.items ≡ self.old.names.items ++ name ∷ []) }
        ensures narrow { OnOk result (IsWithin row_limit term → All IsNarrow self.old.rows.items
            → All IsNarrow self.new.rows.items) }
        ensures differences { OnOk result (AreDifference term.pairs
            → All IsDifference self.old.rows.items → All IsDifference self.new.rows.items) }
    {
        self.rows.push(Row(term))?;
        self.names.push(name)?;
        Ok(())
    }

    // Both readings of the equation.
    fn push_both(&mut self, at: u32, term: &Term) -> Result<(), AllocError>
        requires { IsReady (Eq term.now) }
        ensures rows { OnOk result (terms_of self.new.rows.items
            ≡ terms_of self.old.rows.items ++ rows_at (Eq term.now ∷ [])) }
        ensures names { OnOk result (self.new.names.items
            ≡ self.old.names.items ++ own_names at (Eq term.now)) }
        ensures narrow { OnOk result (All IsNarrow self.old.rows.items
            → All IsNarrow self.new.rows.items) }
        ensures differences { OnOk result (OfDifferences (Eq term.now)
            → All IsDifference self.old.rows.items → All IsDifference self.new.rows.items) }
    {
        self.push(RowStep::Given { at }, term.copy()?)?;
        self.push(RowStep::Reversed { at }, reversed(term)?)?;
        Ok(())
    }

    // The rows of a formula with its number.
    fn add(&mut self, alloc: Global, at: u32, piece: &Piece<'_>) -> Result<(), AllocError>
        requires { IsReady (claim_of_piece piece.now) }
        ensures rows { OnOk result (terms_of self.new.rows.items
            ≡ terms_of self.old.rows.items ++ rows_at (claim_of_piece piece.now ∷ [])) }
        ensures names { OnOk result (self.new.names.items
            ≡ self.old.names.items ++ own_names at (claim_of_piece piece.now)) }
        ensures narrow { OnOk result (All IsNarrow self.old.rows.items
            → All IsNarrow self.new.rows.items) }
        ensures differences { OnOk result (OfDifferences (claim_of_piece piece.now)
            → All IsDifference self.old.rows.items → All IsDifference self.new.rows.items) }
    {
        match piece {
            Piece::Whole(Formula::Le(term)) => self.push(RowStep::Given { at }, term.copy()?),
            Piece::Whole(Formula::Eq(term)) => self.push_both(at, term),
            Piece::Whole(_) => Ok(()),
            Piece::Negative(term) => self.push(RowStep::Given { at }, below(alloc, term)?),
            Piece::Positive(term) => self.push(RowStep::Given { at }, above(alloc, term)?),
        }
    }
}

// The term with its sign turned.
fn reversed(term: &Term) -> Result<Term, AllocError>
    requires { IsWithin row_limit term.now }
    ensures value { IfOk result (λ t. t ≡ scaled (negsuc 0) term.now) }
    ensures narrow { IfOk result (IsWithin row_limit) }
    ensures difference { IfOk result (λ t. AreDifference term.now.pairs → AreDifference t.pairs) }
{
    let whole = term.copy()?;
    match whole.scale(-1) {
        Ok(turned) => Ok(turned),
        Err(TermError::NoMemory) => Err(AllocError),
        Err(TermError::TooWide) => unreachable!(),
    }
}

// The term of the row `t + 1 <= 0`.
fn below(alloc: Global, term: &Term) -> Result<Term, AllocError>
    requires { IsReady (below_zero term.now) }
    ensures { IfOk result (λ t. Le t ≡ below_zero term.now) }
{
    let one = Term::constant(alloc, 1);
    let whole = term.copy()?;
    match whole.add(&one) {
        Ok(sum) => Ok(sum),
        Err(TermError::NoMemory) => Err(AllocError),
        Err(TermError::TooWide) => unreachable!(),
    }
}

// The term of the row `1 - t <= 0`.
fn above(alloc: Global, term: &Term) -> Result<Term, AllocError>
    requires { IsReady (above_zero term.now) }
    ensures { IfOk result (λ t. Le t ≡ above_zero term.now) }
{
    let one = Term::constant(alloc, 1);
    let whole = term.copy()?;
    match one.sub(&whole) {
        Ok(difference) => Ok(difference),
        Err(TermError::NoMemory) => Err(AllocError),
        Err(TermError::TooWide) => unreachable!(),
    }
}

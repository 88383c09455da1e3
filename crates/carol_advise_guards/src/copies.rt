ghost use Rattle.std.specs.Prelude.{◌≡◌, IfOk};

use carol_program::{FormulaList, Part, PartList};
use std::alloc::{AllocError, Global};

/// Equal formulas.
pub(crate) fn copied_formulas(
    alloc: Global,
    formulas: &FormulaList,
) -> Result<FormulaList, AllocError>
    ensures { IfOk result (λ same. same ≡ formulas.now) }
{
    let mut same = FormulaList::new(alloc);
    let mut left = formulas.as_slice();
    while let Some((formula, more)) = left.split_first() {
        same.push(formula.copy(alloc)?)?;
        left = more;
    }
    Ok(same)
}

/// Equal parts.
pub(crate) fn copied_parts(alloc: Global, parts: &PartList) -> Result<PartList, AllocError>
    ensures { IfOk result (λ same. same ≡ parts.now) }
{
    let mut same = PartList::new(alloc);
    let mut left = parts.as_slice();
    while let Some((part, more)) = left.split_first() {
        same.push(Part {
            cell: part.cell,
            amount: part.amount.copy()?,
        })?;
        left = more;
    }
    Ok(same)
}

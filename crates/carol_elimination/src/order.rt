ghost use Rattle.std.specs.Prelude.{◌≡◌, IfOk, OnOk};
ghost use Rattle.carol_elimination.specs.Stage.{with_pairs, variables};
ghost use Rattle.carol_elimination.specs.Entries.{terms_of};

use carol_formula::{Row, Variable};
use std::alloc::{AllocError, Global};
use std::collections::BTreeSet;

/// The numbers of the variables of the rows, in ascending order.
pub fn variables_of(alloc: Global, rows: &[Row]) -> Result<Vec<u32>, AllocError>
    ensures { IfOk result (λ v. v.items ≡ variables (terms_of rows.now)) }
{
    let mut found = BTreeSet::new(alloc);
    let mut left = rows;
    while let Some((row, more)) = left.split_last() {
        add(&mut found, row.0.pairs())?;
        left = more;
    }
    in_order(alloc, &found)
}

// The number of the product's variable.
fn number_of(product: &(Variable, i128)) -> u32
    ensures { result ≡ product.now.0 }
{
    let Variable(number) = product.0;
    number
}

// Adds the variables of the products.
fn add(found: &mut BTreeSet<u32>, products: &[(Variable, i128)]) -> Result<(), AllocError>
    ensures { OnOk result (found.new.keys ≡ with_pairs products.now found.old.keys) }
{
    let mut left = products;
    while let Some((product, more)) = left.split_last() {
        found.insert(number_of(product))?;
        left = more;
    }
    Ok(())
}

// The numbers as a list.
fn in_order(alloc: Global, found: &BTreeSet<u32>) -> Result<Vec<u32>, AllocError>
    ensures { IfOk result (λ v. v.items ≡ found.now.keys) }
{
    found.iter().copied().collect(alloc)
}

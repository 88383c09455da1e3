ghost use Rattle.std.specs.Prelude.{◌≡◌, [], ◌∷◌, pos, negsuc, IfNone, IfSome, IsTrue, ◌↔◌};
ghost use Rattle.carol_difference.specs.Rows.{AreDifference, IsDifference};
ghost use Rattle.carol_difference.specs.Split.{IsSplit};

use carol_formula::{Row, Variable};

/// A row's variables: the one with coefficient 1 and the one with -1, either of which may be
/// absent.
#[derive(Clone, Copy)]
pub struct Sides {
    pub plus: Option<u32>,
    pub minus: Option<u32>,
}

/// The variables of a row, if it is a row of differences.
pub fn sides_of(row: &Row) -> Option<Sides>
    ensures some { IfSome result (λ s. IsDifference row.now
        × IsSplit row.now.0.pairs s.plus s.minus) }
    ensures none { IfNone result (¬ IsDifference row.now) }
{
    match row.0.pairs() {
        [] => Some(Sides {
            plus: None,
            minus: None,
        }),
        [one] => single(one),
        [one, other] => double(one, other),
        _ => None,
    }
}

// The variable of a product with coefficient 1 or -1.
fn single(one: &(Variable, i128)) -> Option<Sides>
    ensures some { IfSome result (λ s. AreDifference (one.now ∷ [])
        × IsSplit (one.now ∷ []) s.plus s.minus) }
    ensures none { IfNone result (¬ AreDifference (one.now ∷ [])) }
{
    let Variable(variable) = one.0;
    if is_plus(one) {
        return Some(Sides {
            plus: Some(variable),
            minus: None,
        });
    }
    if is_minus(one) {
        return Some(Sides {
            plus: None,
            minus: Some(variable),
        });
    }
    None
}

// The variables of two products, one with coefficient 1 and one with -1.
fn double(one: &(Variable, i128), other: &(Variable, i128)) -> Option<Sides>
    ensures some { IfSome result (λ s. AreDifference (one.now ∷ other.now ∷ [])
        × IsSplit (one.now ∷ other.now ∷ []) s.plus s.minus) }
    ensures none { IfNone result (¬ AreDifference (one.now ∷ other.now ∷ [])) }
{
    let Variable(first) = one.0;
    let Variable(second) = other.0;
    if is_plus(one) && is_minus(other) {
        return Some(Sides {
            plus: Some(first),
            minus: Some(second),
        });
    }
    if is_minus(one) && is_plus(other) {
        return Some(Sides {
            plus: Some(second),
            minus: Some(first),
        });
    }
    None
}

fn is_plus(product: &(Variable, i128)) -> bool
    ensures { IsTrue result ↔ (product.now.1 ≡ pos 1) }
{
    product.1 == 1
}

fn is_minus(product: &(Variable, i128)) -> bool
    ensures { IsTrue result ↔ (product.now.1 ≡ negsuc 0) }
{
    product.1 == -1
}

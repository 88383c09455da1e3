ghost use Rattle.std.specs.Prelude.{◌≤◌, ◌<ℤ◌, ◌+ℤ◌, ◌*ℤ◌, IfSome, IsTrue, ◌↔◌, SomeIff, pos, unsigned_abs, ◌≡◌};
ghost use Rattle.carol_formula.specs.Bounds.{IsBelow, term_limit, value_limit};
ghost use Rattle.carol_formula.specs.Division.{floor_of, ceiling_of};

/// The limit of each coefficient and constant of a narrow formula.
pub const NARROW_LIMIT: u128 = 1 << 90;

/// The limit of each coefficient and constant of a row that is decided.
pub const ROW_LIMIT: u128 = 1 << 92;

/// The limit of each coefficient and constant of a term.
pub const TERM_LIMIT: u128 = 1 << 100;

/// The limit of each product and each sum on the way to a term's value.
pub const VALUE_LIMIT: u128 = 1 << 126;

/// Whether the number is below the limit in absolute value.
pub fn is_below(number: i128, limit: u128) -> bool
    ensures { IsTrue result ↔ IsBelow limit number }
{
    number.unsigned_abs() < limit
}

// The number, where it is below the limit in absolute value.
fn within(number: i128, limit: u128) -> Option<i128>
    ensures { SomeIff result (IsBelow limit number) number }
{
    if is_below(number, limit) {
        Some(number)
    } else {
        None
    }
}

/// The product, where it is below the limit in absolute value.
pub fn product_within(a: i128, b: i128, limit: u128) -> Option<i128>
    requires { limit ≤ value_limit }
    ensures value { SomeIff result (IsBelow limit (a *ℤ b)) (a *ℤ b) }
    ensures small { IfSome result (IsBelow limit) }
{
    within(a.checked_mul(b)?, limit)
}

/// The sum, where it is below the limit in absolute value.
pub fn sum_within(a: i128, b: i128, limit: u128) -> Option<i128>
    requires { limit ≤ value_limit }
    ensures value { SomeIff result (IsBelow limit (a +ℤ b)) (a +ℤ b) }
    ensures small { IfSome result (IsBelow limit) }
{
    within(a.checked_add(b)?, limit)
}

/// a + b * c, where it is below the limit of a term.
pub(crate) fn fused(a: i128, b: i128, c: i128) -> Option<i128>
    requires { IsBelow term_limit a }
    ensures { SomeIff result (IsBelow term_limit (a +ℤ (b *ℤ c))) (a +ℤ (b *ℤ c)) }
{
    let product = b.checked_mul(c)?;
    let sum = a.checked_add(product)?;
    within(sum, TERM_LIMIT)
}

/// The number divided by one above 0, and rounded up.
pub(crate) fn ceiling(number: i128, divisor: i128) -> i128
    requires small { IsBelow term_limit number }
    requires positive { pos 0 <ℤ divisor }
    ensures { result ≡ ceiling_of number (unsigned_abs divisor) }
{
    -(-number).div_euclid(divisor)
}

/// The number divided by one above 0 that divides it.
pub(crate) fn quotient(number: i128, divisor: i128) -> i128
    requires positive { pos 0 <ℤ divisor }
    ensures { result ≡ floor_of number (unsigned_abs divisor) }
{
    number.div_euclid(divisor)
}

//! Whole numbers and fractions below a limit.

use crate::stop::Stop;
use carol_formula::{product_within, sum_within};

// The limit of each number of a search in absolute value.
const LIMIT: u128 = 1 << 120;

// How many steps a common divisor of two numbers takes at most.
const DIVISIONS: u32 = 256;

/// The product. `GivenUp` comes where it is too wide.
pub fn product(a: i128, b: i128) -> Result<i128, Stop> {
    match product_within(a, b, LIMIT) {
        Some(number) => Ok(number),
        None => Err(Stop::GivenUp),
    }
}

/// The sum. `GivenUp` comes where it is too wide.
pub fn sum(a: i128, b: i128) -> Result<i128, Stop> {
    match sum_within(a, b, LIMIT) {
        Some(number) => Ok(number),
        None => Err(Stop::GivenUp),
    }
}

/// a + b * c.
pub fn fused(a: i128, b: i128, c: i128) -> Result<i128, Stop> {
    sum(a, product(b, c)?)
}

/// The number with its sign turned.
pub fn negated(a: i128) -> Result<i128, Stop> {
    product(a, -1)
}

/// The number without its sign.
pub fn size(a: i128) -> Result<i128, Stop> {
    if a < 0 { negated(a) } else { Ok(a) }
}

/// The number divided by one above 0, and rounded down.
pub fn floor(a: i128, by: i128) -> Result<i128, Stop> {
    if by == 1 {
        return Ok(a);
    }
    if by <= 0 {
        return Err(Stop::GivenUp);
    }
    if let (Ok(a), Ok(by)) = (i64::try_from(a), i64::try_from(by)) {
        if by > 0 {
            return Ok(i128::from(a.div_euclid(by)));
        }
    }
    Ok(a.div_euclid(by))
}

/// What is left of the number where it is divided by one above 0, from 0 on.
pub fn remainder(a: i128, by: i128) -> Result<i128, Stop> {
    if by == 1 {
        return Ok(0);
    }
    if by <= 0 {
        return Err(Stop::GivenUp);
    }
    if let (Ok(a), Ok(by)) = (i64::try_from(a), i64::try_from(by)) {
        if by > 0 {
            return Ok(i128::from(a.rem_euclid(by)));
        }
    }
    Ok(a.rem_euclid(by))
}

/// The greatest number that divides both, and 0 of two zeros.
pub fn common_divisor(a: i128, b: i128) -> Result<i128, Stop> {
    let mut x = size(a)?;
    let mut y = size(b)?;
    for _ in 0..DIVISIONS {
        if y == 0 {
            return Ok(x);
        }
        let left = remainder(x, y)?;
        x = y;
        y = left;
    }
    Err(Stop::GivenUp)
}

/// A number over a denominator above 0.
#[derive(Debug, Clone, Copy, PartialEq, Eq)]
pub struct Fraction {
    pub numerator: i128,
    pub denominator: i128,
}

impl Fraction {
    /// A whole number.
    pub fn whole(number: i128) -> Fraction {
        Fraction {
            numerator: number,
            denominator: 1,
        }
    }

    /// The fraction and `by` times another.
    pub fn plus(self, by: i128, other: Fraction) -> Result<Fraction, Stop> {
        let added = product(by, other.numerator)?;
        if self.denominator == other.denominator {
            return Ok(Fraction {
                numerator: sum(self.numerator, added)?,
                denominator: self.denominator,
            });
        }
        let left = product(self.numerator, other.denominator)?;
        let right = product(added, self.denominator)?;
        let denominator = product(self.denominator, other.denominator)?;
        let divisor = common_divisor(denominator, sum(left, right)?)?;
        Ok(Fraction {
            numerator: floor(sum(left, right)?, divisor)?,
            denominator: floor(denominator, divisor)?,
        })
    }

    /// Whether it is at most the whole number.
    pub fn is_at_most(self, bound: i128) -> Result<bool, Stop> {
        Ok(self.numerator <= product(bound, self.denominator)?)
    }

    /// Whether it is at least the whole number.
    pub fn is_at_least(self, bound: i128) -> Result<bool, Stop> {
        Ok(self.numerator >= product(bound, self.denominator)?)
    }

    /// The greatest whole number that isn't above it.
    pub fn down(self) -> Result<i128, Stop> {
        floor(self.numerator, self.denominator)
    }
}

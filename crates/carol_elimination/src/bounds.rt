ghost use Rattle.std.specs.Prelude.{ℤ, ◌≡◌, ◌⊎◌, ◌↔◌, pos, ◌+ℤ◌, ◌≤ℤ◌, Some, None, IfOk, IfErr, IfSome};
ghost use Rattle.carol_formula.specs.Bounds.{IsBelow, term_limit};
ghost use Rattle.carol_elimination.specs.Limits.{IsAtMost, IsAtLeast, IsNearestWithin, IsBelowBoth};

/// The least and the greatest whole number that is allowed, where there is one.
#[derive(Clone, Copy)]
pub struct Bounds {
    pub low: Option<i128>,
    pub high: Option<i128>,
}

/// The tighter one of an upper bound and a further one.
pub fn lesser(high: Option<i128>, bound: i128) -> i128
    ensures both { (z : ℤ) → (IsAtMost high z × (z ≤ℤ bound)) ↔ (z ≤ℤ result) }
    ensures one { (high ≡ Some result) ⊎ (result ≡ bound) }
{
    match high {
        Some(high) if high < bound => high,
        _ => bound,
    }
}

/// The tighter one of a lower bound and a further one.
pub fn greater(low: Option<i128>, bound: i128) -> i128
    ensures both { (z : ℤ) → (IsAtLeast low z × (bound ≤ℤ z)) ↔ (result ≤ℤ z) }
    ensures one { (low ≡ Some result) ⊎ (result ≡ bound) }
{
    match low {
        Some(low) if low > bound => low,
        _ => bound,
    }
}

impl Bounds {
    /// Any number is allowed.
    pub fn new() -> Bounds
        ensures low { result.low ≡ None }
        ensures high { result.high ≡ None }
    {
        Bounds {
            low: None,
            high: None,
        }
    }

    /// The number of least absolute value between the bounds. Where there is none, the one before
    /// the low bound is the error.
    pub fn nearest(self) -> Result<i128, i128>
        requires { IfSome self.low (IsBelow term_limit) }
        ensures ok { IfOk result (IsNearestWithin self) }
        ensures err { IfErr result (IsBelowBoth self) }
    {
        match (self.low, self.high) {
            (Some(low), Some(high)) if low > high => Err(low - 1),
            (Some(low), _) if low > 0 => Ok(low),
            (_, Some(high)) if high < 0 => Ok(high),
            _ => Ok(0),
        }
    }
}

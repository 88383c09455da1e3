ghost use Rattle.std.specs.Prelude.{◌≡◌, [], OnOk, OnErr, IfOk, IfErr, IsTrue, ◌↔◌, ℤ, slice_set, length, ◌≤◌, ◌<◌};
ghost use Rattle.std.specs.List.{insert};
ghost use Rattle.carol_formula.specs.Numbers.{number_at, with_number};

use std::alloc::{AllocError, Global};
use std::marker::Model;

/// A variable of a formula, by its number.
#[derive(Debug, Clone, Copy, PartialEq, Eq, PartialOrd, Ord)]
pub struct Variable(pub u32);

impl Model for Variable {
    ghost use Rattle.std.specs.Prelude.{ℕ};

    ghost Value = { ℕ };

    ghost view = { λ v. v.0 };

    ghost inverse = { λ n. record { 0 = n } };
}

/// What gives each variable a number.
pub trait Lookup {
    ghost use Rattle.std.specs.Prelude.{ℕ, ℤ, ◌≡◌};

    ghost numbers: { Self → ℕ → ℤ };

    /// The number of the variable.
    fn value_of(&self, v: Variable) -> i128
        ensures { result ≡ numbers self.now v };
}

/// A number for each variable: those that were set, and 0 for any other.
#[derive(Debug, Drop)]
pub struct Valuation {
    numbers: Vec<(Variable, i128)>,
}

impl Model for Valuation {
    ghost use Rattle.std.specs.Prelude.{ℕ, List, ℤ};
    ghost use Rattle.carol_formula.specs.Linear.{AscendsFrom};

    ghost Value = { List (ℕ × ℤ) };

    ghost view = { λ a. a.numbers.items };

    ghost invariant = { λ a. AscendsFrom 0 a.numbers.items };
}

// The pair is the variable's.
pub(crate) fn is_of(pair: &(Variable, i128), variable: Variable) -> bool
    ensures { IsTrue result ↔ (pair.now.0 ≡ variable) }
{
    pair.0 == variable
}

// The pair is that of a variable before this one.
pub(crate) fn is_before(pair: &(Variable, i128), variable: Variable) -> bool
    ensures { IsTrue result ↔ (pair.now.0 < variable) }
{
    pair.0 < variable
}

// Where the variable's number stands, or else where it is to be inserted.
fn place_of(numbers: &[(Variable, i128)], v: Variable) -> Result<usize, usize>
    ensures found { IfOk result (λ i. (i < length numbers.now)
        × ((number : ℤ) → with_number v number numbers.now ≡ slice_set numbers.now i (v, number))) }
    ensures absent { IfErr result (λ i. (i ≤ length numbers.now)
        × ((number : ℤ) → with_number v number numbers.now ≡ insert numbers.now i (v, number))) }
{
    let mut left = numbers;
    while let Some((number, more)) = left.split_first() {
        if is_of(number, v) {
            return Ok(numbers.len() - left.len());
        }
        if !is_before(number, v) {
            return Err(numbers.len() - left.len());
        }
        left = more;
    }
    Err(numbers.len())
}

impl Valuation {
    /// Each variable is 0.
    pub fn new(alloc: Global) -> Valuation
        ensures { result ≡ [] }
    {
        Valuation {
            numbers: Vec::new(alloc),
        }
    }

    /// The variable's number: 0 where none was set.
    pub fn get(&self, v: Variable) -> i128
        ensures { result ≡ number_at self.now v }
    {
        let mut left = self.numbers.as_slice();
        while let Some((number, more)) = left.split_first() {
            if is_of(number, v) {
                return number.1;
            }
            left = more;
        }
        0
    }

    /// Gives the variable the number, in place of the one that it had.
    pub fn set(&mut self, v: Variable, value: i128) -> Result<(), AllocError>
        ensures ok { OnOk result (self.new ≡ with_number v value self.old) }
        ensures err { OnErr result (self.new ≡ self.old) }
    {
        let number = (v, value);
        match place_of(self.numbers.as_slice(), v) {
            Ok(place) => self.numbers[place] = number,
            Err(place) => self.numbers.insert(place, number)?,
        }
        Ok(())
    }

    /// An equal valuation.
    pub fn copy(&self) -> Result<Valuation, AllocError>
        ensures { IfOk result (λ v. v ≡ self.now) }
    {
        Ok(Valuation {
            numbers: Vec::from_slice(*self.numbers.allocator(), self.numbers.as_slice())?,
        })
    }
}

impl Lookup for Valuation {
    ghost numbers = { number_at };

    fn value_of(&self, v: Variable) -> i128 {
        self.get(v)
    }
}

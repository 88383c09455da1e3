ghost use Rattle.std.specs.Prelude.{◌≡◌, ◌+◌, ◌^◌, ◌≤◌, length, unsigned_abs, IfOk};
ghost use Rattle.std.specs.List.{All};
ghost use Rattle.carol_difference.specs.Evidence.{AreApart, GivesNumbers, sum_steps};

use carol_cert::{RowStep, StepList};
use carol_formula::{Valuation, Variable};
use std::alloc::{AllocError, Global};

/// The numbers of the variables: the potentials of their nodes, less that of the node for zero.
pub fn valuation(alloc: Global, variables: &[u32], values: &[i128]) -> Result<Valuation, AllocError>
    requires apart { AreApart variables.now }
    requires count { length values.now ≡ length variables.now + 1 }
    requires near { All (λ value. unsigned_abs value ≤ 2 ^ 123) values.now }

    ensures { IfOk result (GivesNumbers variables.now values.now (length variables.now)) }
{
    let mut numbers = Valuation::new(alloc);
    for (index, variable) in variables.iter().enumerate() {
        numbers.set(Variable(*variable), values[index + 1] - values[0])?;
    }
    Ok(numbers)
}

/// The steps that add up the rows with these numbers.
pub fn summed(alloc: Global, numbers: &[u32]) -> Result<StepList, AllocError>
    requires { length numbers.now ≤ 2 ^ 30 + 1 }

    ensures { IfOk result (λ steps. steps ≡ sum_steps numbers.now) }
{
    let mut steps = StepList::new(alloc);
    let Some((first, others)) = numbers.split_first() else {
        return Ok(steps);
    };
    steps.push(RowStep::Given { at: *first })?;
    let mut last = 0;
    for at in others {
        steps.push(RowStep::Given { at: *at })?;
        steps.push(RowStep::Combine {
            a: last,
            m: 1,
            b: last + 1,
            n: 1,
        })?;
        last += 2;
    }
    Ok(steps)
}

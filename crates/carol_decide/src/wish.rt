use carol_formula::Variable;

/// What the number of a variable is wished to be.
#[derive(Debug, Clone, Copy)]
pub enum Aim {
    /// This number, or else as near to 0 as may be.
    Number(i128),
    /// As near as may be to the number of the other variable. Where both are equal, it moves with
    /// the other.
    Like(Variable),
    /// Any, but where it is equal to the number of the other variable, it moves with that.
    With(Variable),
}

/// A variable, and what its number is wished to be.
#[derive(Debug, Clone, Copy)]
pub struct Wish {
    pub variable: Variable,
    pub aim: Aim,
}

impl Wish {
    /// The variable whose number this one is to be.
    pub(crate) fn model(&self) -> Option<Variable> {
        match self.aim {
            Aim::Like(other) | Aim::With(other) => Some(other),
            Aim::Number(_) => None,
        }
    }
}

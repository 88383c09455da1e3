ghost use Rattle.std.specs.Prelude.{reverse, MatchOption};
ghost use Rattle.carol_grammar.specs.Reach.{NoneIsOver, IsFirstOver};

use crate::counting::{Counts, count_one, least_over};
use carol_syntax::Lexeme;

/// A limit of a text.
#[derive(Clone, Copy, Debug, PartialEq, Eq)]
pub enum TextLimit {
    /// The bytes of the program part.
    ProgramBytes,
    /// The nodes of a formula, or the products of a term by itself.
    FormulaNodes,
    /// How deep bodies stand in one another.
    BodyDepth,
    /// The lines of a script.
    ScriptLines,
}

/// A limit, and the number of the first token that is over it.
#[derive(Clone, Copy, Debug, PartialEq, Eq)]
pub struct Passed {
    pub limit: TextLimit,
    pub index: usize,
}

/// The first token that is over one of the limits on formulas, bodies and scripts, and which.
pub fn first_passed(tokens: &[Lexeme]) -> Option<Passed>
    ensures { MatchOption result (NoneIsOver (reverse tokens.now)) (IsFirstOver tokens.now) }
{
    let mut counts = Counts {
        nodes: 0,
        depth: 0,
        lines: 0,
        last: None,
        second: None,
    };
    for (index, token) in tokens.iter().enumerate() {
        counts = count_one(counts, token.kind);
        if let Some(limit) = least_over(counts) {
            return Some(Passed { limit, index });
        }
    }
    None
}

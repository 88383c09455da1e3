// What is read of a text has the shape of a tree of the grammar.
//
// `proofs/Spelled` says that the names among a text's tokens are names, and `proofs/Holds` what
// then holds of the value of each sentence of a rule; the other files follow the rules in their
// order.

ghost use Rattle.std.specs.Prelude.{ℕ, List};
ghost use Rattle.carol_syntax.specs.Files.{FileTree};
ghost use Rattle.carol_syntax.specs.Shape.{IsFile};
ghost use Rattle.carol_grammar.specs.Outcome.{IsText};

/// The tree of a text is a tree of the grammar: its names are names, its numbers are not too great,
/// and its lists are as long as their rule wants.
pub fn text_is_shaped()
    ensures { (bytes : List ℕ) (f : FileTree) → IsText bytes f → IsFile f }
{}

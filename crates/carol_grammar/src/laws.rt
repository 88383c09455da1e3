ghost use Rattle.std.specs.Prelude.{◌≡◌, ℕ, List, take};
ghost use Rattle.carol_grammar.specs.Reading.{Reading};
ghost use Rattle.carol_grammar.specs.Found.{Answers};
ghost use Rattle.carol_syntax.specs.Files.{FileTree};
ghost use Rattle.carol_syntax.specs.declared.lexeme.Lexeme.{Lexeme};
ghost use Rattle.carol_syntax.specs.declared.lexeme.Lexemes.{Lexemes};
ghost use Rattle.carol_syntax.specs.declared.place.Place.{Place};
ghost use Rattle.carol_syntax.specs.Cut.{StandBetween};
ghost use Rattle.carol_grammar.specs.Rules.{carol, file};
ghost use Rattle.carol_grammar.specs.declared.reading.Reach.{Reach};
ghost use Rattle.carol_grammar.specs.Outcome.{Outcome, AreParts, Means, IsText, IsBadAt, tail_of};
ghost use Rattle.carol_grammar.specs.Reach.{Reaches, told};

use crate::one_tree;
use carol_syntax::one_cut;

/// The bytes of a text have at most one tree.
pub fn one_text()
    ensures { (bytes : List ℕ) (f g : FileTree) → IsText bytes f → IsText bytes g → f ≡ g }
{
    one_cut();
    one_tree();
}

/// A text is bad at one place at most, and a file at none.
pub fn one_bad()
    ensures place { (bytes : List ℕ) (at other : Place) → IsBadAt bytes at → IsBadAt bytes other
        → at ≡ other }
    ensures none { (bytes : List ℕ) (f : FileTree) (at : Place) → IsText bytes f → IsBadAt bytes at
        → ⊥ }
{
    one_cut();
}

/// A text is answered in one way at most.
pub fn one_outcome()
    ensures { (bytes : List ℕ) (one other : Outcome) → Means bytes one → Means bytes other
        → one ≡ other }
{
    one_cut();
    one_tree();
}

/// Reading the tokens that are to be read tells what the text is answered.
pub fn told_means()
    ensures { (bytes : List ℕ) (parts : Lexemes) (reach : Reach) (reading : Reading Lexeme FileTree)
        → AreParts bytes parts → StandBetween 0 parts.list parts.end.offset
        → Reaches bytes parts reach
        → Answers (carol bytes) (file bytes (tail_of parts.stop))
        (take reach.count parts.list) reading
        → Means bytes (told parts reach.limit reading) }
{}

//! The laws of the grammar: one tree, and what reading tells.
ghost use Rattle.std.specs.Prelude.{◌≡◌, ℕ, List};
ghost use Rattle.carol_grammar.specs.Found.{Answers};
ghost use Rattle.carol_syntax.specs.Files.{FileTree};
ghost use Rattle.carol_syntax.specs.declared.lexeme.Lexeme.{Lexeme};
ghost use Rattle.carol_grammar.specs.Rules.{carol, file, IsFileOf, read_file};

/// The tokens of a text have at most one tree.
pub fn one_tree()
    ensures { (bytes : List ℕ) (tail : ℕ) (ts : List Lexeme) (f g : FileTree)
        → IsFileOf bytes tail ts f → IsFileOf bytes tail ts g → f ≡ g }
{}

/// Reading by the rules finds the tree of the tokens, where they are a file, and nothing but it.
/// Else it stops where the tokens before it begin a file and no file goes on with the next one.
pub fn reading_answers()
    ensures { (bytes : List ℕ) (tail : ℕ) (ts : List Lexeme)
        → Answers (carol bytes) (file bytes tail) ts (read_file bytes tail ts) }
{}

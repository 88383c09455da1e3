//! The canonical text of a file is laid out, and cut again into what it was made of.
ghost use Rattle.std.specs.Prelude.{List};
ghost use Rattle.carol_syntax.specs.Files.{FileTree};
ghost use Rattle.carol_syntax.specs.Shape.{IsFile};
ghost use Rattle.carol_print.specs.Pieces.{Piece, AreLaidOut, CutAgain};
ghost use Rattle.carol_print.specs.Canonical.{canonical};

/// The text of pieces that are laid out is cut to its end into their tokens.
pub fn laid_out()
    ensures { (pieces : List Piece) → AreLaidOut pieces → CutAgain pieces }
{}

/// The canonical text of a tree of the grammar is laid out: each of its tokens stands by itself.
pub fn canonical_is_laid_out()
    ensures { (f : FileTree) → IsFile f → AreLaidOut (canonical f) }
{}

//! The canonical text of a file spells tokens that are that file again: the law. Its proof follows
//! the rules of the grammar in their order, in the files `Read..`: at the front of the tokens that
//! a part of the canonical text spells stands a sentence of the part's rule, whose value is the
//! part but for places.
//!
//! And what is small is read. `proofs/Counting` says how a token of a canonical text is counted,
//! and `Growing` that terms and formulas count what they measure; in `Going..` each line keeps
//! within the limits, and `Smallness` has the law.
ghost use Rattle.carol_print.specs.ReadBack.{SmallIsRead};
ghost use Rattle.carol_print.specs.Spelled.{CanonicalIsRead};

/// The tokens that a file's canonical text spells are a file with the same tree, but for places and
/// a transcript.
pub fn canonical_is_read()
    ensures { CanonicalIsRead }
{}

/// The canonical text of a small file passes no limit: it is read, as a file with the same tree but
/// for places and a transcript. Small is a file whose formulas with the parentheses printed have at
/// most 256 nodes and whose terms have as many products, whose bodies stand at most 64 deep, whose
/// script has at most 131,072 lines, and whose program has at most 65,536 bytes when it is printed.
pub fn small_is_read()
    ensures { SmallIsRead }
{}

//! What is read of a text is as small as its limits make it: the law that joins the scan which
//! counts against them, over tokens alone, with the grammar.
//!
//! `proofs/Places` says how a token is counted where it stands, and `proofs/Fits` what is said of
//! the rules that reach themselves. The other files follow the rules: in `Terms` and `Formulas`
//! each product and each node counts, in `Bodies` each body has its braces, and `Files` has the
//! law.
ghost use Rattle.carol_grammar.specs.Law.{ReadIsSized};

/// The tree of a text that is read and passes no limit: its formulas have at most 256 nodes and its
/// terms as many products, its bodies stand at most 64 deep, an operation has at most 65,536
/// statements, no list of the program part is longer than that, and a script has at most 131,072
/// lines. The tokens stand one behind the other within the text.
pub fn read_is_sized()
    ensures { ReadIsSized }
{}

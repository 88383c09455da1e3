ghost use Rattle.carol_advise_word.specs.Laws.{StatusesAreFixed};

use carol_grammar::one_outcome;

/// What the bytes fix of the answers of `advise`. It does nothing, and is called for its clause.
pub fn advise_laws()
    ensures status { StatusesAreFixed }
{
    one_outcome();
}

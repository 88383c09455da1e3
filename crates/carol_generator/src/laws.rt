ghost use Rattle.carol_generator.specs.Laws.{GeneratedIsFaultless, GeneratedIsRead};

use carol_print::small_is_read;

/// The text of a large input is read, as the file that it was made of but for places.
pub fn generated_is_read()
    ensures { GeneratedIsRead }
{
    small_is_read();
}

/// What the text of a large input is read as has no fault: nothing is wrong with its program, and
/// nothing with its scene over that program. It has no further part.
pub fn generated_is_faultless()
    ensures { GeneratedIsFaultless }
{}

ghost use Rattle.std.specs.Prelude.{◌≡◌, ◌++◌, OnOk, IfOk};
ghost use Rattle.carol_accept.specs.Verdicts as text;
ghost use Rattle.carol_accept.specs.Verdicts.{
  HasRules,
  line,
  place_line,
  refused_text,
  why_text,
};
ghost use Rattle.carol_formula.specs.Numbers.{number_at};
ghost use Rattle.carol_program.specs.Rules.{rules_in};
ghost use Rattle.carol_program.specs.WellFormed.{AreRules};

use crate::lines::push_lines;
use crate::names::{push_place, push_text, push_variable};
use crate::refused::Refused;
use carol_decide::{MOST_LEAVES, Why};
use carol_formula::{Lookup, Valuation};
use carol_program::{Names, OneStore, Place, Program};
use carol_text::push_integer;
use std::alloc::{AllocError, Global};

// Appends where something is found.
fn push_place_line(out: &mut Vec<u8>, names: &Names, place: Place) -> Result<(), AllocError>
    ensures { OnOk result (out.new.items ≡ out.old.items ++ place_line names.now place) }
{
    push_text(out, "place ")?;
    push_place(out, names, place)?;
    push_text(out, "\n")
}

// Appends why it is undecided.
fn push_why(out: &mut Vec<u8>, names: &Names, place: Place, why: &Why) -> Result<(), AllocError>
    ensures { OnOk result (out.new.items ≡ out.old.items
        ++ line (why_text names.now place why.now)) }
{
    match why {
        Why::Leaves(_) => {
            push_text(out, "leaves ")?;
            push_integer(out, MOST_LEAVES)?;
            push_text(out, "\n")
        }
        Why::Wide(wide) => {
            push_text(out, "wide ")?;
            push_variable(out, names, place, wide.variable)?;
            push_text(out, "\n")
        }
        Why::Far(_) => push_text(out, "far\n"),
    }
}

// Appends the place and the numbers that are shown there.
#[tactic(auto, unfolding(crate::specs::Verdicts::breach_text))]
fn push_breach<L: Lookup>(
    alloc: Global,
    out: &mut Vec<u8>,
    program: &Program,
    place: Place,
    numbers: &L,
) -> Result<(), AllocError>
    requires { AreRules (rules_in program.now) }
    ensures { OnOk result (out.new.items ≡ out.old.items
        ++ text.breach_text program.now place (L.numbers numbers.now)) }
{
    push_place_line(out, &program.names, place)?;
    push_lines(alloc, out, program, place, numbers)
}

/// The text of a breach of a well-formed program: a line with the place, and a line for each number
/// that is shown there.
pub fn breach_text(
    alloc: Global,
    program: &Program,
    place: &Place,
    at: &Valuation,
) -> Result<Vec<u8>, AllocError>
    requires { AreRules (rules_in program.now) }
    ensures { IfOk result (λ bytes. bytes.items
        ≡ text.breach_text program.now place.now (number_at at.now)) }
{
    let mut out = Vec::new(alloc);
    push_breach(alloc, &mut out, program, *place, at)?;
    Ok(out)
}

// Numbers break what is asked at the place.
fn refused_text<L: Lookup>(
    alloc: Global,
    program: &Program,
    place: Place,
    numbers: &L,
) -> Result<Vec<u8>, AllocError>
    requires { AreRules (rules_in program.now) }
    ensures { IfOk result (λ bytes. bytes.items
        ≡ refused_text program.now place (L.numbers numbers.now)) }
{
    let mut out = Vec::new(alloc);
    push_text(&mut out, "refused\n")?;
    push_breach(alloc, &mut out, program, place, numbers)?;
    push_text(&mut out, "end\n")?;
    Ok(out)
}

/// The text that it stays undecided whether what is asked at the place is so: `undecided`, the
/// place, the reason, and `end`.
#[tactic(auto, unfolding(crate::specs::Verdicts::undecided_text))]
pub fn undecided_text(
    alloc: Global,
    program: &Program,
    place: &Place,
    why: &Why,
) -> Result<Vec<u8>, AllocError>
    ensures { IfOk result (λ bytes. bytes.items
        ≡ text.undecided_text program.now place.now why.now) }
{
    let mut out = Vec::new(alloc);
    push_text(&mut out, "undecided\n")?;
    push_place_line(&mut out, &program.names, *place)?;
    push_why(&mut out, &program.names, *place, why)?;
    push_text(&mut out, "end\n")?;
    Ok(out)
}

/// The text of a refusal that has its program, which is well formed: that it is refused or
/// undecided, the place, the numbers that show it or the reason, and `end`.
pub fn verdict_text(alloc: Global, refused: &Refused) -> Result<Vec<u8>, AllocError>
    requires { HasRules refused.now }
    ensures { IfOk result (λ bytes. bytes.items ≡ text.verdict_text refused.now) }
{
    match refused {
        Refused::InitialFails(program) => {
            refused_text(alloc, program, Place::Initial, &OneStore(&program.initial))
        }
        Refused::NotReflexive(program, guard, at) => {
            refused_text(alloc, program, Place::Reflexive { guard: *guard }, at)
        }
        Refused::Fails(program, place, at) => refused_text(alloc, program, *place, at),
        Refused::Undecided(program, place, why) => undecided_text(alloc, program, place, why),
        Refused::NoMemory => unreachable!(),
    }
}

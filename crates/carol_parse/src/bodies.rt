ghost use Rattle.std.specs.Prelude.{◌≡◌};
ghost use Rattle.carol_syntax.specs.Bodies.{body_tree};
ghost use Rattle.carol_grammar.specs.Rules as rules;
ghost use Rattle.carol_reader.specs.Reads.{Reads, read_by, read_deep};
ghost use Rattle.carol_parse.specs.Ends.{end_tree};

use crate::statements::plains;
use carol_reader::{Read, Reader, formula, next_is, term, word};
use carol_syntax::{Body, Kind, Last, Lexeme};
use sqlite_items::Boxed;

#[tactic(auto, unfolding(carol_grammar::specs::Rules::answer))]
fn answer<'a>(reader: &Reader<'_>, tokens: &'a [Lexeme]) -> Read<'a, Last>
    ensures { Reads end_tree result
        (read_by reader.now (rules.answer reader.now.bytes.now) tokens.now) }
{
    let (_, rest) = word(reader, tokens, Kind::Return)?;
    let (value, rest) = term(reader, rest)?;
    let (_, rest) = word(reader, rest, Kind::Semicolon)?;
    Ok((Last::Return(value), rest))
}

/// A body, at the reader's level or below it.
#[cycle(bodies)]
#[tactic(auto, unfolding(carol_grammar::specs::Rules::body))]
pub fn body<'a>(reader: &Reader<'_>, tokens: &'a [Lexeme]) -> Read<'a, Body>
    ensures { Reads body_tree result
        (read_by reader.now (rules.body reader.now.bytes.now) tokens.now) }
{
    let (_, rest) = word(reader, tokens, Kind::OpeningBrace)?;
    let (plain, rest) = plains(reader, rest)?;
    let (last, rest) = ending(reader, rest)?;
    let (_, rest) = word(reader, rest, Kind::ClosingBrace)?;
    let last = Boxed::new(reader.alloc, last)?;
    Ok((Body { plain, last }, rest))
}

// How a body ends.
#[cycle(bodies)]
fn ending<'a>(reader: &Reader<'_>, tokens: &'a [Lexeme]) -> Read<'a, Last>
    ensures { Reads end_tree result (read_deep reader.now rules.ending tokens.now) }
{
    if reader.depth > 0 && next_is(tokens, Kind::If) {
        return choice(&reader.below(), tokens);
    }
    answer(reader, tokens)
}

#[cycle(bodies)]
#[tactic(auto, unfolding(carol_grammar::specs::Rules::choice))]
fn choice<'a>(reader: &Reader<'_>, tokens: &'a [Lexeme]) -> Read<'a, Last>
    ensures { Reads end_tree result
        (read_by reader.now (rules.choice reader.now.bytes.now) tokens.now) }
{
    let (_, rest) = word(reader, tokens, Kind::If)?;
    let (test, rest) = formula(reader, rest)?;
    let (yes, rest) = body(reader, rest)?;
    let (_, rest) = word(reader, rest, Kind::Else)?;
    let (no, rest) = body(reader, rest)?;
    Ok((Last::If { test, yes, no }, rest))
}

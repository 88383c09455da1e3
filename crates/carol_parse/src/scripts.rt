ghost use Rattle.std.specs.Prelude.{◌≡◌, ◌≢◌};
ghost use Rattle.carol_syntax.specs.declared.kind.Kind.TheVariants as kinds;
ghost use Rattle.carol_reader.specs.Reads.{Reads, read_by};
ghost use Rattle.carol_grammar.specs.Rules as rules;

use carol_reader::{Member, Read, Reader, many, next_among, next_is, number, word};
use carol_syntax::{Kind, Lexeme, ScriptLine, ScriptLineList};
use sqlite_items::Items;

// Two replicas behind a word.
fn pair<'a>(reader: &Reader<'_>, tokens: &'a [Lexeme], kind: Kind) -> Read<'a, (u64, u64)>
    requires { kind ≢ kinds.Number }
    ensures { Reads (λ p. p) result (read_by reader.now (rules.pair kind) tokens.now) }
{
    let (_, rest) = word(reader, tokens, kind)?;
    let (first, rest) = number(reader, rest)?;
    let (second, rest) = number(reader, rest)?;
    let (_, rest) = word(reader, rest, Kind::Semicolon)?;
    Ok(((first.value, second.value), rest))
}

// One statement of a script.
#[tactic(auto, unfolding(carol_grammar::specs::Rules::script_line))]
fn script_line<'a>(reader: &Reader<'_>, tokens: &'a [Lexeme]) -> Read<'a, ScriptLine>
    ensures { Reads (λ s. s) result (read_by reader.now rules.script_line tokens.now) }
{
    if next_is(tokens, Kind::Go) {
        let (_, rest) = word(reader, tokens, Kind::Go)?;
        let (session, rest) = number(reader, rest)?;
        let (_, rest) = word(reader, rest, Kind::Semicolon)?;
        return Ok((ScriptLine::Go(session.value), rest));
    }
    if next_is(tokens, Kind::Gossip) {
        let (pair, rest) = pair(reader, tokens, Kind::Gossip)?;
        return Ok((ScriptLine::Gossip(pair.0, pair.1), rest));
    }
    if next_is(tokens, Kind::Cut) {
        let (pair, rest) = pair(reader, tokens, Kind::Cut)?;
        return Ok((ScriptLine::Cut(pair.0, pair.1), rest));
    }
    let (pair, rest) = pair(reader, tokens, Kind::Join)?;
    Ok((ScriptLine::Join(pair.0, pair.1), rest))
}

// Statements of a script, as members of a list.
struct OneLine;

impl Member for OneLine {
    type Tree = ScriptLine;

    ghost starts = { rules.line_words };

    ghost reading = { λ r ts. read_by r rules.script_line ts };

    fn begins(tokens: &[Lexeme]) -> bool {
        next_among(tokens, &[Kind::Go, Kind::Gossip, Kind::Cut, Kind::Join])
    }

    fn read<'a>(reader: &Reader<'_>, tokens: &'a [Lexeme]) -> Read<'a, ScriptLine> {
        script_line(reader, tokens)
    }
}

// The statements that stand here, as many as there are.
fn script_lines<'a>(reader: &Reader<'_>, tokens: &'a [Lexeme]) -> Read<'a, ScriptLineList>
    ensures { Reads (λ v. v) result (read_by reader.now rules.lines tokens.now) }
{
    many::<OneLine>(reader, Items::new(reader.alloc), tokens)
}

/// A script.
#[tactic(auto, unfolding(carol_grammar::specs::Rules::script))]
pub(crate) fn script<'a>(reader: &Reader<'_>, tokens: &'a [Lexeme]) -> Read<'a, ScriptLineList>
    ensures { Reads (λ v. v) result (read_by reader.now rules.script tokens.now) }
{
    let (_, rest) = word(reader, tokens, Kind::Script)?;
    let (lines, rest) = script_lines(reader, rest)?;
    let (_, rest) = word(reader, rest, Kind::End)?;
    Ok((lines, rest))
}

ghost use Rattle.carol_reader.specs.Reads.{Reads, read_by};
ghost use Rattle.carol_grammar.specs.Rules as rules;

use carol_reader::{Member, Read, Reader, bit, int, name, next_among, next_is, word};
use carol_syntax::{FieldDecl, FieldKind, Kind, Lexeme};

// The word of a counter or of a peak.
#[tactic(auto, unfolding(carol_grammar::specs::Rules::whole_kind))]
fn whole_kind<'a>(reader: &Reader<'_>, tokens: &'a [Lexeme]) -> Read<'a, FieldKind>
    ensures { Reads (λ k. k) result (read_by reader.now rules.whole_kind tokens.now) }
{
    if next_is(tokens, Kind::Counter) {
        let (_, rest) = word(reader, tokens, Kind::Counter)?;
        return Ok((FieldKind::Counter, rest));
    }
    let (_, rest) = word(reader, tokens, Kind::Peak)?;
    Ok((FieldKind::Peak, rest))
}

// A flag, and whether it is set at first.
#[tactic(auto, unfolding(carol_grammar::specs::Rules::flag_field))]
fn flag_field<'a>(reader: &Reader<'_>, tokens: &'a [Lexeme]) -> Read<'a, FieldDecl>
    ensures { Reads (λ f. f) result
        (read_by reader.now (rules.flag_field reader.now.bytes.now) tokens.now) }
{
    let (_, rest) = word(reader, tokens, Kind::Flag)?;
    let (name, rest) = name(reader, rest)?;
    let (_, rest) = word(reader, rest, Kind::Equals)?;
    let (start, rest) = bit(reader, rest)?;
    let (_, rest) = word(reader, rest, Kind::Semicolon)?;
    let kind = FieldKind::Flag;
    Ok((FieldDecl { kind, name, start }, rest))
}

/// A cell by itself or in a record.
#[tactic(auto, unfolding(carol_grammar::specs::Rules::field))]
pub(crate) fn field<'a>(reader: &Reader<'_>, tokens: &'a [Lexeme]) -> Read<'a, FieldDecl>
    ensures { Reads (λ f. f) result
        (read_by reader.now (rules.field reader.now.bytes.now) tokens.now) }
{
    if next_is(tokens, Kind::Flag) {
        return flag_field(reader, tokens);
    }
    let (kind, rest) = whole_kind(reader, tokens)?;
    let (name, rest) = name(reader, rest)?;
    let (_, rest) = word(reader, rest, Kind::Equals)?;
    let (start, rest) = int(reader, rest)?;
    let (_, rest) = word(reader, rest, Kind::Semicolon)?;
    Ok((FieldDecl { kind, name, start }, rest))
}

/// Fields, as members of a list.
pub(crate) struct OneField;

impl Member for OneField {
    type Tree = FieldDecl;

    ghost starts = { rules.field_words };

    ghost reading = { λ r ts. read_by r (rules.field r.bytes.now) ts };

    fn begins(tokens: &[Lexeme]) -> bool {
        next_among(tokens, &[Kind::Counter, Kind::Peak, Kind::Flag])
    }

    fn read<'a>(reader: &Reader<'_>, tokens: &'a [Lexeme]) -> Read<'a, FieldDecl> {
        field(reader, tokens)
    }
}

ghost use Rattle.carol_reader.specs.Reads.{Reads, read_by};
ghost use Rattle.carol_grammar.specs.Rules as rules;

use crate::fields::{OneField, field};
use carol_reader::{Member, Read, Reader, many, name, names, next_among, next_is, word};
use carol_syntax::{CellDecl, CellDeclList, Kind, Lexeme};
use sqlite_items::Items;

// A set of flags and its members.
#[tactic(auto, unfolding(carol_grammar::specs::Rules::set_cell))]
fn set_cell<'a>(reader: &Reader<'_>, tokens: &'a [Lexeme]) -> Read<'a, CellDecl>
    ensures { Reads (λ c. c) result
        (read_by reader.now (rules.set_cell reader.now.bytes.now) tokens.now) }
{
    let (_, rest) = word(reader, tokens, Kind::Set)?;
    let (name, rest) = name(reader, rest)?;
    let (_, rest) = word(reader, rest, Kind::OpeningBrace)?;
    let (members, rest) = names(reader, rest)?;
    let (_, rest) = word(reader, rest, Kind::ClosingBrace)?;
    let (_, rest) = word(reader, rest, Kind::Semicolon)?;
    Ok((CellDecl::Set { name, members }, rest))
}

// A record and its fields.
#[tactic(auto, unfolding(carol_grammar::specs::Rules::record_cell))]
fn record_cell<'a>(reader: &Reader<'_>, tokens: &'a [Lexeme]) -> Read<'a, CellDecl>
    ensures { Reads (λ c. c) result
        (read_by reader.now (rules.record_cell reader.now.bytes.now) tokens.now) }
{
    let (_, rest) = word(reader, tokens, Kind::Record)?;
    let (name, rest) = name(reader, rest)?;
    let (_, rest) = word(reader, rest, Kind::OpeningBrace)?;
    let (first, rest) = field(reader, rest)?;
    let mut front = Items::new(reader.alloc);
    front.push(first)?;
    let (fields, rest) = many::<OneField>(reader, front, rest)?;
    let (_, rest) = word(reader, rest, Kind::ClosingBrace)?;
    Ok((CellDecl::Record { name, fields }, rest))
}

// One declaration.
#[tactic(auto, unfolding(carol_grammar::specs::Rules::cell))]
fn cell<'a>(reader: &Reader<'_>, tokens: &'a [Lexeme]) -> Read<'a, CellDecl>
    ensures { Reads (λ c. c) result
        (read_by reader.now (rules.cell reader.now.bytes.now) tokens.now) }
{
    if next_is(tokens, Kind::Set) {
        return set_cell(reader, tokens);
    }
    if next_is(tokens, Kind::Record) {
        return record_cell(reader, tokens);
    }
    let (field, rest) = field(reader, tokens)?;
    Ok((CellDecl::Field(field), rest))
}

/// Declarations of cells, as members of a list.
pub(crate) struct OneCell;

impl Member for OneCell {
    type Tree = CellDecl;

    ghost starts = { rules.cell_words };

    ghost reading = { λ r ts. read_by r (rules.cell r.bytes.now) ts };

    fn begins(tokens: &[Lexeme]) -> bool {
        next_among(
            tokens,
            &[
                Kind::Counter,
                Kind::Peak,
                Kind::Flag,
                Kind::Set,
                Kind::Record,
            ],
        )
    }

    fn read<'a>(reader: &Reader<'_>, tokens: &'a [Lexeme]) -> Read<'a, CellDecl> {
        cell(reader, tokens)
    }
}

/// The declarations that stand here, as many as there are.
pub fn cells<'a>(reader: &Reader<'_>, tokens: &'a [Lexeme]) -> Read<'a, CellDeclList>
    ensures { Reads (λ v. v) result
        (read_by reader.now (rules.cells reader.now.bytes.now) tokens.now) }
{
    many::<OneCell>(reader, Items::new(reader.alloc), tokens)
}

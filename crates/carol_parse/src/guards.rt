ghost use Rattle.std.specs.Prelude.{◌≡◌, map};
ghost use Rattle.carol_syntax.specs.Files.{guard_tree};
ghost use Rattle.carol_grammar.specs.Rules as rules;
ghost use Rattle.carol_reader.specs.Reads.{Reads, read_by};

use carol_reader::{Read, Reader, formula, name, next_is, word};
use carol_syntax::{GuardDecl, GuardDeclList, Kind, Lexeme};
use sqlite_items::Items;

#[tactic(auto, unfolding(carol_grammar::specs::Rules::guard))]
fn guard<'a>(reader: &Reader<'_>, tokens: &'a [Lexeme]) -> Read<'a, GuardDecl>
    ensures { Reads guard_tree result
        (read_by reader.now (rules.guard reader.now.bytes.now) tokens.now) }
{
    let (_, rest) = word(reader, tokens, Kind::Guard)?;
    let (named, rest) = name(reader, rest)?;
    let (_, rest) = word(reader, rest, Kind::Colon)?;
    let (formula, rest) = formula(reader, rest)?;
    let (_, rest) = word(reader, rest, Kind::Semicolon)?;
    Ok((
        GuardDecl {
            name: named,
            formula,
        },
        rest,
    ))
}

/// The guards of a program.
pub(crate) fn guards<'a>(reader: &Reader<'_>, tokens: &'a [Lexeme]) -> Read<'a, GuardDeclList>
    ensures { Reads (map guard_tree) result
        (read_by reader.now (rules.guards reader.now.bytes.now) tokens.now) }
{
    let mut all = Items::new(reader.alloc);
    let mut rest = tokens;
    for _ in 0..reader.count {
        if !next_is(rest, Kind::Guard) {
            return Ok((all, rest));
        }
        let (one, more) = guard(reader, rest)?;
        all.push(one)?;
        rest = more;
    }
    Ok((all, rest))
}

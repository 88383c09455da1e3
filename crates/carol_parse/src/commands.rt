ghost use Rattle.std.specs.Prelude.{◌≡◌, ◌∷◌, []};
ghost use Rattle.carol_syntax.specs.declared.kind.Kind.TheVariants as kinds;
ghost use Rattle.carol_reader.specs.Reads.{Reads, read_by};
ghost use Rattle.carol_grammar.specs.Rules as rules;
ghost use Rattle.carol_grammar.specs.Terminals.{number_of};

use carol_reader::{Member, OneInt, Read, Reader, ints, many, name, next_is, num, word};
use carol_syntax::{CommandDecl, CommandDeclList, Ident, IntList, Kind, Lexeme, Num};
use sqlite_items::Items;

// Whole numbers with commas between them, or none.
#[tactic(auto, unfolding(carol_grammar::specs::Rules::some_ints))]
fn some_ints<'a>(reader: &Reader<'_>, tokens: &'a [Lexeme]) -> Read<'a, IntList>
    ensures { Reads (λ v. v) result (read_by reader.now rules.some_ints tokens.now) }
{
    if !OneInt::begins(tokens) {
        return Ok((Items::new(reader.alloc), tokens));
    }
    ints(reader, tokens)
}

// What a command gives its operation.
#[tactic(auto, unfolding(carol_grammar::specs::Rules::arguments))]
fn arguments<'a>(reader: &Reader<'_>, tokens: &'a [Lexeme]) -> Read<'a, IntList>
    ensures { Reads (λ v. v) result (read_by reader.now rules.arguments tokens.now) }
{
    let (_, rest) = word(reader, tokens, Kind::Opening)?;
    let (args, rest) = some_ints(reader, rest)?;
    let (_, rest) = word(reader, rest, Kind::Closing)?;
    Ok((args, rest))
}

// How often a command stands, where the text says so.
#[tactic(auto, unfolding(carol_grammar::specs::Rules::times))]
fn times<'a>(reader: &Reader<'_>, tokens: &'a [Lexeme]) -> Read<'a, Option<Num>>
    ensures { Reads (λ n. n) result (read_by reader.now rules.times tokens.now) }
{
    if !next_is(tokens, Kind::Times) {
        return Ok((None, tokens));
    }
    let (_, rest) = word(reader, tokens, Kind::Times)?;
    let (count, rest) = num(reader, rest)?;
    Ok((Some(count), rest))
}

// Once, at the place of the name, where the text says nothing.
fn times_or_once(name: &Ident, found: Option<Num>) -> Num
    ensures { result ≡ rules.times_of name.now found }
{
    match found {
        Some(times) => times,
        None => Num {
            value: 1,
            span: name.span,
        },
    }
}

// A command.
#[tactic(auto, unfolding(carol_grammar::specs::Rules::command))]
fn command<'a>(reader: &Reader<'_>, tokens: &'a [Lexeme]) -> Read<'a, CommandDecl>
    ensures { Reads (λ c. c) result
        (read_by reader.now (rules.command reader.now.bytes.now) tokens.now) }
{
    let (name, rest) = name(reader, tokens)?;
    let (args, rest) = arguments(reader, rest)?;
    let (found, rest) = times(reader, rest)?;
    let (_, rest) = word(reader, rest, Kind::Semicolon)?;
    let times = times_or_once(&name, found);
    Ok((CommandDecl { name, args, times }, rest))
}

// Commands, as members of a list.
struct OneCommand;

impl Member for OneCommand {
    type Tree = CommandDecl;

    ghost starts = { number_of kinds.Name ∷ [] };

    ghost reading = { λ r ts. read_by r (rules.command r.bytes.now) ts };

    fn begins(tokens: &[Lexeme]) -> bool {
        next_is(tokens, Kind::Name)
    }

    fn read<'a>(reader: &Reader<'_>, tokens: &'a [Lexeme]) -> Read<'a, CommandDecl> {
        command(reader, tokens)
    }
}

/// The commands that stand here, as many as there are.
pub(crate) fn commands<'a>(reader: &Reader<'_>, tokens: &'a [Lexeme]) -> Read<'a, CommandDeclList>
    ensures { Reads (λ v. v) result
        (read_by reader.now (rules.commands reader.now.bytes.now) tokens.now) }
{
    many::<OneCommand>(reader, Items::new(reader.alloc), tokens)
}

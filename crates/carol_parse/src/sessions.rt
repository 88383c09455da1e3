ghost use Rattle.std.specs.Prelude.{◌≡◌, ◌∷◌, []};
ghost use Rattle.carol_syntax.specs.declared.kind.Kind.TheVariants as kinds;
ghost use Rattle.carol_reader.specs.Reads.{Reads, read_by};
ghost use Rattle.carol_grammar.specs.Rules as rules;
ghost use Rattle.carol_grammar.specs.Terminals.{number_of};

use crate::commands::commands;
use carol_reader::{Member, Read, Reader, many, next_is, num, word};
use carol_syntax::{Kind, Lexeme, SessionDecl, SessionDeclList};
use sqlite_items::Items;

// A session at a replica.
#[tactic(auto, unfolding(carol_grammar::specs::Rules::session))]
fn session<'a>(reader: &Reader<'_>, tokens: &'a [Lexeme]) -> Read<'a, SessionDecl>
    ensures { Reads (λ s. s) result
        (read_by reader.now (rules.session reader.now.bytes.now) tokens.now) }
{
    let (head, rest) = word(reader, tokens, Kind::Session)?;
    let (_, rest) = word(reader, rest, Kind::At)?;
    let (replica, rest) = num(reader, rest)?;
    let (_, rest) = word(reader, rest, Kind::OpeningBrace)?;
    let (commands, rest) = commands(reader, rest)?;
    let (_, rest) = word(reader, rest, Kind::ClosingBrace)?;
    let span = head.span;
    Ok((
        SessionDecl {
            span,
            replica,
            commands,
        },
        rest,
    ))
}

// Sessions, as members of a list.
struct OneSession;

impl Member for OneSession {
    type Tree = SessionDecl;

    ghost starts = { number_of kinds.Session ∷ [] };

    ghost reading = { λ r ts. read_by r (rules.session r.bytes.now) ts };

    fn begins(tokens: &[Lexeme]) -> bool {
        next_is(tokens, Kind::Session)
    }

    fn read<'a>(reader: &Reader<'_>, tokens: &'a [Lexeme]) -> Read<'a, SessionDecl> {
        session(reader, tokens)
    }
}

/// The sessions that stand here, as many as there are.
pub(crate) fn sessions<'a>(reader: &Reader<'_>, tokens: &'a [Lexeme]) -> Read<'a, SessionDeclList>
    ensures { Reads (λ v. v) result
        (read_by reader.now (rules.sessions reader.now.bytes.now) tokens.now) }
{
    many::<OneSession>(reader, Items::new(reader.alloc), tokens)
}

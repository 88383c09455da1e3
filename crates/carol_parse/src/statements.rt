ghost use Rattle.std.specs.Prelude.{◌≡◌, ◌∷◌, []};
ghost use Rattle.carol_syntax.specs.declared.kind.Kind.TheVariants as kinds;
ghost use Rattle.carol_grammar.specs.Terminals.{number_of};
ghost use Rattle.carol_grammar.specs.Rules as rules;
ghost use Rattle.carol_reader.specs.Reads.{Reads, read_by};

use carol_reader::{
    Member, Read, Reader, listed, many, name, next_among, next_is, path, term, word,
};
use carol_syntax::{AtomDecl, Change, Kind, Lexeme, Statement, StatementList};
use sqlite_items::Items;

// What an issue does to a cell.
#[tactic(auto, unfolding(carol_grammar::specs::Rules::change))]
fn change<'a>(reader: &Reader<'_>, tokens: &'a [Lexeme]) -> Read<'a, Change>
    ensures { Reads (λ v. v) result
        (read_by reader.now (rules.change reader.now.bytes.now) tokens.now) }
{
    if next_is(tokens, Kind::PlusEquals) {
        let (_, rest) = word(reader, tokens, Kind::PlusEquals)?;
        let (amount, rest) = term(reader, rest)?;
        return Ok((Change::Add(amount), rest));
    }
    if next_is(tokens, Kind::MinusEquals) {
        let (_, rest) = word(reader, tokens, Kind::MinusEquals)?;
        let (amount, rest) = term(reader, rest)?;
        return Ok((Change::Take(amount), rest));
    }
    if next_is(tokens, Kind::Raise) {
        let (_, rest) = word(reader, tokens, Kind::Raise)?;
        let (target, rest) = term(reader, rest)?;
        return Ok((Change::Raise(target), rest));
    }
    let (_, rest) = word(reader, tokens, Kind::Set)?;
    Ok((Change::Set, rest))
}

// One change of an issue.
#[tactic(auto, unfolding(carol_grammar::specs::Rules::atom))]
fn atom<'a>(reader: &Reader<'_>, tokens: &'a [Lexeme]) -> Read<'a, AtomDecl>
    ensures { Reads (λ v. v) result
        (read_by reader.now (rules.atom reader.now.bytes.now) tokens.now) }
{
    let (path, rest) = path(reader, tokens)?;
    let (change, rest) = change(reader, rest)?;
    Ok((AtomDecl { path, change }, rest))
}

// Changes of an issue, as members of a list.
struct OneAtom;

impl Member for OneAtom {
    type Tree = AtomDecl;

    ghost starts = { number_of kinds.Name ∷ [] };

    ghost reading = { λ r ts. read_by r (rules.atom r.bytes.now) ts };

    fn begins(tokens: &[Lexeme]) -> bool {
        next_is(tokens, Kind::Name)
    }

    fn read<'a>(reader: &Reader<'_>, tokens: &'a [Lexeme]) -> Read<'a, AtomDecl> {
        atom(reader, tokens)
    }
}

#[tactic(auto, unfolding(carol_grammar::specs::Rules::query))]
fn query<'a>(reader: &Reader<'_>, tokens: &'a [Lexeme]) -> Read<'a, Statement>
    ensures { Reads (λ v. v) result
        (read_by reader.now (rules.query reader.now.bytes.now) tokens.now) }
{
    let (_, rest) = word(reader, tokens, Kind::Query)?;
    let (store, rest) = name(reader, rest)?;
    let (_, rest) = word(reader, rest, Kind::Under)?;
    let (guard, rest) = name(reader, rest)?;
    let (_, rest) = word(reader, rest, Kind::Semicolon)?;
    Ok((Statement::Query { name: store, guard }, rest))
}

#[tactic(auto, unfolding(carol_grammar::specs::Rules::release))]
fn release<'a>(reader: &Reader<'_>, tokens: &'a [Lexeme]) -> Read<'a, Statement>
    ensures { Reads (λ v. v) result (read_by reader.now rules.release tokens.now) }
{
    let (_, rest) = word(reader, tokens, Kind::Release)?;
    let (_, rest) = word(reader, rest, Kind::Semicolon)?;
    Ok((Statement::Release, rest))
}

#[tactic(auto, unfolding(carol_grammar::specs::Rules::binding))]
fn binding<'a>(reader: &Reader<'_>, tokens: &'a [Lexeme]) -> Read<'a, Statement>
    ensures { Reads (λ v. v) result
        (read_by reader.now (rules.binding reader.now.bytes.now) tokens.now) }
{
    let (_, rest) = word(reader, tokens, Kind::Let)?;
    let (bound, rest) = name(reader, rest)?;
    let (_, rest) = word(reader, rest, Kind::Equals)?;
    let (term, rest) = term(reader, rest)?;
    let (_, rest) = word(reader, rest, Kind::Semicolon)?;
    Ok((Statement::Let { name: bound, term }, rest))
}

#[tactic(auto, unfolding(carol_grammar::specs::Rules::issue))]
fn issue<'a>(reader: &Reader<'_>, tokens: &'a [Lexeme]) -> Read<'a, Statement>
    ensures { Reads (λ v. v) result
        (read_by reader.now (rules.issue reader.now.bytes.now) tokens.now) }
{
    let (_, rest) = word(reader, tokens, Kind::Issue)?;
    let (atoms, rest) = listed::<OneAtom>(reader, rest)?;
    let (_, rest) = word(reader, rest, Kind::Semicolon)?;
    Ok((Statement::Issue(atoms), rest))
}

// A statement that another one follows.
#[tactic(auto, unfolding(carol_grammar::specs::Rules::plain))]
fn plain<'a>(reader: &Reader<'_>, tokens: &'a [Lexeme]) -> Read<'a, Statement>
    ensures { Reads (λ v. v) result
        (read_by reader.now (rules.plain reader.now.bytes.now) tokens.now) }
{
    if next_is(tokens, Kind::Query) {
        return query(reader, tokens);
    }
    if next_is(tokens, Kind::Release) {
        return release(reader, tokens);
    }
    if next_is(tokens, Kind::Let) {
        return binding(reader, tokens);
    }
    issue(reader, tokens)
}

// Statements, as members of a list.
struct OneStatement;

impl Member for OneStatement {
    type Tree = Statement;

    ghost starts = { rules.plain_words };

    ghost reading = { λ r ts. read_by r (rules.plain r.bytes.now) ts };

    fn begins(tokens: &[Lexeme]) -> bool {
        next_among(
            tokens,
            &[Kind::Query, Kind::Release, Kind::Let, Kind::Issue],
        )
    }

    fn read<'a>(reader: &Reader<'_>, tokens: &'a [Lexeme]) -> Read<'a, Statement> {
        plain(reader, tokens)
    }
}

/// The statements of a body before its end.
pub(crate) fn plains<'a>(reader: &Reader<'_>, tokens: &'a [Lexeme]) -> Read<'a, StatementList>
    ensures { Reads (λ v. v) result
        (read_by reader.now (rules.plains reader.now.bytes.now) tokens.now) }
{
    many::<OneStatement>(reader, Items::new(reader.alloc), tokens)
}

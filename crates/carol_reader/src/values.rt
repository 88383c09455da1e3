ghost use Rattle.std.specs.Prelude.{◌≡◌, ◌≢◌, ◌∷◌, ◌++◌, IfOk, option_to_list};
ghost use Rattle.carol_grammar.specs.Rules as rules;
ghost use Rattle.carol_grammar.specs.Rules.{names_of, value_at};
ghost use Rattle.carol_syntax.specs.declared.formulas.ValueKind.TheVariants as ways;
ghost use Rattle.carol_syntax.specs.declared.kind.Kind.TheVariants as kinds;
ghost use Rattle.carol_reader.specs.Reads.{Reads, read_by};

use crate::{Read, Reader, name, next_is, word};
use carol_syntax::{Ident, IdentList, Kind, Lexeme, PathDecl, Span, ValueDecl, ValueKind};
use sqlite_items::Items;
use std::alloc::{AllocError, Global};

// A name, and one behind it where there is one.
fn parts(alloc: Global, first: Ident, second: Option<Ident>) -> Result<IdentList, AllocError>
    ensures { IfOk result (λ all. all ≡ first ∷ option_to_list second) }
{
    let mut all = Items::new(alloc);
    all.push(first)?;
    match second {
        None => Ok(all),
        Some(second) => {
            all.push(second)?;
            Ok(all)
        }
    }
}

// A member's or a field's name behind a dot, where there is one.
#[tactic(auto, unfolding(carol_grammar::specs::Rules::member))]
fn member<'a>(reader: &Reader<'_>, tokens: &'a [Lexeme]) -> Read<'a, Option<Ident>>
    ensures { Reads (λ v. v) result
        (read_by reader.now (rules.member reader.now.bytes.now) tokens.now) }
{
    if !next_is(tokens, Kind::Dot) {
        return Ok((None, tokens));
    }
    let (_, rest) = word(reader, tokens, Kind::Dot)?;
    let (second, rest) = name(reader, rest)?;
    Ok((Some(second), rest))
}

/// A path: a name, and a member's or a field's behind a dot.
#[tactic(auto, unfolding(carol_grammar::specs::Rules::path))]
pub fn path<'a>(reader: &Reader<'_>, tokens: &'a [Lexeme]) -> Read<'a, PathDecl>
    ensures { Reads (λ v. v) result
        (read_by reader.now (rules.path reader.now.bytes.now) tokens.now) }
{
    let (first, rest) = name(reader, tokens)?;
    let (second, rest) = member(reader, rest)?;
    let parts = parts(reader.alloc, first, second)?;
    Ok((PathDecl { parts }, rest))
}

// A path behind a dot, where there is one.
#[tactic(auto, unfolding(carol_grammar::specs::Rules::dotted))]
fn dotted<'a>(reader: &Reader<'_>, tokens: &'a [Lexeme]) -> Read<'a, Option<PathDecl>>
    ensures { Reads (λ v. v) result
        (read_by reader.now (rules.dotted reader.now.bytes.now) tokens.now) }
{
    if !next_is(tokens, Kind::Dot) {
        return Ok((None, tokens));
    }
    let (_, rest) = word(reader, tokens, Kind::Dot)?;
    let (path, rest) = path(reader, rest)?;
    Ok((Some(path), rest))
}

// The names of a value: the first one, and those of a path behind it.
fn joined(alloc: Global, first: Ident, path: Option<PathDecl>) -> Result<IdentList, AllocError>
    ensures { IfOk result (λ all. all ≡ first ∷ names_of path) }
{
    let mut all = Items::new(alloc);
    all.push(first)?;
    match path {
        None => Ok(all),
        Some(path) => {
            all.append(path.parts)?;
            Ok(all)
        }
    }
}

#[tactic(auto, unfolding(carol_grammar::specs::Rules::plain_value))]
fn plain_value<'a>(reader: &Reader<'_>, tokens: &'a [Lexeme]) -> Read<'a, ValueDecl>
    ensures { Reads (λ v. v) result
        (read_by reader.now (rules.plain_value reader.now.bytes.now) tokens.now) }
{
    let (first, rest) = name(reader, tokens)?;
    let span = first.span;
    let (path, rest) = dotted(reader, rest)?;
    let parts = joined(reader.alloc, first, path)?;
    Ok((
        ValueDecl {
            span,
            kind: ValueKind::Plain,
            parts,
        },
        rest,
    ))
}

#[tactic(auto, unfolding(carol_grammar::specs::Rules::outcome_value))]
fn outcome_value<'a>(reader: &Reader<'_>, tokens: &'a [Lexeme]) -> Read<'a, ValueDecl>
    ensures { Reads (λ v. v) result (read_by reader.now rules.outcome_value tokens.now) }
{
    let (lexeme, rest) = word(reader, tokens, Kind::Result)?;
    Ok((
        ValueDecl {
            span: lexeme.span,
            kind: ValueKind::Outcome,
            parts: Items::new(reader.alloc),
        },
        rest,
    ))
}

// A value of one of the two stores of a guard.
fn side<'a>(
    reader: &Reader<'_>,
    tokens: &'a [Lexeme],
    side: Kind,
    kind: ValueKind,
) -> Read<'a, ValueDecl>
    requires { side ≢ kinds.Number }
    ensures { Reads (λ v. v) result
        (read_by reader.now (rules.side side kind reader.now.bytes.now) tokens.now) }
{
    let (lexeme, rest) = word(reader, tokens, side)?;
    let (_, rest) = word(reader, rest, Kind::Dot)?;
    let (path, rest) = path(reader, rest)?;
    Ok((
        ValueDecl {
            span: lexeme.span,
            kind,
            parts: path.parts,
        },
        rest,
    ))
}

fn sized_side<'a>(
    reader: &Reader<'_>,
    tokens: &'a [Lexeme],
    side: Kind,
    kind: ValueKind,
) -> Read<'a, (ValueKind, PathDecl)>
    requires { side ≢ kinds.Number }
    ensures { Reads (λ v. v) result
        (read_by reader.now (rules.sized_side side kind reader.now.bytes.now) tokens.now) }
{
    let (_, rest) = word(reader, tokens, side)?;
    let (_, rest) = word(reader, rest, Kind::Dot)?;
    let (path, rest) = path(reader, rest)?;
    Ok(((kind, path), rest))
}

// What stands between the parentheses of a size.
#[tactic(auto, unfolding(carol_grammar::specs::Rules::sized))]
fn sized<'a>(reader: &Reader<'_>, tokens: &'a [Lexeme]) -> Read<'a, (ValueKind, PathDecl)>
    ensures { Reads (λ v. v) result
        (read_by reader.now (rules.sized reader.now.bytes.now) tokens.now) }
{
    if next_is(tokens, Kind::Here) {
        return sized_side(reader, tokens, Kind::Here, ValueKind::SizeHere);
    }
    if next_is(tokens, Kind::There) {
        return sized_side(reader, tokens, Kind::There, ValueKind::SizeThere);
    }
    let (path, rest) = path(reader, tokens)?;
    Ok(((ValueKind::Size, path), rest))
}

#[tactic(auto, unfolding(carol_grammar::specs::Rules::size_value))]
fn size_value<'a>(reader: &Reader<'_>, tokens: &'a [Lexeme]) -> Read<'a, ValueDecl>
    ensures { Reads (λ v. v) result
        (read_by reader.now (rules.size_value reader.now.bytes.now) tokens.now) }
{
    let (lexeme, rest) = word(reader, tokens, Kind::Size)?;
    let (_, rest) = word(reader, rest, Kind::Opening)?;
    let ((kind, path), rest) = sized(reader, rest)?;
    let (_, rest) = word(reader, rest, Kind::Closing)?;
    Ok((
        ValueDecl {
            span: lexeme.span,
            kind,
            parts: path.parts,
        },
        rest,
    ))
}

/// A value of a term.
#[tactic(auto, unfolding(carol_grammar::specs::Rules::value))]
pub(crate) fn value<'a>(reader: &Reader<'_>, tokens: &'a [Lexeme]) -> Read<'a, ValueDecl>
    ensures { Reads (λ v. v) result
        (read_by reader.now (rules.value reader.now.bytes.now) tokens.now) }
{
    if next_is(tokens, Kind::Result) {
        return outcome_value(reader, tokens);
    }
    if next_is(tokens, Kind::Here) {
        return side(reader, tokens, Kind::Here, ValueKind::Here);
    }
    if next_is(tokens, Kind::There) {
        return side(reader, tokens, Kind::There, ValueKind::There);
    }
    if next_is(tokens, Kind::Size) {
        return size_value(reader, tokens);
    }
    plain_value(reader, tokens)
}

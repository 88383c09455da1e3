ghost use Rattle.std.specs.Prelude.{◌≡◌, map};
ghost use Rattle.carol_syntax.specs.Files.{param_tree, op_tree};
ghost use Rattle.carol_syntax.specs.declared.kind.Kind.TheVariants as kinds;
ghost use Rattle.carol_grammar.specs.Rules as rules;
ghost use Rattle.carol_reader.specs.Reads.{Reads, read_by};

use crate::bodies::body;
use carol_reader::{Read, Reader, formula, name, next_is, word};
use carol_syntax::{Kind, Lexeme, OpDecl, OpDeclList, ParamDecl, ParamDeclList};
use sqlite_items::Items;

#[tactic(auto, unfolding(carol_grammar::specs::Rules::param))]
fn param<'a>(reader: &Reader<'_>, tokens: &'a [Lexeme]) -> Read<'a, ParamDecl>
    ensures { Reads param_tree result
        (read_by reader.now (rules.param reader.now.bytes.now) tokens.now) }
{
    let (named, rest) = name(reader, tokens)?;
    let (_, rest) = word(reader, rest, Kind::Colon)?;
    let (formula, rest) = formula(reader, rest)?;
    Ok((
        ParamDecl {
            name: named,
            formula,
        },
        rest,
    ))
}

// A parameter behind a comma.
fn next_param<'a>(reader: &Reader<'_>, tokens: &'a [Lexeme]) -> Read<'a, ParamDecl>
    ensures { Reads param_tree result (read_by reader.now
        (rules.behind_word kinds.Comma (rules.param reader.now.bytes.now)) tokens.now) }
{
    let (_, rest) = word(reader, tokens, Kind::Comma)?;
    param(reader, rest)
}

// Parameters with commas between them, at least one.
fn listed_params<'a>(reader: &Reader<'_>, tokens: &'a [Lexeme]) -> Read<'a, ParamDeclList>
    ensures { Reads (map param_tree) result
        (read_by reader.now (rules.listed (rules.param reader.now.bytes.now)) tokens.now) }
{
    let (first, more) = param(reader, tokens)?;
    let mut all = Items::new(reader.alloc);
    all.push(first)?;
    let mut rest = more;
    for _ in 0..reader.count {
        if !next_is(rest, Kind::Comma) {
            return Ok((all, rest));
        }
        let (one, more) = next_param(reader, rest)?;
        all.push(one)?;
        rest = more;
    }
    Ok((all, rest))
}

#[tactic(auto, unfolding(carol_grammar::specs::Rules::some_params))]
fn some_params<'a>(reader: &Reader<'_>, tokens: &'a [Lexeme]) -> Read<'a, ParamDeclList>
    ensures { Reads (map param_tree) result
        (read_by reader.now (rules.some_params reader.now.bytes.now) tokens.now) }
{
    if !next_is(tokens, Kind::Name) {
        return Ok((Items::new(reader.alloc), tokens));
    }
    listed_params(reader, tokens)
}

// Parameters in their parentheses.
#[tactic(auto, unfolding(carol_grammar::specs::Rules::params))]
fn params<'a>(reader: &Reader<'_>, tokens: &'a [Lexeme]) -> Read<'a, ParamDeclList>
    ensures { Reads (map param_tree) result
        (read_by reader.now (rules.params reader.now.bytes.now) tokens.now) }
{
    let (_, rest) = word(reader, tokens, Kind::Opening)?;
    let (params, rest) = some_params(reader, rest)?;
    let (_, rest) = word(reader, rest, Kind::Closing)?;
    Ok((params, rest))
}

#[tactic(auto, unfolding(carol_grammar::specs::Rules::op))]
fn op<'a>(reader: &Reader<'_>, tokens: &'a [Lexeme]) -> Read<'a, OpDecl>
    ensures { Reads op_tree result (read_by reader.now (rules.op reader.now.bytes.now) tokens.now) }
{
    let (_, rest) = word(reader, tokens, Kind::Op)?;
    let (named, rest) = name(reader, rest)?;
    let (params, rest) = params(reader, rest)?;
    let (_, rest) = word(reader, rest, Kind::Gives)?;
    let (gives, rest) = formula(reader, rest)?;
    let (body, rest) = body(reader, rest)?;
    Ok((
        OpDecl {
            name: named,
            params,
            gives,
            body,
        },
        rest,
    ))
}

/// The operations of a program.
pub(crate) fn ops<'a>(reader: &Reader<'_>, tokens: &'a [Lexeme]) -> Read<'a, OpDeclList>
    ensures { Reads (map op_tree) result
        (read_by reader.now (rules.ops reader.now.bytes.now) tokens.now) }
{
    let mut all = Items::new(reader.alloc);
    let mut rest = tokens;
    for _ in 0..reader.count {
        if !next_is(rest, Kind::Op) {
            return Ok((all, rest));
        }
        let (one, more) = op(reader, rest)?;
        all.push(one)?;
        rest = more;
    }
    Ok((all, rest))
}

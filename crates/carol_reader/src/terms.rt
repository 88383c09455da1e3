ghost use Rattle.std.specs.Prelude.{◌≡◌, ◌∷◌};
ghost use Rattle.carol_grammar.specs.Rules as rules;
ghost use Rattle.carol_grammar.specs.Rules.{signed};
ghost use Rattle.carol_reader.specs.Reads.{Reads, read_by};

use crate::values::value;
use crate::{Member, Read, Reader, many, next_among, next_is, next_numeral, number, word};
use carol_syntax::{Kind, Lexeme, ProductDecl, Span, TermDecl, ValueDecl};
use sqlite_items::Items;

// A value behind a star, where there is one.
#[tactic(auto, unfolding(carol_grammar::specs::Rules::times_value))]
fn times_value<'a>(reader: &Reader<'_>, tokens: &'a [Lexeme]) -> Read<'a, Option<ValueDecl>>
    ensures { Reads (λ v. v) result
        (read_by reader.now (rules.times_value reader.now.bytes.now) tokens.now) }
{
    if !next_is(tokens, Kind::Star) {
        return Ok((None, tokens));
    }
    let (_, rest) = word(reader, tokens, Kind::Star)?;
    let (value, rest) = value(reader, rest)?;
    Ok((Some(value), rest))
}

// A number, or its product with a value, and the place of the number.
#[tactic(auto, unfolding(carol_grammar::specs::Rules::multiple))]
fn multiple<'a>(reader: &Reader<'_>, tokens: &'a [Lexeme]) -> Read<'a, (Span, ProductDecl)>
    ensures { Reads (λ v. v) result
        (read_by reader.now (rules.multiple reader.now.bytes.now) tokens.now) }
{
    let (lexeme, rest) = number(reader, tokens)?;
    let (value, rest) = times_value(reader, rest)?;
    let product = ProductDecl {
        minus: false,
        factor: Some(lexeme.value),
        value,
    };
    Ok(((lexeme.span, product), rest))
}

// A product, and the place of its first token.
#[tactic(auto, unfolding(carol_grammar::specs::Rules::product))]
fn product<'a>(reader: &Reader<'_>, tokens: &'a [Lexeme]) -> Read<'a, (Span, ProductDecl)>
    ensures { Reads (λ v. v) result
        (read_by reader.now (rules.product reader.now.bytes.now) tokens.now) }
{
    if next_numeral(tokens) {
        return multiple(reader, tokens);
    }
    let (value, rest) = value(reader, tokens)?;
    let span = value.span;
    let product = ProductDecl {
        minus: false,
        factor: None,
        value: Some(value),
    };
    Ok(((span, product), rest))
}

fn with_sign(minus: bool, product: ProductDecl) -> ProductDecl
    ensures { result ≡ signed minus product }
{
    ProductDecl {
        minus,
        factor: product.factor,
        value: product.value,
    }
}

// A product with its sign, behind another one.
#[tactic(auto, unfolding(carol_grammar::specs::Rules::next_product))]
fn next_product<'a>(reader: &Reader<'_>, tokens: &'a [Lexeme]) -> Read<'a, ProductDecl>
    ensures { Reads (λ v. v) result
        (read_by reader.now (rules.next_product reader.now.bytes.now) tokens.now) }
{
    if next_is(tokens, Kind::Plus) {
        let (_, rest) = word(reader, tokens, Kind::Plus)?;
        let ((_, product), rest) = product(reader, rest)?;
        return Ok((with_sign(false, product), rest));
    }
    let (_, rest) = word(reader, tokens, Kind::Minus)?;
    let ((_, product), rest) = product(reader, rest)?;
    Ok((with_sign(true, product), rest))
}

// The first product of a term, and the place of its first token or of its sign.
#[tactic(auto, unfolding(carol_grammar::specs::Rules::first_product))]
fn first_product<'a>(reader: &Reader<'_>, tokens: &'a [Lexeme]) -> Read<'a, (Span, ProductDecl)>
    ensures { Reads (λ v. v) result
        (read_by reader.now (rules.first_product reader.now.bytes.now) tokens.now) }
{
    if next_is(tokens, Kind::Minus) {
        let (lexeme, rest) = word(reader, tokens, Kind::Minus)?;
        let ((_, product), rest) = product(reader, rest)?;
        return Ok(((lexeme.span, with_sign(true, product)), rest));
    }
    product(reader, tokens)
}

// Products behind the first one, as members of a list.
struct NextProduct;

impl Member for NextProduct {
    type Tree = ProductDecl;

    ghost starts = { rules.signs };

    ghost reading = { λ r ts. read_by r (rules.next_product r.bytes.now) ts };

    fn begins(tokens: &[Lexeme]) -> bool {
        next_among(tokens, &[Kind::Plus, Kind::Minus])
    }

    fn read<'a>(reader: &Reader<'_>, tokens: &'a [Lexeme]) -> Read<'a, ProductDecl> {
        next_product(reader, tokens)
    }
}

/// A term: a sum of products.
#[tactic(auto, unfolding(carol_grammar::specs::Rules::term))]
pub fn term<'a>(reader: &Reader<'_>, tokens: &'a [Lexeme]) -> Read<'a, TermDecl>
    ensures { Reads (λ v. v) result
        (read_by reader.now (rules.term reader.now.bytes.now) tokens.now) }
{
    let ((span, first), rest) = first_product(reader, tokens)?;
    let mut front = Items::new(reader.alloc);
    front.push(first)?;
    let (products, rest) = many::<NextProduct>(reader, front, rest)?;
    Ok((TermDecl { span, products }, rest))
}

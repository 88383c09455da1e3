ghost use Rattle.std.specs.Prelude.{◌≡◌, ◌≢◌, ◌≤◌, ◌∷◌, [], true, map, ℕ, List, IfOk};
ghost use Rattle.std.specs.List.{AllByRecursion};
ghost use Rattle.carol_grammar.specs.Reading.{next_in, read_token};
ghost use Rattle.carol_syntax.specs.Limits.{largest};
ghost use Rattle.carol_syntax.specs.declared.kind.Kind.TheVariants as kinds;
ghost use Rattle.carol_grammar.specs.Terminals.{class_of, number_of};
ghost use Rattle.carol_grammar.specs.Rules as rules;
ghost use Rattle.carol_reader.specs.Reads.{Reads, is_within, read_by};

use crate::reader::{Halt, Read, Reader};
use carol_syntax::{Ident, Kind, LARGEST, Lexeme, Num, Word};

/// Whether the next token is this word or symbol.
#[tactic(auto, using(crate::proofs::Classes::class_is))]
pub fn next_is(tokens: &[Lexeme], kind: Kind) -> bool
    requires { kind ≢ kinds.Number }
    ensures { result ≡ next_in class_of (number_of kind ∷ []) tokens.now }
{
    let Some((first, _)) = tokens.split_first() else {
        return false;
    };
    first.kind == kind
}

/// Whether the next token is one of these words and symbols.
#[tactic(auto, using(crate::proofs::Classes::among_hit, crate::proofs::Classes::among_miss, crate::proofs::Classes::among_none))]
pub fn next_among(tokens: &[Lexeme], among: &[Kind]) -> bool
    requires { AllByRecursion (λ kind. kind ≢ kinds.Number) among.now }
    ensures { result ≡ next_in class_of (map number_of among.now) tokens.now }
{
    let mut rest = among;
    while let Some((kind, more)) = rest.split_first() {
        if next_is(tokens, *kind) {
            return true;
        }
        rest = more;
    }
    false
}

// Whether the next token is a number from `least` to `most`.
fn next_within(tokens: &[Lexeme], least: u64, most: u64) -> bool
    ensures { result ≡ is_within least most tokens.now }
{
    let Some((first, _)) = tokens.split_first() else {
        return false;
    };
    first.kind == Kind::Number && least <= first.value && first.value <= most
}

/// Whether the next token is a number.
pub fn next_numeral(tokens: &[Lexeme]) -> bool
    ensures { result ≡ next_in class_of rules.numbers tokens.now }
{
    next_within(tokens, 0, LARGEST)
}

// The next token, where it is wanted.
fn taken(tokens: &[Lexeme], wanted: bool) -> Read<'_, Lexeme>
    ensures first { IfOk result (λ x. tokens.now ≡ x.0 ∷ x.1.now) }
    ensures wanted { IfOk result (λ x. wanted ≡ true) }
    ensures reads { (kinds : List ℕ) → wanted ≡ next_in class_of kinds tokens.now
        → Reads (λ l. l) result (read_token class_of kinds (λ l. l) tokens.now) }
{
    match tokens.split_first() {
        Some((first, rest)) if wanted => Ok((*first, rest)),
        _ => Err(Halt::At(tokens)),
    }
}

/// One word or symbol.
pub fn word<'a>(reader: &Reader<'_>, tokens: &'a [Lexeme], kind: Kind) -> Read<'a, Lexeme>
    requires { kind ≢ kinds.Number }
    ensures { Reads (λ l. l) result (read_by reader.now (rules.word kind) tokens.now) }
{
    taken(tokens, next_is(tokens, kind))
}

/// One number.
pub fn number<'a>(reader: &Reader<'_>, tokens: &'a [Lexeme]) -> Read<'a, Lexeme>
    ensures reads { Reads (λ l. l) result (read_by reader.now rules.number tokens.now) }
    ensures small { IfOk result (λ x. x.0.value ≤ largest) }
{
    taken(tokens, next_within(tokens, 0, LARGEST))
}

/// A number that isn't 0.
pub fn positive<'a>(reader: &Reader<'_>, tokens: &'a [Lexeme]) -> Read<'a, Lexeme>
    ensures reads { Reads (λ l. l) result (read_by reader.now rules.positive tokens.now) }
    ensures small { IfOk result (λ x. x.0.value ≤ largest) }
{
    taken(tokens, next_within(tokens, 1, LARGEST))
}

/// 0 or 1.
pub fn digit<'a>(reader: &Reader<'_>, tokens: &'a [Lexeme]) -> Read<'a, Lexeme>
    ensures reads { Reads (λ l. l) result (read_by reader.now rules.digit tokens.now) }
    ensures small { IfOk result (λ x. x.0.value ≤ 1) }
{
    taken(tokens, next_within(tokens, 0, 1))
}

// The bytes of a token.
fn spelled<'a>(reader: &Reader<'a>, lexeme: Lexeme) -> &'a [u8]
    ensures { result.now ≡ rules.spelling reader.now.bytes.now lexeme }
{
    let from = (lexeme.from as usize).min(reader.bytes.len());
    let (_, rest) = reader.bytes.split_at(from);
    let length = (lexeme.to.saturating_sub(lexeme.from) as usize).min(rest.len());
    let (front, _) = rest.split_at(length);
    front
}

/// A name.
#[tactic(auto, unfolding(carol_grammar::specs::Rules::name))]
pub fn name<'a>(reader: &Reader<'_>, tokens: &'a [Lexeme]) -> Read<'a, Ident>
    ensures { Reads (λ i. i) result
        (read_by reader.now (rules.name reader.now.bytes.now) tokens.now) }
{
    let (lexeme, rest) = word(reader, tokens, Kind::Name)?;
    let word = Word::new(reader.alloc, spelled(reader, lexeme))?;
    Ok((
        Ident {
            word,
            span: lexeme.span,
        },
        rest,
    ))
}

/// A number and its place.
#[tactic(auto, unfolding(carol_grammar::specs::Rules::num))]
pub fn num<'a>(reader: &Reader<'_>, tokens: &'a [Lexeme]) -> Read<'a, Num>
    ensures { Reads (λ n. n) result (read_by reader.now rules.num tokens.now) }
{
    let (lexeme, rest) = number(reader, tokens)?;
    Ok((
        Num {
            value: lexeme.value,
            span: lexeme.span,
        },
        rest,
    ))
}

/// A whole number: a number, or a minus and a number that isn't 0.
#[tactic(auto, unfolding(carol_grammar::specs::Rules::int))]
pub fn int<'a>(reader: &Reader<'_>, tokens: &'a [Lexeme]) -> Read<'a, i64>
    ensures { Reads (λ n. n) result (read_by reader.now rules.int tokens.now) }
{
    if next_numeral(tokens) {
        let (lexeme, rest) = number(reader, tokens)?;
        return Ok((lexeme.value as i64, rest));
    }
    let (_, rest) = word(reader, tokens, Kind::Minus)?;
    let (lexeme, rest) = positive(reader, rest)?;
    Ok((-(lexeme.value as i64), rest))
}

/// The initial value of a flag.
#[tactic(auto, unfolding(carol_grammar::specs::Rules::bit))]
pub fn bit<'a>(reader: &Reader<'_>, tokens: &'a [Lexeme]) -> Read<'a, i64>
    ensures { Reads (λ n. n) result (read_by reader.now rules.bit tokens.now) }
{
    let (lexeme, rest) = digit(reader, tokens)?;
    Ok((lexeme.value as i64, rest))
}

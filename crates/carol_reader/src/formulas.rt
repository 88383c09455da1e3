ghost use Rattle.std.specs.Prelude.{◌≡◌, ◌≢◌, IfOk};
ghost use Rattle.carol_syntax.specs.Formulas.{formula_tree, And, Or};
ghost use Rattle.carol_grammar.specs.Rule.Rule.{deeper};
ghost use Rattle.carol_syntax.specs.declared.kind.Kind.TheVariants as kinds;
ghost use Rattle.carol_grammar.specs.Rules as rules;
ghost use Rattle.carol_reader.specs.Reads.{Reads, read_by, read_deep};

use crate::terms::term;
use crate::{Read, Reader, next_among, next_is, word};
use carol_syntax::{FormulaDecl, Kind, Lexeme, Sign};
use sqlite_items::Boxed;
use std::alloc::{AllocError, Global};

// The sign of a comparison.
#[tactic(auto, unfolding(carol_grammar::specs::Rules::sign))]
fn sign<'a>(reader: &Reader<'_>, tokens: &'a [Lexeme]) -> Read<'a, Sign>
    ensures { Reads (λ v. v) result (read_by reader.now rules.sign tokens.now) }
{
    if next_is(tokens, Kind::AtMost) {
        return signed(reader, tokens, Kind::AtMost, Sign::AtMost);
    }
    if next_is(tokens, Kind::Below) {
        return signed(reader, tokens, Kind::Below, Sign::Below);
    }
    if next_is(tokens, Kind::AtLeast) {
        return signed(reader, tokens, Kind::AtLeast, Sign::AtLeast);
    }
    if next_is(tokens, Kind::Above) {
        return signed(reader, tokens, Kind::Above, Sign::Above);
    }
    if next_is(tokens, Kind::Equals) {
        return signed(reader, tokens, Kind::Equals, Sign::Same);
    }
    signed(reader, tokens, Kind::Differs, Sign::Differs)
}

fn signed<'a>(reader: &Reader<'_>, tokens: &'a [Lexeme], kind: Kind, sign: Sign) -> Read<'a, Sign>
    requires { kind ≢ kinds.Number }
    ensures { Reads (λ v. v) result (read_by reader.now (rules.sign_word kind sign) tokens.now) }
{
    let (_, rest) = word(reader, tokens, kind)?;
    Ok((sign, rest))
}

#[tactic(auto, unfolding(carol_grammar::specs::Rules::comparison))]
fn comparison<'a>(reader: &Reader<'_>, tokens: &'a [Lexeme]) -> Read<'a, FormulaDecl>
    ensures { Reads formula_tree result
        (read_by reader.now (rules.comparison reader.now.bytes.now) tokens.now) }
{
    let (left, rest) = term(reader, tokens)?;
    let (sign, rest) = sign(reader, rest)?;
    let (right, rest) = term(reader, rest)?;
    Ok((FormulaDecl::Compare { left, sign, right }, rest))
}

// A literal that no other one stands in.
#[tactic(auto, unfolding(carol_grammar::specs::Rules::atom_literal))]
fn atom_literal<'a>(reader: &Reader<'_>, tokens: &'a [Lexeme]) -> Read<'a, FormulaDecl>
    ensures { Reads formula_tree result
        (read_by reader.now (rules.atom_literal reader.now.bytes.now) tokens.now) }
{
    if next_is(tokens, Kind::True) {
        let (_, rest) = word(reader, tokens, Kind::True)?;
        return Ok((FormulaDecl::True, rest));
    }
    if next_is(tokens, Kind::False) {
        let (_, rest) = word(reader, tokens, Kind::False)?;
        return Ok((FormulaDecl::False, rest));
    }
    comparison(reader, tokens)
}

// A literal, at the reader's level or below it.
#[cycle(formulas)]
fn literal<'a>(reader: &Reader<'_>, tokens: &'a [Lexeme]) -> Read<'a, FormulaDecl>
    ensures { Reads formula_tree result (read_deep reader.now rules.literal tokens.now) }
{
    if reader.depth > 0 && next_among(tokens, &[Kind::Not, Kind::Opening]) {
        return nested_literal(&reader.below(), tokens);
    }
    atom_literal(reader, tokens)
}

// A literal that others stand in.
#[cycle(formulas)]
#[tactic(auto, unfolding(carol_grammar::specs::Rules::nested_literal))]
fn nested_literal<'a>(reader: &Reader<'_>, tokens: &'a [Lexeme]) -> Read<'a, FormulaDecl>
    ensures { Reads formula_tree result (read_by reader.now rules.nested_literal tokens.now) }
{
    if next_is(tokens, Kind::Not) {
        return denial(reader, tokens);
    }
    let (_, rest) = word(reader, tokens, Kind::Opening)?;
    let (formula, rest) = formula(reader, rest)?;
    let (_, rest) = word(reader, rest, Kind::Closing)?;
    Ok((formula, rest))
}

#[cycle(formulas)]
#[tactic(auto, unfolding(carol_grammar::specs::Rules::denial))]
fn denial<'a>(reader: &Reader<'_>, tokens: &'a [Lexeme]) -> Read<'a, FormulaDecl>
    ensures { Reads formula_tree result (read_by reader.now rules.denial tokens.now) }
{
    let (_, rest) = word(reader, tokens, Kind::Not)?;
    let (denied, rest) = literal(reader, rest)?;
    let denied = Boxed::new(reader.alloc, denied)?;
    Ok((FormulaDecl::Not(denied), rest))
}

// A literal behind an `and`.
#[cycle(formulas)]
fn next_literal<'a>(reader: &Reader<'_>, tokens: &'a [Lexeme]) -> Read<'a, FormulaDecl>
    ensures { Reads formula_tree result
        (read_by reader.now (rules.behind_word kinds.And (deeper rules.literal)) tokens.now) }
{
    let (_, rest) = word(reader, tokens, Kind::And)?;
    literal(reader, rest)
}

// Literals with `and` between them, grouped to the left.
#[cycle(formulas)]
#[tactic(auto, unfolding(carol_grammar::specs::Rules::conjunction))]
fn conjunction<'a>(reader: &Reader<'_>, tokens: &'a [Lexeme]) -> Read<'a, FormulaDecl>
    ensures { Reads formula_tree result (read_by reader.now rules.conjunction tokens.now) }
{
    let (first, more) = literal(reader, tokens)?;
    let mut whole = first;
    let mut rest = more;
    for _ in 0..reader.count {
        if !next_is(rest, Kind::And) {
            return Ok((whole, rest));
        }
        let (right, more) = next_literal(reader, rest)?;
        whole = both(reader.alloc, whole, right)?;
        rest = more;
    }
    Ok((whole, rest))
}

fn both(alloc: Global, left: FormulaDecl, right: FormulaDecl) -> Result<FormulaDecl, AllocError>
    ensures { IfOk result (λ f. formula_tree f ≡ And (formula_tree left) (formula_tree right)) }
{
    let left = Boxed::new(alloc, left)?;
    let right = Boxed::new(alloc, right)?;
    Ok(FormulaDecl::And(left, right))
}

fn one_of(alloc: Global, left: FormulaDecl, right: FormulaDecl) -> Result<FormulaDecl, AllocError>
    ensures { IfOk result (λ f. formula_tree f ≡ Or (formula_tree left) (formula_tree right)) }
{
    let left = Boxed::new(alloc, left)?;
    let right = Boxed::new(alloc, right)?;
    Ok(FormulaDecl::Or(left, right))
}

// Literals with `and` between them, behind an `or`.
#[cycle(formulas)]
fn next_conjunction<'a>(reader: &Reader<'_>, tokens: &'a [Lexeme]) -> Read<'a, FormulaDecl>
    ensures { Reads formula_tree result
        (read_by reader.now (rules.behind_word kinds.Or rules.conjunction) tokens.now) }
{
    let (_, rest) = word(reader, tokens, Kind::Or)?;
    conjunction(reader, rest)
}

/// A formula, grouped to the left.
#[cycle(formulas)]
#[tactic(auto, unfolding(carol_grammar::specs::Rules::formula))]
pub fn formula<'a>(reader: &Reader<'_>, tokens: &'a [Lexeme]) -> Read<'a, FormulaDecl>
    ensures { Reads formula_tree result (read_by reader.now rules.formula tokens.now) }
{
    let (first, more) = conjunction(reader, tokens)?;
    let mut whole = first;
    let mut rest = more;
    for _ in 0..reader.count {
        if !next_is(rest, Kind::Or) {
            return Ok((whole, rest));
        }
        let (right, more) = next_conjunction(reader, rest)?;
        whole = one_of(reader.alloc, whole, right)?;
        rest = more;
    }
    Ok((whole, rest))
}

ghost use Rattle.std.specs.Prelude.{◌≡◌, ◌∷◌, [], ℕ, List};
ghost use Rattle.carol_grammar.specs.Reading.{Reading, next_in, read_many, behind};
ghost use Rattle.carol_syntax.specs.declared.lexeme.Lexeme.{Lexeme};
ghost use Rattle.carol_grammar.specs.Terminals.{class_of, number_of};
ghost use Rattle.carol_syntax.specs.declared.kind.Kind.TheVariants as kinds;
ghost use Rattle.carol_reader.specs.declared.reader.Reader.{Reader as Bounds};
ghost use Rattle.carol_reader.specs.Reads.{Reads, after_comma, list_of, read_by};
ghost use Rattle.carol_grammar.specs.Rules as rules;

use crate::reader::{Halt, Read, Reader};
use crate::terminals::{int, name, next_is, next_numeral, word};
use carol_syntax::{Ident, IdentList, IntList, Kind, Lexeme};
use sqlite_items::Items;
use std::marker::PhantomData;

/// What stands in a list: how one is read, and which tokens it begins with.
pub trait Member {
    type Tree: Drop;

    ghost starts: { List ℕ };

    ghost reading: { Bounds → List Lexeme → Reading Lexeme Self.Tree };

    /// Whether the next token begins one.
    fn begins(tokens: &[Lexeme]) -> bool
        ensures { result ≡ next_in class_of starts tokens.now };

    /// Reads one.
    fn read<'a>(reader: &Reader<'_>, tokens: &'a [Lexeme]) -> Read<'a, Self::Tree>
        ensures { Reads (λ v. v) result (reading reader.now tokens.now) };
}

/// One after another, while the next token begins one, behind those that are given.
pub fn many<'a, M: Member>(
    reader: &Reader<'_>,
    front: Items<M::Tree>,
    tokens: &'a [Lexeme],
) -> Read<'a, Items<M::Tree>>
    ensures { Reads (λ v. v) result (behind front (read_many reader.now.count
        (next_in class_of M.starts) (M.reading reader.now) tokens.now)) }
{
    let mut all = front;
    let mut rest = tokens;
    for _ in 0..reader.count {
        if !M::begins(rest) {
            return Ok((all, rest));
        }
        let (one, more) = M::read(reader, rest)?;
        all.push(one)?;
        rest = more;
    }
    Ok((all, rest))
}

/// A member behind a comma.
pub struct AfterComma<M> {
    member: PhantomData<M>,
}

impl<M: Member> Member for AfterComma<M> {
    type Tree = M::Tree;

    ghost starts = { number_of kinds.Comma ∷ [] };

    ghost reading = { λ r ts. after_comma (M.reading r) ts };

    fn begins(tokens: &[Lexeme]) -> bool {
        next_is(tokens, Kind::Comma)
    }

    fn read<'a>(reader: &Reader<'_>, tokens: &'a [Lexeme]) -> Read<'a, M::Tree> {
        let (_, rest) = word(reader, tokens, Kind::Comma)?;
        M::read(reader, rest)
    }
}

/// One, and more behind commas.
pub fn listed<'a, M: Member>(reader: &Reader<'_>, tokens: &'a [Lexeme]) -> Read<'a, Items<M::Tree>>
    ensures { Reads (λ v. v) result (list_of (M.reading reader.now) reader.now.count tokens.now) }
{
    let (first, rest) = M::read(reader, tokens)?;
    let mut front = Items::new(reader.alloc);
    front.push(first)?;
    many::<AfterComma<M>>(reader, front, rest)
}

/// Names, as members of a list.
pub struct OneName;

impl Member for OneName {
    type Tree = Ident;

    ghost starts = { number_of kinds.Name ∷ [] };

    ghost reading = { λ r ts. read_by r (rules.name r.bytes.now) ts };

    fn begins(tokens: &[Lexeme]) -> bool {
        next_is(tokens, Kind::Name)
    }

    fn read<'a>(reader: &Reader<'_>, tokens: &'a [Lexeme]) -> Read<'a, Ident> {
        name(reader, tokens)
    }
}

/// Names with commas between them, at least one.
pub fn names<'a>(reader: &Reader<'_>, tokens: &'a [Lexeme]) -> Read<'a, IdentList>
    ensures { Reads (λ v. v) result
        (read_by reader.now (rules.listed (rules.name reader.now.bytes.now)) tokens.now) }
{
    listed::<OneName>(reader, tokens)
}

/// Whole numbers, as members of a list.
pub struct OneInt;

impl Member for OneInt {
    type Tree = i64;

    ghost starts = { rules.int_tokens };

    ghost reading = { λ r ts. read_by r rules.int ts };

    fn begins(tokens: &[Lexeme]) -> bool {
        next_is(tokens, Kind::Minus) || next_numeral(tokens)
    }

    fn read<'a>(reader: &Reader<'_>, tokens: &'a [Lexeme]) -> Read<'a, i64> {
        int(reader, tokens)
    }
}

/// Whole numbers with commas between them, at least one.
pub fn ints<'a>(reader: &Reader<'_>, tokens: &'a [Lexeme]) -> Read<'a, IntList>
    ensures { Reads (λ v. v) result (read_by reader.now (rules.listed rules.int) tokens.now) }
{
    listed::<OneInt>(reader, tokens)
}

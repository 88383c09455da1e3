ghost use Rattle.std.specs.Prelude.{◌≡◌};
ghost use Rattle.carol_syntax.specs.Files.{program_tree};
ghost use Rattle.carol_grammar.specs.Rules as rules;
ghost use Rattle.carol_reader.specs.Reads.{Reads, read_by};

use crate::groups::cells;
use crate::guards::guards;
use crate::operations::ops;
use carol_reader::{Read, Reader, formula, word};
use carol_syntax::{Kind, Lexeme, ProgramDecl};

/// The program part of a file, from the word `program` to its `end`.
#[tactic(auto, unfolding(carol_grammar::specs::Rules::program))]
pub fn program<'a>(reader: &Reader<'_>, tokens: &'a [Lexeme]) -> Read<'a, ProgramDecl>
    ensures { Reads program_tree result
        (read_by reader.now (rules.program reader.now.bytes.now) tokens.now) }
{
    let (_, rest) = word(reader, tokens, Kind::Program)?;
    let (cells, rest) = cells(reader, rest)?;
    let (_, rest) = word(reader, rest, Kind::Invariant)?;
    let (invariant, rest) = formula(reader, rest)?;
    let (_, rest) = word(reader, rest, Kind::Semicolon)?;
    let (guards, rest) = guards(reader, rest)?;
    let (ops, rest) = ops(reader, rest)?;
    let (_, rest) = word(reader, rest, Kind::End)?;
    Ok((
        ProgramDecl {
            cells,
            invariant,
            guards,
            ops,
        },
        rest,
    ))
}

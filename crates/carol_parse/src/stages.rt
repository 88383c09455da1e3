ghost use Rattle.std.specs.Prelude.{◌≡◌, ◌≢◌};
ghost use Rattle.carol_syntax.specs.declared.kind.Kind.TheVariants as kinds;
ghost use Rattle.carol_reader.specs.Reads.{Reads, read_by};
ghost use Rattle.carol_grammar.specs.Rules as rules;
ghost use Rattle.carol_parse.specs.Stages.{sequel_of, some_sequel_of, stage_of, some_stage_of};

use crate::scripts::script;
use crate::sessions::sessions;
use carol_reader::{Read, Reader, next_among, next_is, num, word};
use carol_syntax::{Kind, Lexeme, Num, SceneDecl, ScriptLineList};

/// What stands behind a scene: a script, or the word before a transcript.
#[derive(Debug, Drop)]
pub enum Sequel {
    Script(ScriptLineList),
    Transcript,
}

/// A scene, and what stands behind it.
#[derive(Debug, Drop)]
pub struct Stage {
    pub scene: SceneDecl,
    pub sequel: Option<Sequel>,
}

// A number of the scene, behind its word.
fn setting<'a>(reader: &Reader<'_>, tokens: &'a [Lexeme], kind: Kind) -> Read<'a, Num>
    requires { kind ≢ kinds.Number }
    ensures { Reads (λ n. n) result (read_by reader.now (rules.setting kind) tokens.now) }
{
    let (_, rest) = word(reader, tokens, kind)?;
    let (set, rest) = num(reader, rest)?;
    let (_, rest) = word(reader, rest, Kind::Semicolon)?;
    Ok((set, rest))
}

// A scene by itself.
#[tactic(auto, unfolding(carol_grammar::specs::Rules::scene))]
fn scene<'a>(reader: &Reader<'_>, tokens: &'a [Lexeme]) -> Read<'a, SceneDecl>
    ensures { Reads (λ s. s) result
        (read_by reader.now (rules.scene reader.now.bytes.now) tokens.now) }
{
    let (_, rest) = word(reader, tokens, Kind::Scene)?;
    let (replicas, rest) = setting(reader, rest, Kind::Replicas)?;
    let (tries, rest) = setting(reader, rest, Kind::Tries)?;
    let (workers, rest) = setting(reader, rest, Kind::Workers)?;
    let (gossipers, rest) = setting(reader, rest, Kind::Gossipers)?;
    let (sessions, rest) = sessions(reader, rest)?;
    let (_, rest) = word(reader, rest, Kind::End)?;
    Ok((
        SceneDecl {
            replicas,
            tries,
            workers,
            gossipers,
            sessions,
        },
        rest,
    ))
}

#[tactic(auto, unfolding(carol_grammar::specs::Rules::sequel))]
fn one_sequel<'a>(reader: &Reader<'_>, tokens: &'a [Lexeme]) -> Read<'a, Sequel>
    ensures { Reads sequel_of result (read_by reader.now rules.sequel tokens.now) }
{
    if next_is(tokens, Kind::Script) {
        let (lines, rest) = script(reader, tokens)?;
        return Ok((Sequel::Script(lines), rest));
    }
    let (_, rest) = word(reader, tokens, Kind::Transcript)?;
    Ok((Sequel::Transcript, rest))
}

#[tactic(auto, unfolding(carol_grammar::specs::Rules::some_sequel))]
fn some_sequel<'a>(reader: &Reader<'_>, tokens: &'a [Lexeme]) -> Read<'a, Option<Sequel>>
    ensures { Reads some_sequel_of result (read_by reader.now rules.some_sequel tokens.now) }
{
    if !next_among(tokens, &[Kind::Script, Kind::Transcript]) {
        return Ok((None, tokens));
    }
    let (sequel, rest) = one_sequel(reader, tokens)?;
    Ok((Some(sequel), rest))
}

#[tactic(auto, unfolding(carol_grammar::specs::Rules::staged))]
fn staged<'a>(reader: &Reader<'_>, tokens: &'a [Lexeme]) -> Read<'a, Stage>
    ensures { Reads stage_of result
        (read_by reader.now (rules.staged reader.now.bytes.now) tokens.now) }
{
    let (scene, rest) = scene(reader, tokens)?;
    let (sequel, rest) = some_sequel(reader, rest)?;
    Ok((Stage { scene, sequel }, rest))
}

/// A scene and what stands behind it, where there is one.
#[tactic(auto, unfolding(carol_grammar::specs::Rules::some_stage))]
pub fn some_stage<'a>(reader: &Reader<'_>, tokens: &'a [Lexeme]) -> Read<'a, Option<Stage>>
    ensures { Reads some_stage_of result
        (read_by reader.now (rules.some_stage reader.now.bytes.now) tokens.now) }
{
    if !next_is(tokens, Kind::Scene) {
        return Ok((None, tokens));
    }
    let (stage, rest) = staged(reader, tokens)?;
    Ok((Some(stage), rest))
}

ghost use Rattle.std.specs.Prelude.{◌≡◌, Some, IfOk};
ghost use Rattle.carol_reply.specs.Reply.{answer_of};
ghost use Rattle.carol_reply.specs.Texts.{
  cause_name,
  kind_name,
  limit_name,
  line_answer,
  line_text,
  range_name,
  scene_text,
};

use super::reply::Reply;
use super::status::Status;
use carol_grammar::TextLimit;
use carol_history::{BadStatement, ScriptCause};
use carol_meaning::NameKind;
use carol_scenario::{SceneError, SceneLimit};
use std::alloc::{AllocError, Global};
use std::fmt;

/// What is told in one line.
#[derive(Clone, Copy, Debug, PartialEq, Eq)]
pub enum Line {
    /// The text is bad at this place.
    BadText {
        line: u32,
        column: u32,
    },
    /// The text passes this limit.
    TooLarge(TextLimit),
    /// A name or a term of the program is wrong, at this place.
    BadName {
        line: u32,
        column: u32,
        kind: NameKind,
    },
    /// The transcript has more events than a history may have.
    TooManyEvents,
    /// The scene is wrong.
    BadScene(SceneError),
    /// A statement of the script gives no event.
    BadStatement(BadStatement),
}

/// The text of what is wrong with a scene.
#[derive(Clone, Copy, Debug, PartialEq, Eq)]
pub struct SceneText(pub SceneError);

impl fmt::Display for SceneText {
    ghost output = { λ said. Some (scene_text said.0) };

    fn fmt<W: fmt::Write>(&self, f: &mut fmt::Formatter<W>) -> fmt::Result {
        match self.0 {
            SceneError::OutOfRange(limit, span) => {
                let (line, column) = (span.line, span.column);
                let name = range_name(limit);
                write!(f, "range {line} {column} {name}")
            }
            SceneError::Unknown(span) => {
                let (line, column) = (span.line, span.column);
                write!(f, "scene {line} {column} unknown")
            }
            SceneError::Arity(span) => {
                let (line, column) = (span.line, span.column);
                write!(f, "scene {line} {column} arity")
            }
            SceneError::NoSuchReplica { session } => write!(f, "replica {session}"),
            SceneError::BadArgument {
                session,
                command,
                parameter,
            } => write!(f, "argument {session} {command} {parameter}"),
            SceneError::NoMemory => write!(f, "no memory"),
        }
    }
}

impl Line {
    /// The status that says it.
    pub fn status(self) -> Status
        ensures { result ≡ (line_answer self).0 }
    {
        match self {
            Line::BadStatement(_) => Status::Script,
            _ => Status::Text,
        }
    }
}

impl fmt::Display for Line {
    ghost output = { λ line. Some (line_text line) };

    fn fmt<W: fmt::Write>(&self, f: &mut fmt::Formatter<W>) -> fmt::Result {
        match *self {
            Line::BadText { line, column } => writeln!(f, "text {line} {column}"),
            Line::TooLarge(limit) => {
                let name = limit_name(limit);
                writeln!(f, "too large {name}")
            }
            Line::BadName { line, column, kind } => {
                let kind = kind_name(kind);
                writeln!(f, "name {line} {column} {kind}")
            }
            Line::TooManyEvents => writeln!(f, "too large events"),
            Line::BadScene(bad) => {
                let said = SceneText(bad);
                writeln!(f, "{said}")
            }
            Line::BadStatement(bad) => {
                let number = bad.number;
                let cause = cause_name(bad.cause);
                writeln!(f, "script {number} {cause}")
            }
        }
    }
}

/// The reply that says this line.
pub fn one_line(alloc: Global, line: Line) -> Result<Reply, AllocError>
    ensures { IfOk result (λ reply. answer_of reply ≡ line_answer line) }
{
    let text = format!(in alloc; "{line}")?;
    Ok(Reply {
        status: line.status(),
        text: text.into_bytes(),
    })
}

fn limit_name(limit: TextLimit) -> &'static str
    ensures { result.now ≡ limit_name limit }
{
    match limit {
        TextLimit::ProgramBytes => "program bytes",
        TextLimit::FormulaNodes => "formula nodes",
        TextLimit::BodyDepth => "body depth",
        TextLimit::ScriptLines => "script lines",
    }
}

fn kind_name(kind: NameKind) -> &'static str
    ensures { result.now ≡ kind_name kind }
{
    match kind {
        NameKind::Twice => "twice",
        NameKind::Unknown => "unknown",
        NameKind::WrongKind => "wrong kind",
        NameKind::TooMany => "too many",
        NameKind::TooWide => "too wide",
    }
}

fn range_name(limit: SceneLimit) -> &'static str
    ensures { result.now ≡ range_name limit }
{
    match limit {
        SceneLimit::Replicas => "replicas",
        SceneLimit::Tries => "tries",
        SceneLimit::Workers => "workers",
        SceneLimit::Gossipers => "gossipers",
        SceneLimit::Sessions => "sessions",
        SceneLimit::Times => "times",
        SceneLimit::Commands => "commands",
    }
}

fn cause_name(cause: ScriptCause) -> &'static str
    ensures { result.now ≡ cause_name cause }
{
    match cause {
        ScriptCause::NoSuchSession => "no such session",
        ScriptCause::Finished => "finished",
        ScriptCause::NoSuchPair => "no such pair",
        ScriptCause::CutOff => "cut",
        ScriptCause::NothingNew => "nothing new",
    }
}

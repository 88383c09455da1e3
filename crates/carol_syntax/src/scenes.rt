use crate::places::{Ident, Num, Span};
use sqlite_items::Items;

/// Arguments, each at most 10^12 in absolute value.
pub type IntList = Items<i64>;

/// A command of a session: the operation's name, its arguments, and how often it stands. Where the
/// text has no `times`, that is 1 at the place of the name.
#[derive(Debug, Drop)]
pub struct CommandDecl {
    pub name: Ident,
    pub args: IntList,
    pub times: Num,
}

/// Commands in the order of the text.
pub type CommandDeclList = Items<CommandDecl>;

/// A session at a replica, with the place of its word `session`.
#[derive(Debug, Drop)]
pub struct SessionDecl {
    pub span: Span,
    pub replica: Num,
    pub commands: CommandDeclList,
}

/// Sessions in the order of the text.
pub type SessionDeclList = Items<SessionDecl>;

/// The scene part of a file.
#[derive(Debug, Drop)]
pub struct SceneDecl {
    pub replicas: Num,
    pub tries: Num,
    pub workers: Num,
    pub gossipers: Num,
    pub sessions: SessionDeclList,
}

/// A statement of a script, with its numbers as they are written.
#[derive(Clone, Copy, Debug, PartialEq, Eq)]
pub enum ScriptLine {
    Go(u64),
    Gossip(u64, u64),
    Cut(u64, u64),
    Join(u64, u64),
}

/// Statements of a script in the order of the text.
pub type ScriptLineList = Items<ScriptLine>;

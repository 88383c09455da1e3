ghost use Rattle.std.specs.Prelude.{◌≡◌};
ghost use Rattle.carol_scenario.specs.declared.error.SceneError.TheVariants.{NoMemory};

use carol_syntax::Span;
use std::alloc::AllocError;

/// A limit of a scene.
#[derive(Clone, Copy, Debug, PartialEq, Eq)]
pub enum SceneLimit {
    /// From 1 to 8 replicas.
    Replicas,
    /// From 1 to 16 tries of a command.
    Tries,
    /// From 1 to 16 workers.
    Workers,
    /// At most 8 gossip workers.
    Gossipers,
    /// At most 64 sessions.
    Sessions,
    /// A command stands from 1 to 4,096 times.
    Times,
    /// At most 4,096 commands in all.
    Commands,
}

/// Why a declaration is no scene of a program. Sessions, commands of a session and parameters are
/// numbered from 0.
#[derive(Clone, Copy, Debug, PartialEq, Eq)]
pub enum SceneError {
    /// A limit is passed: at the number, at the word `session` of the session beyond the most that
    /// there may be, or at the name of the command with which the commands are too many.
    OutOfRange(SceneLimit, Span),
    /// No operation has the name of a command, which stands here.
    Unknown(Span),
    /// The command whose name stands here has more or fewer arguments than its operation has
    /// parameters.
    Arity(Span),
    /// The session is at a replica that there is not.
    NoSuchReplica {
        session: u32,
    },
    /// An argument is above 10^12 in absolute value, or makes the refinement of its parameter
    /// false. The command is the first that its declaration stands for.
    BadArgument {
        session: u32,
        command: u32,
        parameter: u32,
    },
    /// Memory ran out.
    NoMemory,
}

impl From<AllocError> for SceneError {
    ghost from_gives = { λ _ e. e ≡ NoMemory };

    fn from(_e: AllocError) -> SceneError {
        SceneError::NoMemory
    }
}

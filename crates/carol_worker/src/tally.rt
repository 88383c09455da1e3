ghost use Rattle.std.specs.Prelude.{◌≡◌, ◌≤◌};
ghost use Rattle.carol_worker.specs.Answers.{noted, nothing_answered};

use carol_house::{HouseError, Moved};

/// How a step was answered.
#[derive(Clone, Copy, Debug, PartialEq, Eq)]
pub enum Answer {
    /// An event of this kind was entered.
    Entered(u8),
    /// All commands of the session were done.
    Finished,
    /// The history was full.
    Full,
}

/// A step that was answered: whose it was, and how.
#[derive(Clone, Copy, Debug, PartialEq, Eq)]
pub struct Last {
    /// The session.
    pub session: u32,
    /// The answer.
    pub answer: Answer,
}

/// What a desk keeps of the answers to its steps. The counts stay at the last value of a `u64`.
#[derive(Clone, Copy, Debug, PartialEq, Eq)]
pub(crate) struct Answered {
    /// How many steps found all commands of their session done.
    pub(crate) finished: u64,
    /// How many steps found the history full.
    pub(crate) full: u64,
    /// The last step that was answered.
    pub(crate) last: Option<Last>,
}

impl Answered {
    /// No step was answered yet.
    pub(crate) fn new() -> Answered
        ensures { result ≡ nothing_answered }
    {
        Answered {
            finished: 0,
            full: 0,
            last: None,
        }
    }

    /// The step of the session was answered. Want of memory is no answer.
    pub(crate) fn note(&mut self, session: u32, given: Result<Moved, HouseError>)
        ensures noted { self.new ≡ noted session given self.old }
        ensures finished { self.old.finished ≤ self.new.finished }
        ensures full { self.old.full ≤ self.new.full }
    {
        let answer = match given {
            Ok(Moved::Entered(kind)) => Answer::Entered(kind),
            Ok(Moved::Finished) => {
                self.finished = self.finished.saturating_add(1);
                Answer::Finished
            }
            Err(HouseError::Full) => {
                self.full = self.full.saturating_add(1);
                Answer::Full
            }
            Err(HouseError::NoMemory) => return,
        };
        self.last = Some(Last { session, answer });
    }
}

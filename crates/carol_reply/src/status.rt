ghost use Rattle.std.specs.Prelude.{◌≡◌};
ghost use Rattle.carol_reply.specs.Status.{number_of};

/// How a call ended. The program's exit status is the variant's number, from 0.
#[derive(Clone, Copy, Debug, PartialEq, Eq)]
pub enum Status {
    /// The job was done and its whole text was written.
    Ok,
    /// The program of the file was refused: what comes first among what isn't proved of it is
    /// broken.
    Refused,
    /// The input isn't in the form that the command takes.
    Text,
    /// The words are no command.
    Usage,
    /// Reading the input failed.
    ReadFault,
    /// Writing failed, after a part of the text.
    WriteFault,
    /// There was no memory.
    NoMemory,
    /// What comes first among what isn't proved of the program is neither proved nor broken.
    Undecided,
    /// The history is full and a command isn't done.
    Full,
    /// The transcript isn't that of a run.
    FalseTranscript,
    /// A statement of the script can't give an event.
    Script,
    /// The input has more than 67,108,864 bytes.
    TooLong,
}

/// The number of a status, from 0 in the order of the variants.
pub fn number(status: Status) -> u8
    ensures { result ≡ number_of status }
{
    status as u8
}

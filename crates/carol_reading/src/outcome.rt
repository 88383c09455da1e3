use carol_event::Cause;

/// How a command came out.
#[derive(Clone, Copy, Debug, PartialEq, Eq)]
pub enum Outcome {
    /// It is not done.
    NotDone,
    /// It returned this value.
    Value(i128),
    /// It was refused as often as it is tried, the last time for this cause.
    Refused(Cause),
}

use super::status::Status;

/// A status and its text.
#[derive(Drop)]
pub struct Reply {
    /// How the call ends, if its text is written.
    pub status: Status,
    /// The text, whose last line is ended too.
    pub text: Vec<u8>,
}

/// Where a text is not what was to be read.
#[derive(Clone, Copy, Debug, PartialEq, Eq)]
pub struct BadByte {
    /// How many bytes are left from the first bad one on: 0 where the text ends too early.
    pub left: usize,
}

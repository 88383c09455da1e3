/// The greatest number of a text.
pub const LARGEST: u64 = 1_000_000_000_000;

/// The most bytes of a name.
pub const LONGEST_NAME: usize = 64;

/// The most bytes of a whole text.
pub const MOST_TEXT_BYTES: usize = 67_108_864;

/// The most bytes of the program part.
pub const MOST_PROGRAM_BYTES: u32 = 65_536;

/// The most nodes of a formula, and of a term that stands by itself.
pub const MOST_FORMULA_NODES: u32 = 256;

/// The most bodies that stand in one another.
pub const MOST_BODY_DEPTH: u32 = 64;

/// The most statements of a script.
pub const MOST_SCRIPT_LINES: u32 = 131_072;

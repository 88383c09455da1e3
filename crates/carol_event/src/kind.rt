ghost use Rattle.std.specs.Prelude.{◌≡◌, slice_index};
ghost use Rattle.carol_event.specs.Kinds.{kind_from_third, kind_of, word_of};

/// What an event is.
#[derive(Clone, Copy)]
pub enum Kind {
    Grant,
    Query,
    Issue,
    Release,
    Return,
    Refuse,
    Deliver,
    Cut,
    Join,
}

/// The one kind whose word may begin the line, by its first and its third byte.
#[tactic(auto, unfolding(crate::specs::Kinds::kind_of))]
pub fn kind_of(line: &[u8]) -> Kind
    ensures { result ≡ kind_of line.now }
{
    match byte_at(line, 0) {
        b'g' => Kind::Grant,
        b'q' => Kind::Query,
        b'i' => Kind::Issue,
        b'd' => Kind::Deliver,
        b'c' => Kind::Cut,
        b'j' => Kind::Join,
        _ => kind_from_third(byte_at(line, 2)),
    }
}

// The one kind whose word may begin a line with this third byte, of those that begin alike.
fn kind_from_third(byte: u8) -> Kind
    ensures { result ≡ kind_from_third byte }
{
    match byte {
        b'l' => Kind::Release,
        b'f' => Kind::Refuse,
        _ => Kind::Return,
    }
}

/// The byte at a place, and 0 past the end.
pub fn byte_at(line: &[u8], at: usize) -> u8
    ensures { result ≡ slice_index line.now at }
{
    line.get(at).copied().unwrap_or(0)
}

/// The word of a kind, with the space behind it.
#[tactic(auto, unfolding(crate::specs::Kinds::word_of))]
pub fn word_of(kind: Kind) -> &'static [u8]
    ensures { result.now ≡ word_of kind }
{
    match kind {
        Kind::Grant => b"grant ",
        Kind::Query => b"query ",
        Kind::Issue => b"issue ",
        Kind::Release => b"release ",
        Kind::Return => b"return ",
        Kind::Refuse => b"refuse ",
        Kind::Deliver => b"deliver ",
        Kind::Cut => b"cut ",
        Kind::Join => b"join ",
    }
}

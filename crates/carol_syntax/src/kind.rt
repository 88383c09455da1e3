ghost use Rattle.std.specs.Prelude.{◌≡◌, map};
ghost use Rattle.carol_syntax.specs.Keywords.{kind_in, kind_of_word, entry_of, of_length, keyword_kinds};

/// What a token is: a name, a number, or one of the symbols and keywords.
#[derive(Clone, Copy, Debug, PartialEq, Eq)]
pub enum Kind {
    Name,
    Number,
    /// `;`
    Semicolon,
    /// `:`
    Colon,
    /// `,`
    Comma,
    /// `.`
    Dot,
    /// `(`
    Opening,
    /// `)`
    Closing,
    /// `{`
    OpeningBrace,
    /// `}`
    ClosingBrace,
    /// `=`
    Equals,
    /// `+=`
    PlusEquals,
    /// `-=`
    MinusEquals,
    /// `+`
    Plus,
    /// `-`
    Minus,
    /// `*`
    Star,
    /// `<=`
    AtMost,
    /// `<`
    Below,
    /// `>=`
    AtLeast,
    /// `>`
    Above,
    /// `!=`
    Differs,
    Program,
    Scene,
    Script,
    Transcript,
    End,
    Counter,
    Peak,
    Flag,
    Set,
    Record,
    Invariant,
    Guard,
    Op,
    Gives,
    Result,
    Query,
    Under,
    Issue,
    Raise,
    Release,
    Let,
    If,
    Else,
    Return,
    True,
    False,
    And,
    Or,
    Not,
    Size,
    Here,
    There,
    Replicas,
    Tries,
    Workers,
    Gossipers,
    Session,
    At,
    Times,
    Go,
    Gossip,
    Cut,
    Join,
    Shape,
    Open,
    In,
    Call,
}

// The keywords, a table for each length.
const TWO: [(&str, Kind); 6] = [
    ("op", Kind::Op),
    ("if", Kind::If),
    ("or", Kind::Or),
    ("at", Kind::At),
    ("go", Kind::Go),
    ("in", Kind::In),
];

const THREE: [(&str, Kind); 6] = [
    ("end", Kind::End),
    ("set", Kind::Set),
    ("let", Kind::Let),
    ("and", Kind::And),
    ("not", Kind::Not),
    ("cut", Kind::Cut),
];

const FOUR: [(&str, Kind); 9] = [
    ("peak", Kind::Peak),
    ("flag", Kind::Flag),
    ("else", Kind::Else),
    ("true", Kind::True),
    ("size", Kind::Size),
    ("here", Kind::Here),
    ("join", Kind::Join),
    ("open", Kind::Open),
    ("call", Kind::Call),
];

const FIVE: [(&str, Kind); 12] = [
    ("scene", Kind::Scene),
    ("guard", Kind::Guard),
    ("gives", Kind::Gives),
    ("query", Kind::Query),
    ("under", Kind::Under),
    ("issue", Kind::Issue),
    ("raise", Kind::Raise),
    ("false", Kind::False),
    ("there", Kind::There),
    ("tries", Kind::Tries),
    ("times", Kind::Times),
    ("shape", Kind::Shape),
];

const SIX: [(&str, Kind); 5] = [
    ("script", Kind::Script),
    ("record", Kind::Record),
    ("result", Kind::Result),
    ("return", Kind::Return),
    ("gossip", Kind::Gossip),
];

const SEVEN: [(&str, Kind); 5] = [
    ("program", Kind::Program),
    ("counter", Kind::Counter),
    ("release", Kind::Release),
    ("workers", Kind::Workers),
    ("session", Kind::Session),
];

const EIGHT: [(&str, Kind); 1] = [("replicas", Kind::Replicas)];

const NINE: [(&str, Kind); 2] = [
    ("invariant", Kind::Invariant),
    ("gossipers", Kind::Gossipers),
];

const TEN: [(&str, Kind); 1] = [("transcript", Kind::Transcript)];

/// The keywords of so many letters, with what they are; no rule uses `shape`, `open`, `in` and
/// `call`.
pub fn keywords(letters: usize) -> &'static [(&'static str, Kind)]
    ensures { map entry_of result.now ≡ of_length letters keyword_kinds }
{
    if letters == 2 {
        return &TWO;
    }
    if letters == 3 {
        return &THREE;
    }
    if letters == 4 {
        return &FOUR;
    }
    if letters == 5 {
        return &FIVE;
    }
    if letters == 6 {
        return &SIX;
    }
    if letters == 7 {
        return &SEVEN;
    }
    if letters == 8 {
        return &EIGHT;
    }
    if letters == 9 {
        return &NINE;
    }
    if letters == 10 {
        return &TEN;
    }
    &[]
}

/// The keyword that the word is, or a name.
pub fn word_kind(word: &[u8]) -> Kind
    ensures { result ≡ kind_of_word word.now }
{
    find_kind(keywords(word.len()), word)
}

#[tactic(auto, unfolding(crate::specs::Keywords::kind_in))]
fn find_kind(keywords: &[(&str, Kind)], word: &[u8]) -> Kind
    ensures { result ≡ kind_in (map entry_of keywords.now) word.now }
{
    for keyword in keywords {
        if keyword.0.as_bytes() == word {
            return keyword.1;
        }
    }
    Kind::Name
}

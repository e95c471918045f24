//! Tokens, and the reserved words.

ghost use Rattle.std.specs.Prelude.{◌≡◌};
ghost use Rattle.sqltext.specs.Tokens as spec;

/// What a token is.
#[derive(Clone, Copy, Debug, PartialEq, Eq)]
pub enum TokenKind {
    // The reserved words.
    And,
    Between,
    Bigint,
    Bytea,
    Count,
    Create,
    Delete,
    From,
    Insert,
    Into,
    Is,
    Key,
    Not,
    Null,
    Primary,
    References,
    Select,
    Set,
    Table,
    Text,
    Update,
    Values,
    Where,
    /// Any other word of at most 63 bytes.
    Name,
    /// Decimal digits.
    Number,
    /// A text between single quotes, with its quotes.
    Quoted,
    // The signs.
    Open,
    Close,
    Comma,
    Semicolon,
    Star,
    Equal,
    NotEqual,
    Less,
    LessOrEqual,
    Greater,
    GreaterOrEqual,
    Plus,
    Minus,
    /// What stands in no statement: a longer word, or a byte that begins no token.
    Unknown,
    /// The end of the text.
    End,
}

/// The reserved words, in small letters.
pub const RESERVED_WORDS: [(&[u8], TokenKind); 23] = [
    (b"and", TokenKind::And),
    (b"between", TokenKind::Between),
    (b"bigint", TokenKind::Bigint),
    (b"bytea", TokenKind::Bytea),
    (b"count", TokenKind::Count),
    (b"create", TokenKind::Create),
    (b"delete", TokenKind::Delete),
    (b"from", TokenKind::From),
    (b"insert", TokenKind::Insert),
    (b"into", TokenKind::Into),
    (b"is", TokenKind::Is),
    (b"key", TokenKind::Key),
    (b"not", TokenKind::Not),
    (b"null", TokenKind::Null),
    (b"primary", TokenKind::Primary),
    (b"references", TokenKind::References),
    (b"select", TokenKind::Select),
    (b"set", TokenKind::Set),
    (b"table", TokenKind::Table),
    (b"text", TokenKind::Text),
    (b"update", TokenKind::Update),
    (b"values", TokenKind::Values),
    (b"where", TokenKind::Where),
];

/// A token, and where it stands in the text: from a byte, up to another.
#[derive(Clone, Copy, Debug)]
pub struct Token {
    pub kind: TokenKind,
    pub start: usize,
    pub end: usize,
}

/// Whether two kinds are the same.
pub fn same_kind(a: TokenKind, b: TokenKind) -> bool
    ensures { result ≡ spec.same_kind a b }
{
    a == b
}

impl Token {
    /// Whether it is of a kind.
    pub fn is(&self, kind: TokenKind) -> bool
        ensures { result ≡ spec.same_kind self.now.kind kind }
    {
        same_kind(self.kind, kind)
    }
}

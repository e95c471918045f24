//! Why a line of a script is refused, in words.

ghost use Rattle.std.specs.Prelude.{◌≡◌};

/// Why a line of a script may not stand where it stands.
#[derive(Clone, Copy, Debug, PartialEq, Eq)]
pub(crate) enum Reason {
    NoNewline,
    ByteOrderMark,
    NotText,
    CarriageReturn,
    NoSemicolon,
    NoSession,
    Session,
    Begin,
    Alone,
    Import,
    Dump,
    Wait,
    Checkpoint,
    LateOpen,
    Path,
    LateTable,
    NoTable,
    OneLine,
    Comment,
    NoName,
    Reserved,
    LongName,
    NoKind,
    NoKey,
    NoColumn,
    Behind,
    SameColumn,
    ManyColumns,
    ManyTables,
    SameTable,
    NoReferenced,
    OtherKind,
    Memory,
}

impl Reason {
    /// What is wrong, and what would be right.
    pub(crate) fn text(self) -> &'static str {
        match self {
            Reason::NoNewline => "no newline at the end of the last line",
            Reason::ByteOrderMark => "byte order mark: write UTF-8 without one",
            Reason::NotText => "invalid UTF-8",
            Reason::CarriageReturn =>
                "the line ends in a carriage return (CRLF): lines end in a newline alone",
            Reason::NoSemicolon => "the line must end in `;`",
            Reason::NoSession => {
                "expected a session's number and a space, as in `1 BEGIN;`, or CREATE TABLE, OPEN or `--`"
            }
            Reason::Session => "a session's number is 1 to 64, without leading zeros",
            Reason::Begin => "expected BEGIN, BEGIN READ ONLY or BEGIN READ ONLY DEFERRABLE",
            Reason::Alone => "expected `;` right after this word",
            Reason::Import => "expected IMPORT n, with n at most 18446744073709551615",
            Reason::Dump => {
                "expected DUMP jobs rows path, with 1 to 64 jobs, 1 to 1000000 rows a piece, and a path without spaces"
            }
            Reason::Wait => "WAIT works only with `run --free`: use POLL here",
            Reason::Checkpoint => "CHECKPOINT isn't allowed with --free",
            Reason::LateOpen => "OPEN must be the first line, without CREATE TABLE",
            Reason::Path => "expected OPEN path, with a path without spaces",
            Reason::LateTable => {
                "CREATE TABLE must come before the first session's line, and not with OPEN"
            }
            Reason::NoTable => "expected CREATE TABLE name (name type PRIMARY KEY, name type, ..);",
            Reason::OneLine => "CREATE TABLE must stand on one line in a script, up to its `;`",
            Reason::Comment => {
                "a comment needs a line of its own that starts with `--`, outside CREATE TABLE"
            }
            Reason::NoName => "invalid name: use letters, digits and `_`, and no digit first",
            Reason::Reserved => "reserved word: choose another name",
            Reason::LongName => "name too long: at most 63 bytes",
            Reason::NoKind => "unknown type: use bigint, text or bytea",
            Reason::NoKey =>
                "expected the first column as name type PRIMARY KEY [REFERENCES table]",
            Reason::NoColumn => "expected a column as name type [NOT NULL] [REFERENCES table]",
            Reason::Behind => "expected one `;` at the end, and nothing after it",
            Reason::SameColumn => "duplicate column name",
            Reason::ManyColumns => "too many columns: at most 32",
            Reason::ManyTables => "too many tables: at most 256",
            Reason::SameTable => "there is a table of this name already",
            Reason::NoReferenced => "the table that it references doesn't come before it",
            Reason::OtherKind => "the column's type isn't that of the key that it references",
            Reason::Memory => "out of memory",
        }
    }
}

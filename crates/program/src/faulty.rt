//! Explains a faulty line of a dump to a person.

ghost use Rattle.std.specs.Prelude.{◌<◌, length};

use value::refusal::Code;

/// What is wrong with a line of a dump, by its code: a few words, without an end of line.
pub fn words_of_dump(line: u64, code: Code) -> &'static str
    ensures { 0 < length result.now }
{
    match code {
        Code::OutOfMemory => "out of memory",
        Code::BadCopyFileFormat if line == 1 => {
            "not a pgserial dump, or its lines end in carriage returns (CRLF): the first line must be `-- dump 2` or `-- dump 1`"
        }
        Code::BadCopyFileFormat => {
            "unexpected line, a carriage return at its end (CRLF), or the dump ends too early"
        }
        Code::UniqueViolation => "duplicate key",
        Code::ForeignKeyViolation => "the row that it references doesn't come before it",
        Code::NotNullViolation => "null in a NOT NULL column",
        Code::NumericValueOutOfRange => "number out of range for bigint",
        Code::CharacterNotInRepertoire => "invalid UTF-8, or a zero byte",
        Code::InvalidTextRepresentation => "invalid value for the column's type",
        Code::ProgramLimitExceeded => "more than 256 tables, or more than 32 columns",
        Code::DuplicateTable => "there is a table of this name already",
        Code::UndefinedTable => "the table that it references doesn't come before it",
        Code::DatatypeMismatch => "the column's type isn't that of the key that it references",
        _ => "this line isn't allowed here",
    }
}

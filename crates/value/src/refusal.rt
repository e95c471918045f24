//! Refusals: codes, places and causes.

ghost use Rattle.std.specs.Prelude.{◌≡◌, Some};
ghost use Rattle.value.specs.Codes.{sqlstate, condition_name, refusal_text};
ghost use Rattle.value.specs.Refusals.{out_of_memory};

use std::alloc::{AllocError, AllocFailed};
use std::error::Error;
use std::fmt;

/// The SQLSTATE of a refusal, by its condition name in the manual
/// (PostgreSQL, appendix A, "PostgreSQL Error Codes").
#[derive(Clone, Copy, Debug, PartialEq, Eq)]
pub enum Code {
    /// A bigint literal, or a sum of bigints, that 64 bits don't hold.
    NumericValueOutOfRange,
    /// A text that isn't UTF-8, or has the zero byte.
    CharacterNotInRepertoire,
    /// A literal that hasn't the form of a bigint or of a bytea.
    InvalidTextRepresentation,
    /// COPY text, or a dump, of another form.
    BadCopyFileFormat,
    /// A null where none may be.
    NotNullViolation,
    /// A reference without its row, or a deletion of a row that is referenced.
    ForeignKeyViolation,
    /// A key that is there already.
    UniqueViolation,
    /// BEGIN in an open transaction, or an import of a snapshot after a first query.
    ActiveSqlTransaction,
    /// A write in a read-only transaction.
    ReadOnlySqlTransaction,
    /// An action that needs a transaction, in a session that has none.
    NoActiveSqlTransaction,
    /// An action that a failed transaction no longer does.
    InFailedSqlTransaction,
    /// A commit that would make a dangerous structure, a transaction that another's commit has doomed, or a write of a
    /// row that a concurrent transaction has written. To be tried again.
    SerializationFailure,
    /// A text that is no statement, or a bad table definition.
    SyntaxError,
    /// A name that is no column of the table.
    UndefinedColumn,
    /// A literal, a sum, a field or a reference of another kind than the column, or a row with another number of
    /// fields.
    DatatypeMismatch,
    /// A name that is no table.
    UndefinedTable,
    /// A table's name that is there already.
    DuplicateTable,
    /// Out of memory. Nothing has changed.
    OutOfMemory,
    /// One of this server's limits: tables, columns, a statement's length, recorded events.
    ProgramLimitExceeded,
    /// A snapshot that isn't known to be safe yet, a transaction that isn't deferrable, or an identifier of a snapshot
    /// that is unknown or gone.
    ObjectNotInPrerequisiteState,
}

impl Code {
    /// The five characters of the SQLSTATE.
    pub fn sqlstate(self) -> &'static str
        ensures { result.now ≡ sqlstate self }
    {
        match self {
            Code::NumericValueOutOfRange => "22003",
            Code::CharacterNotInRepertoire => "22021",
            Code::InvalidTextRepresentation => "22P02",
            Code::BadCopyFileFormat => "22P04",
            Code::NotNullViolation => "23502",
            Code::ForeignKeyViolation => "23503",
            Code::UniqueViolation => "23505",
            Code::ActiveSqlTransaction => "25001",
            Code::ReadOnlySqlTransaction => "25006",
            Code::NoActiveSqlTransaction => "25P01",
            Code::InFailedSqlTransaction => "25P02",
            Code::SerializationFailure => "40001",
            Code::SyntaxError => "42601",
            Code::UndefinedColumn => "42703",
            Code::DatatypeMismatch => "42804",
            Code::UndefinedTable => "42P01",
            Code::DuplicateTable => "42P07",
            Code::OutOfMemory => "53200",
            Code::ProgramLimitExceeded => "54000",
            Code::ObjectNotInPrerequisiteState => "55000",
        }
    }

    /// The condition name in the manual.
    pub fn condition_name(self) -> &'static str
        ensures { result.now ≡ condition_name self }
    {
        match self {
            Code::NumericValueOutOfRange => "numeric_value_out_of_range",
            Code::CharacterNotInRepertoire => "character_not_in_repertoire",
            Code::InvalidTextRepresentation => "invalid_text_representation",
            Code::BadCopyFileFormat => "bad_copy_file_format",
            Code::NotNullViolation => "not_null_violation",
            Code::ForeignKeyViolation => "foreign_key_violation",
            Code::UniqueViolation => "unique_violation",
            Code::ActiveSqlTransaction => "active_sql_transaction",
            Code::ReadOnlySqlTransaction => "read_only_sql_transaction",
            Code::NoActiveSqlTransaction => "no_active_sql_transaction",
            Code::InFailedSqlTransaction => "in_failed_sql_transaction",
            Code::SerializationFailure => "serialization_failure",
            Code::SyntaxError => "syntax_error",
            Code::UndefinedColumn => "undefined_column",
            Code::DatatypeMismatch => "datatype_mismatch",
            Code::UndefinedTable => "undefined_table",
            Code::DuplicateTable => "duplicate_table",
            Code::OutOfMemory => "out_of_memory",
            Code::ProgramLimitExceeded => "program_limit_exceeded",
            Code::ObjectNotInPrerequisiteState => "object_not_in_prerequisite_state",
        }
    }
}

/// Writes the five characters.
impl fmt::Display for Code {
    ghost output = { λ code. Some (sqlstate code) };

    fn fmt<W: fmt::Write>(&self, f: &mut fmt::Formatter<W>) -> fmt::Result {
        f.write_str(self.sqlstate())
    }
}

/// The number of a transaction, counted from 1 in the order in which transactions began.
#[derive(Clone, Copy, Debug, PartialEq, Eq)]
pub struct TxnNo(pub u64);

/// The transactions of a dangerous structure: `a` has read what `b` wrote, `b` has read what `c`
/// wrote, and `c` is the first of them to commit. `c` may be `a` (Ports and Grittner, section 3.2).
#[derive(Clone, Copy, Debug, PartialEq, Eq)]
pub struct Cause {
    pub a: TxnNo,
    pub b: TxnNo,
    pub c: TxnNo,
}

/// Where a refusal points.
#[derive(Clone, Copy, Debug, PartialEq, Eq)]
pub enum Place {
    /// Nowhere.
    None,
    /// At a byte of the statement's text, counted from 0.
    Byte(u32),
    /// At a column of the statement's table, counted from 1.
    Column(u32),
    /// At a table, counted from 1 in the order in which the tables were created.
    Table(u32),
    /// At a row that another transaction has written.
    Row,
    /// At the dangerous structure that was, or would have been, made.
    Cause(Cause),
}

/// What a transaction may do, and when its snapshot is taken. All are SERIALIZABLE.
#[derive(Clone, Copy, Debug, PartialEq, Eq)]
pub enum Mode {
    /// The transaction may read and write, on the snapshot at its BEGIN.
    ReadWrite,
    /// The transaction may only read, on the snapshot at its BEGIN or on one that it imports.
    ReadOnly,
    /// The transaction may only read, on a safe snapshot, for which it waits.
    Deferrable,
}

/// Why a call wasn't done.
#[derive(Clone, Copy, Debug, PartialEq, Eq)]
pub struct Refusal {
    pub code: Code,
    pub place: Place,
}

impl Refusal {
    /// A refusal that points nowhere.
    pub fn of_code(code: Code) -> Refusal
        ensures { result ≡ record { code = code; place = Place.None } }
    {
        Refusal {
            code,
            place: Place::None,
        }
    }
}

/// Writes the SQLSTATE and the place, as in `42601 byte 7` or `40001 cause 2 3 2`.
impl fmt::Display for Refusal {
    ghost output = { λ refusal. Some (refusal_text refusal) };

    fn fmt<W: fmt::Write>(&self, f: &mut fmt::Formatter<W>) -> fmt::Result {
        let code = self.code.sqlstate();
        match self.place {
            Place::None => f.write_str(code),
            Place::Byte(number) => write!(f, "{code} byte {number}"),
            Place::Column(number) => write!(f, "{code} column {number}"),
            Place::Table(number) => write!(f, "{code} table {number}"),
            Place::Row => write!(f, "{code} row"),
            Place::Cause(cause) => {
                let (a, b, c) = (cause.a.0, cause.b.0, cause.c.0);
                write!(f, "{code} cause {a} {b} {c}")
            }
        }
    }
}

impl Error for Refusal {}

impl From<AllocError> for Refusal {
    ghost from_gives = { λ _ e. e ≡ out_of_memory };

    fn from(_error: AllocError) -> Refusal {
        Refusal::of_code(Code::OutOfMemory)
    }
}

impl<T: Drop> From<AllocFailed<T>> for Refusal {
    ghost from_gives = { λ _ e. e ≡ out_of_memory };

    fn from(_error: AllocFailed<T>) -> Refusal {
        Refusal::of_code(Code::OutOfMemory)
    }
}

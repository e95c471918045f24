//! Names, and the words that name nothing.

ghost use Rattle.std.specs.Prelude.{◌≡◌};
ghost use Rattle.std.specs.List.{list_all};
ghost use Rattle.schema.specs.Names.{is_reserved, is_name, is_small_word, begins_name, continues_name};

/// The words of the language, which name nothing.
pub fn is_reserved(word: &str) -> bool
    ensures { result ≡ is_reserved word.now }
{
    matches!(
        word,
        "and"
            | "between"
            | "bigint"
            | "bytea"
            | "count"
            | "create"
            | "delete"
            | "from"
            | "insert"
            | "into"
            | "is"
            | "key"
            | "not"
            | "null"
            | "primary"
            | "references"
            | "select"
            | "set"
            | "table"
            | "text"
            | "update"
            | "values"
            | "where"
    )
}

// Whether a name may begin with the byte.
fn begins(byte: u8) -> bool
    ensures { result ≡ begins_name byte }
{
    byte.is_ascii_lowercase() || byte == b'_'
}

// Whether a name may go on with the byte.
fn continues(byte: u8) -> bool
    ensures { result ≡ continues_name byte }
{
    begins(byte) || byte.is_ascii_digit()
}

// Whether a name may go on with the bytes.
fn all_continue(bytes: &[u8]) -> bool
    ensures { result ≡ list_all continues_name bytes.now }
{
    bytes.iter().all(|byte| continues(*byte))
}

// Whether it is a word in small letters.
fn is_small(word: &[u8]) -> bool
    ensures { result ≡ is_small_word word.now }
{
    match word {
        [] => false,
        [first, rest @ ..] => begins(*first) && all_continue(rest),
    }
}

/// Whether a table or a column may be called so: a word in small letters, of at most 63 bytes, that isn't reserved.
pub fn is_name(word: &str) -> bool
    ensures { result ≡ is_name word.now }
{
    is_small(word.as_bytes()) && word.len() <= 63 && !is_reserved(word)
}

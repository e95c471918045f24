//! What a typed line asks for, and the line of a script that it stands for.

ghost use Rattle.std.specs.Prelude.{◌≡◌, ◌≤◌, ◌++◌, codes, not, length, IfOk, IfErr};
ghost use Rattle.std.specs.List.{position_or_len};
ghost use Rattle.value.specs.Refusals.{out_of_memory};
ghost use Rattle.terminal.specs.Typing as spec;

use history::session_id::SessionId;
use itoa::Buffer;
use std::alloc::Allocator;
use value::refusal::Refusal;

/// What a typed line asks for.
#[derive(Clone, Copy, Debug, PartialEq, Eq)]
pub enum Typed {
    /// Nothing: it is empty, or a comment.
    Nothing,
    /// That the prompt goes to another session.
    Session,
    /// What may be typed.
    Help,
    /// That the conversation ends.
    Quit,
    /// The columns of a table.
    Columns,
    /// A dump to a file.
    Dump,
    /// The lines of a file.
    File,
    /// That how long answers take is shown, or no longer shown.
    Timing,
    /// Why a transaction was refused.
    Why,
    /// A picture to a file.
    Drawing,
    /// That a statement without BEGIN is a transaction by itself, or no longer.
    Autocommit,
    /// The tables.
    Tables,
    /// A word that a shell answers.
    Word,
    /// A word that is none.
    Unknown,
    /// A line of a script.
    Command,
}

// Whether a byte is a space, a tab or a carriage return.
fn is_blank(byte: u8) -> bool
    ensures { result ≡ spec.is_blank byte }
{
    byte == b' ' || byte == b'\t' || byte == b'\r'
}

// How many bytes stand before the first blank.
fn word_length(text: &[u8]) -> usize
    ensures value { result ≡ position_or_len spec.is_blank text.now }
    ensures within { result ≤ length text.now }
{
    let mut end = 0;
    while end < text.len() && !is_blank(text[end]) {
        end += 1;
    }
    end
}

// How many blanks stand at the start.
fn blanks(text: &[u8]) -> usize
    ensures value { result ≡ position_or_len (λ b. not (spec.is_blank b)) text.now }
    ensures within { result ≤ length text.now }
{
    let mut end = 0;
    while end < text.len() && is_blank(text[end]) {
        end += 1;
    }
    end
}

// Where a text ends, without blanks and `;` at its end.
fn end_of(text: &[u8]) -> usize
    ensures value { result ≡ spec.end_from text.now (length text.now) }
    ensures within { result ≤ length text.now }
{
    let mut end = text.len();
    while end > 0 && (is_blank(text[end - 1]) || text[end - 1] == b';') {
        end -= 1;
    }
    end
}

// Without the blanks at its start.
fn unheaded(text: &[u8]) -> &[u8]
    ensures { result.now ≡ spec.unheaded text.now }
{
    &text[blanks(text)..]
}

/// What was typed, without blanks and `;` around it.
pub fn text_in(line: &[u8]) -> &[u8]
    ensures { result.now ≡ spec.text_in line.now }
{
    let text = unheaded(line);
    &text[..end_of(text)]
}

/// The first word of a text.
pub(crate) fn first_word(text: &[u8]) -> &[u8]
    ensures { result.now ≡ spec.first_word text.now }
{
    &text[..word_length(text)]
}

/// What follows the first word of a text.
pub fn behind_word(text: &[u8]) -> &[u8]
    ensures { result.now ≡ spec.behind_word text.now }
{
    unheaded(&text[word_length(text)..])
}

/// The session of a number.
pub(crate) fn session_of(number: u32) -> Option<SessionId>
    ensures { result ≡ spec.session_of number }
{
    SessionId::new(number)
}

/// The session of which a text is the number.
pub fn session_in(text: &[u8]) -> Option<SessionId>
    ensures { result ≡ spec.session_in text.now }
{
    match text {
        [digit] if digit.is_ascii_digit() => session_of(u32::from(*digit - b'0')),
        [ten, digit] if ten.is_ascii_digit() && digit.is_ascii_digit() && *ten != b'0' => {
            session_of(10 * u32::from(*ten - b'0') + u32::from(*digit - b'0'))
        }
        _ => None,
    }
}

// What a word asks for that isn't among the first.
fn further_word(word: &[u8]) -> Typed
    ensures { result ≡ spec.further_word word.now }
{
    if word == b"\\i".as_slice() {
        Typed::File
    } else if word == b"\\timing".as_slice() {
        Typed::Timing
    } else if word == b"\\autocommit".as_slice() {
        Typed::Autocommit
    } else if word == b"\\why".as_slice() {
        Typed::Why
    } else if word == b"\\draw".as_slice() {
        Typed::Drawing
    } else if word == b"\\dt".as_slice() {
        Typed::Tables
    } else if word == b"\\h".as_slice() {
        Typed::Help
    } else {
        Typed::Unknown
    }
}

// What a word asks for, with what follows it.
fn word_typed(word: &[u8], behind: &[u8]) -> Typed
    ensures { result ≡ spec.word_typed word.now behind.now }
{
    if word == b"\\?".as_slice() {
        Typed::Help
    } else if word == b"\\q".as_slice() {
        Typed::Quit
    } else if word == b"\\serial".as_slice() {
        Typed::Word
    } else if word == b"\\dump".as_slice() {
        Typed::Dump
    } else if word == b"\\d".as_slice() {
        if behind.is_empty() {
            Typed::Tables
        } else {
            Typed::Columns
        }
    } else {
        further_word(word)
    }
}

/// Whether a text begins with another.
pub fn begins(head: &[u8], text: &[u8]) -> bool
    ensures { result ≡ spec.begins head.now text.now }
{
    text[..text.len().min(head.len())] == head[..]
}

/// What a text asks for.
pub fn typed_as(text: &[u8]) -> Typed
    ensures { result ≡ spec.typed_as text.now }
{
    if text.is_empty() || begins(b"--", text) {
        Typed::Nothing
    } else if text[0] == b'\\' {
        word_typed(first_word(text), behind_word(text))
    } else if text[0] == b'.' {
        Typed::Unknown
    } else if session_in(text).is_some() {
        Typed::Session
    } else {
        Typed::Command
    }
}

/// Whether a text is a command that is a few words.
pub(crate) fn is_plain(text: &[u8]) -> bool
    ensures { result ≡ spec.is_plain text.now }
{
    text == b"BEGIN".as_slice()
        || text == b"BEGIN READ ONLY".as_slice()
        || text == b"BEGIN READ ONLY DEFERRABLE".as_slice()
        || text == b"COMMIT".as_slice()
        || text == b"ROLLBACK".as_slice()
        || text == b"POLL".as_slice()
        || text == b"EXPORT".as_slice()
        || text == b"PRUNE".as_slice()
        || text == b"WAIT".as_slice()
}

// Whether a text in capitals begins a transaction of the one isolation level that there is.
fn begins_serializable(text: &[u8]) -> bool
    ensures { result ≡ spec.begins_serializable text.now }
{
    text == b"BEGIN ISOLATION LEVEL SERIALIZABLE".as_slice()
        || text == b"BEGIN TRANSACTION ISOLATION LEVEL SERIALIZABLE".as_slice()
        || text == b"START TRANSACTION ISOLATION LEVEL SERIALIZABLE".as_slice()
}

/// What a text in capitals means that says it in other words of PostgreSQL's.
pub(crate) fn meant(text: &[u8]) -> &[u8]
    ensures { result.now ≡ spec.meant text.now }
{
    if begins_serializable(text)
        || text == b"BEGIN WORK".as_slice()
        || text == b"BEGIN TRANSACTION".as_slice()
        || text == b"START TRANSACTION".as_slice()
    {
        b"BEGIN"
    } else if text == b"END".as_slice()
        || text == b"COMMIT WORK".as_slice()
        || text == b"COMMIT TRANSACTION".as_slice()
    {
        b"COMMIT"
    } else if text == b"ABORT".as_slice()
        || text == b"ROLLBACK WORK".as_slice()
        || text == b"ROLLBACK TRANSACTION".as_slice()
    {
        b"ROLLBACK"
    } else {
        text
    }
}

/// Whether a text begins with a word that something follows.
pub(crate) fn has_head(text: &[u8]) -> bool
    ensures { result ≡ spec.has_head text.now }
{
    begins(b"IMPORT ", text) || begins(b"DUMP ", text) || begins(b"OPEN ", text)
}

/// Whether a text is no session's.
pub(crate) fn is_sessionless(text: &[u8]) -> bool
    ensures { result ≡ spec.is_sessionless text.now }
{
    text == b"CHECKPOINT".as_slice() || begins(b"CREATE ", text) || begins(b"OPEN ", text)
}

/// A text in capitals.
pub(crate) fn capitals<A: Allocator>(alloc: A, text: &[u8]) -> Result<Vec<u8, A>, Refusal>
    ensures text { IfOk result (λ t. t.items ≡ spec.capitals text.now) }
    ensures memory { IfErr result (λ e. e ≡ out_of_memory) }
{
    let mut capitals = Vec::from_slice(alloc, text)?;
    capitals.as_mut_slice().make_ascii_uppercase();
    Ok(capitals)
}

// A text whose first word is in capitals.
fn headed<A: Allocator>(alloc: A, text: &[u8]) -> Result<Vec<u8, A>, Refusal>
    ensures text { IfOk result (λ t. t.items ≡ spec.headed text.now) }
    ensures memory { IfErr result (λ e. e ≡ out_of_memory) }
{
    let word = first_word(text);
    let mut headed = capitals(alloc, word)?;
    headed.extend_from_slice(&text[word.len()..])?;
    Ok(headed)
}

// A command as a script has it.
fn command_text<A: Allocator + Copy>(alloc: A, text: &[u8]) -> Result<Vec<u8, A>, Refusal>
    ensures text { IfOk result (λ t. t.items ≡ spec.command_text text.now) }
    ensures memory { IfErr result (λ e. e ≡ out_of_memory) }
{
    let capitals = capitals(alloc, text)?;
    let plain = meant(capitals.as_slice());
    if is_plain(plain) {
        return Ok(Vec::from_slice(alloc, plain)?);
    }
    if has_head(capitals.as_slice()) {
        return headed(alloc, text);
    }
    let same = Vec::from_slice(alloc, text)?;
    Ok(same)
}

// A text, followed by `;`.
fn ended<A: Allocator>(mut text: Vec<u8, A>) -> Result<Vec<u8, A>, Refusal>
    ensures text { IfOk result (λ t. t.items ≡ text.items ++ codes ";") }
    ensures memory { IfErr result (λ e. e ≡ out_of_memory) }
{
    text.push(b';')?;
    Ok(text)
}

// A command after a session's number, as a script has it.
fn numbered<A: Allocator + Copy>(
    alloc: A,
    number: &[u8],
    command: &[u8],
) -> Result<Vec<u8, A>, Refusal>
    ensures text { IfOk result (λ t. t.items ≡ number.now ++ codes " " ++ spec.command_text command.now ++ codes ";") }
    ensures memory { IfErr result (λ e. e ≡ out_of_memory) }
{
    let command = command_text(alloc, command)?;
    let mut text = Vec::from_slice(alloc, number)?;
    text.push(b' ')?;
    text.extend_from_slice(command.as_slice())?;
    ended(text)
}

// A command without a session's number, as a script has it for a session.
fn line_without<A: Allocator + Copy>(
    alloc: A,
    session: SessionId,
    text: &[u8],
) -> Result<Vec<u8, A>, Refusal>
    ensures text { IfOk result (λ t. t.items ≡ spec.line_without session text.now) }
    ensures memory { IfErr result (λ e. e ≡ out_of_memory) }
{
    let capitals = capitals(alloc, text)?;
    if capitals.as_slice() == b"CHECKPOINT".as_slice() {
        return ended(capitals);
    }
    if is_sessionless(capitals.as_slice()) {
        return ended(command_text(alloc, text)?);
    }
    let mut digits = Buffer::new();
    numbered(alloc, digits.format(session.number()).as_bytes(), text)
}

/// The line of a script that a command stands for, at the prompt of a session.
pub fn line_of<A: Allocator + Copy>(
    alloc: A,
    session: SessionId,
    text: &[u8],
) -> Result<Vec<u8, A>, Refusal>
    ensures text { IfOk result (λ t. t.items ≡ spec.line_of session text.now) }
    ensures memory { IfErr result (λ e. e ≡ out_of_memory) }
{
    if !text.is_empty() && text[0].is_ascii_digit() {
        numbered(alloc, first_word(text), behind_word(text))
    } else {
        line_without(alloc, session, text)
    }
}

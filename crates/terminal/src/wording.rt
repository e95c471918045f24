//! The texts that a terminal shows by itself.

ghost use Rattle.std.specs.Prelude.{◌≡◌};
ghost use Rattle.terminal.specs.Alone as alone;
ghost use Rattle.terminal.specs.Described.{no_table_text as absent_text};
ghost use Rattle.terminal.specs.Taken as taken;
ghost use Rattle.terminal.specs.Terminals as spec;

/// What may be typed.
pub(crate) fn help_text() -> &'static [u8]
    ensures { result.now ≡ spec.help_text }
{
    b"\
      SELECT .., INSERT .., UPDATE .., DELETE ..;  a statement, over lines up to its ;\n\
      BEGIN [READ ONLY [DEFERRABLE]]               begins a transaction; COMMIT and ROLLBACK end it\n\
      POLL, EXPORT, IMPORT n, PRUNE, DUMP ..       other commands; CHECKPOINT makes room for events\n\
      CREATE TABLE .., OPEN path                   before the first transaction\n\
      2                                            goes to session 2, of 64\n\
      2 BEGIN                                      a line of session 2\n\
      \\autocommit [on|off]                         whether a statement without BEGIN is a transaction by itself\n\
      \\d [NAME]                                    the tables, or one of them\n\
      \\serial                                      the committed transactions in their serial order\n\
      \\why                                         why a transaction was refused last\n\
      \\draw FILE                                   a picture of the transactions\n\
      \\dump FILE                                   a dump of a safe snapshot\n\
      \\i FILE                                      the lines of a file\n\
      \\r                                           clears the statement typed so far\n\
      \\timing [on|off]                             shows how long answers take\n\
      \\?, help                                     this\n\
      \\q, exit, quit                               ends the shell\n\
      For line editing and history, start it as `rlwrap pgserial shell`.\n\
    "
}

/// What is shown where there is no such table.
pub(crate) fn no_table_text() -> &'static [u8]
    ensures { result.now ≡ absent_text }
{
    b"no such table: \\d lists the tables\n"
}

/// What is shown where no session may begin a dump.
pub(crate) fn no_session_text() -> &'static [u8]
    ensures { result.now ≡ spec.no_session_text }
{
    b"every session has a transaction: a dump needs one without\n"
}

/// What is shown of a dump whose path has spaces.
pub(crate) fn spaced_text() -> &'static [u8]
    ensures { result.now ≡ spec.spaced_text }
{
    b"a dump's path can't contain spaces\n"
}

/// What is shown of a line that comes too early.
pub(crate) fn early_text() -> &'static [u8]
    ensures { result.now ≡ spec.early_text }
{
    b"line ignored: CREATE TABLE or OPEN must come first, then BEGIN\n"
}

/// What is shown of a line whose event there is no room for.
pub(crate) fn late_text() -> &'static [u8]
    ensures { result.now ≡ spec.late_text }
{
    b"line ignored: the history is full (--events); COMMIT or ROLLBACK each transaction, then CHECKPOINT makes room\n"
}

/// What is shown of a line that needs more room than there ever is.
pub(crate) fn few_text() -> &'static [u8]
    ensures { result.now ≡ spec.few_text }
{
    b"line ignored: --events is too small for a transaction; start the shell with more\n"
}

/// What is shown of tables that come too late.
pub(crate) fn closed_text() -> &'static [u8]
    ensures { result.now ≡ spec.closed_text }
{
    b"ERROR 42601: CREATE TABLE must come before the first transaction: \\q, and start again with all tables\n"
}

/// What is shown of a dump that is given up.
pub(crate) fn not_safe_text() -> &'static [u8]
    ensures { result.now ≡ spec.not_safe_text }
{
    b"nothing was dumped: there is no safe snapshot while other transactions write\n"
}

/// What is shown once a tenth of the room for events is left.
pub(crate) fn near_text() -> &'static [u8]
    ensures { result.now ≡ spec.near_text }
{
    b"the history is nearly full (--events): CHECKPOINT makes room, once no session has a transaction\n"
}

/// What is shown once answers are timed, or no longer.
pub(crate) fn timing_text(is_timed: bool) -> &'static [u8]
    ensures { result.now ≡ spec.timing_text is_timed }
{
    if is_timed {
        b"Timing is on.\n"
    } else {
        b"Timing is off.\n"
    }
}

/// What is shown of a file's line that asks for a file's lines.
pub(crate) fn nested_text() -> &'static [u8]
    ensures { result.now ≡ spec.nested_text }
{
    b"\\i must be typed on a line of its own: a file can't include another\n"
}

/// What is shown of a line that a terminal may have cut off.
pub(crate) fn cut_text() -> &'static [u8]
    ensures { result.now ≡ taken.cut_text }
{
    b"ERROR 54000: the line is longer than a terminal passes on; use \\i FILE\n"
}

/// What is shown where `\timing` is neither on nor off.
pub(crate) fn no_timing_text() -> &'static [u8]
    ensures { result.now ≡ taken.no_timing_text }
{
    b"\\timing takes on or off\n"
}

/// What is shown once a statement is a transaction by itself, or no longer.
pub(crate) fn autocommit_text(is_auto: bool) -> &'static [u8]
    ensures { result.now ≡ alone.autocommit_text is_auto }
{
    if is_auto {
        b"Autocommit is on.\n"
    } else {
        b"Autocommit is off.\n"
    }
}

/// What is shown where `\autocommit` is neither on nor off.
pub(crate) fn no_autocommit_text() -> &'static [u8]
    ensures { result.now ≡ alone.no_autocommit_text }
{
    b"\\autocommit takes on or off\n"
}

/// What is shown where there is no such statement.
pub(crate) fn slip_text() -> &'static [u8]
    ensures { result.now ≡ alone.slip_text }
{
    b"ERROR 42601: not a valid statement or command: \\? lists them\n"
}

/// What is shown behind a refusal for the sake of other transactions.
pub(crate) fn again_text() -> &'static [u8]
    ensures { result.now ≡ alone.again_text }
{
    b"the statement was rolled back: run it again\n"
}

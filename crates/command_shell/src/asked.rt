//! What a line asks for that a shell alone doesn't do, and its answer.

ghost use Rattle.std.specs.Prelude.{◌≡◌, [], IfOk, IfErr};
ghost use Rattle.std.specs.Option.{option_copied};
ghost use Rattle.value.specs.Refusals.{out_of_memory};
ghost use Rattle.program.specs.Files.{writing_of};
ghost use Rattle.shell.specs.Asked.{catalog_of, tables_text as text_of_tables};
ghost use Rattle.command_shell.specs.Serves as spec;
ghost use Rattle.command_shell.specs.Serves.{AnswersLine, IsTold, OpensPath, TellsSessionDump};

use audit::ordering::order_text;
use history::session_id::SessionId;
use itoa::Buffer;
use program::fault::Fault;
use program::files::Files;
use program::machine::Machine;
use session::sessions::Core;
use shell::shell::Shell;
use shell::tables::tables_text;
use shell::told::{SessionDump, dump_in};
use std::alloc::Allocator;
use value::refusal::{Code, Refusal};
use value::text::Text;

/// A word that is no line of a script.
#[derive(Clone, Copy, Debug, PartialEq, Eq)]
pub enum Word {
    /// `\d`: the tables.
    Tables,
    /// `\serial`: the serial order of the committed transactions, and its check.
    Order,
}

/// The word that a line is.
pub(crate) fn word_of(line: &[u8]) -> Option<Word>
    ensures { result ≡ spec.word_of line.now }
{
    if line == b"\\d".as_slice() {
        Some(Word::Tables)
    } else if line == b"\\serial".as_slice() {
        Some(Word::Order)
    } else {
        None
    }
}

// The tables, as they are printed.
fn tables_of<A: Allocator + Copy>(alloc: A, shell: &Shell<A>) -> Result<Vec<u8, A>, Refusal>
    ensures text { IfOk result (λ text. text.items ≡ text_of_tables (catalog_of shell.now)) }
    ensures memory { IfErr result (λ e. e ≡ out_of_memory) }
{
    let catalog = shell.catalog(alloc)?;
    tables_text(alloc, &catalog)
}

// The serial order, as it is printed: there is none before the server runs.
fn order_of<A: Allocator + Copy>(alloc: A, shell: &Shell<A>) -> Result<Vec<u8, A>, Refusal>
    ensures text { IfOk result (λ text. text.items ≡ spec.order_in shell.now.core) }
    ensures memory { IfErr result (λ e. e ≡ out_of_memory) }
{
    match shell.core() {
        Some(core) => match order_text(alloc, core) {
            Ok(text) => Ok(text),
            Err(_) => Err(Refusal::of_code(Code::OutOfMemory)),
        },
        None => {
            let text = Vec::from_slice(alloc, b"check yes\n")?;
            Ok(text)
        }
    }
}

/// What is answered to a word.
pub(crate) fn tell_word<A: Allocator + Copy>(
    alloc: A,
    shell: &Shell<A>,
    word: Word,
) -> Result<Vec<u8, A>, Refusal>
    ensures text { IfOk result (λ text. text.items ≡ spec.word_text shell.now word) }
    ensures memory { IfErr result (λ e. e ≡ out_of_memory) }
{
    match word {
        Word::Tables => tables_of(alloc, shell),
        Word::Order => order_of(alloc, shell),
    }
}

// The answer where a dump is faulty in a line.
fn dump_fault_text<A: Allocator>(alloc: A, line: u64, code: Code) -> Result<Vec<u8, A>, Refusal>
    ensures text { IfOk result (λ text. text.items ≡ spec.dump_fault_text line code) }
    ensures memory { IfErr result (λ e. e ≡ out_of_memory) }
{
    let mut digits = Buffer::new();
    let mut text = Vec::from_slice(alloc, b"ERROR ")?;
    text.extend_from_slice(code.sqlstate().as_bytes())?;
    text.extend_from_slice(b" line ")?;
    text.extend_from_slice(digits.format(line).as_bytes())?;
    text.push(b'\n')?;
    Ok(text)
}

// The answer where a file has failed.
fn device_text<A: Allocator>(alloc: A, path: &str) -> Result<Vec<u8, A>, Refusal>
    ensures text { IfOk result (λ text. text.items ≡ spec.device_text path.now) }
    ensures memory { IfErr result (λ e. e ≡ out_of_memory) }
{
    let mut text = Vec::from_slice(alloc, b"ERROR 58030 ")?;
    text.extend_from_slice(path.as_bytes())?;
    text.push(b'\n')?;
    Ok(text)
}

// The answer where a dump isn't opened.
fn fault_text<A: Allocator>(alloc: A, fault: &Fault<'_>) -> Result<Vec<u8, A>, Refusal>
    ensures text { IfOk result (λ text. text.items ≡ spec.fault_text fault.now) }
    ensures memory { IfErr result (λ e. e ≡ out_of_memory) }
{
    match fault {
        Fault::Script { .. } | Fault::ScriptOutOfMemory | Fault::DumpOutOfMemory => {
            dump_fault_text(alloc, 0, Code::OutOfMemory)
        }
        Fault::Dump { line, code } => dump_fault_text(alloc, *line, *code),
        Fault::Device { path } => device_text(alloc, path),
    }
}

/// Lets the server run on the dump of a path, or answers why it can't.
pub(crate) fn open_path<A, F, T>(
    machine: &Machine<'_, F, T, A>,
    shell: Shell<A>,
    path: &Text<A>,
) -> Result<(Shell<A>, Vec<u8, A>), Refusal>
where
    A: Allocator + Copy,
    F: Files<A>,
    ensures told { IfOk result (λ x. OpensPath (F.held machine.now.files.now) path.now shell x.0 x.1.items) }
    ensures memory { IfErr result (λ e. e ≡ out_of_memory) }
{
    let alloc = machine.alloc;
    let most_events = shell.most_events();
    match machine.open_alone(path, most_events) {
        Ok(core) => {
            let text = Vec::from_slice(alloc, b"OPEN\n")?;
            Ok((Shell::on(alloc, core, most_events), text))
        }
        Err(fault) => {
            let text = fault_text(alloc, &fault)?;
            Ok((shell, text))
        }
    }
}

// The answer to a session's dump whose file has failed.
fn dump_device_text<A: Allocator + Copy>(
    alloc: A,
    session: SessionId,
    path: &str,
) -> Result<Vec<u8, A>, Refusal>
    ensures text { IfOk result (λ text. text.items ≡ spec.dump_device_text session path.now) }
    ensures memory { IfErr result (λ e. e ≡ out_of_memory) }
{
    let mut digits = Buffer::new();
    let mut text = Vec::from_slice(alloc, digits.format(session.number()).as_bytes())?;
    text.push(b' ')?;
    let failed = device_text(alloc, path)?;
    text.extend_from_slice(failed.as_slice())?;
    Ok(text)
}

// Makes a dump that a session asks for, and returns the answer to it.
fn make_dump<A, F, T>(
    machine: &Machine<'_, F, T, A>,
    core: &Core<A>,
    dump: &SessionDump<A>,
) -> Result<Vec<u8, A>, Refusal>
where
    A: Allocator + Copy,
    F: Files<A>,
    ensures told { IfOk result (λ text.
        TellsSessionDump (writing_of F.Out.path F.Out.kept F.Out.failures) core.now dump.now text.items) }
    ensures memory { IfErr result (λ e. e ≡ out_of_memory) }
{
    match machine.tell_dump_alone(core, dump.session, &dump.request) {
        Ok(text) => Ok(text),
        Err(Fault::Device { path }) => dump_device_text(machine.alloc, dump.session, path),
        Err(_) => Err(Refusal::of_code(Code::OutOfMemory)),
    }
}

// The answer to a line for which a shell alone has returned a text: where the line asks for a dump, and the server
// runs, the result of the dump; else that text.
fn told_of<A, F, T>(
    machine: &Machine<'_, F, T, A>,
    core: Option<&Core<A>>,
    dump: Option<SessionDump<A>>,
    told: Vec<u8, A>,
) -> Result<Vec<u8, A>, Refusal>
where
    A: Allocator + Copy,
    F: Files<A>,
    ensures told { IfOk result (λ text.
        IsTold (writing_of F.Out.path F.Out.kept F.Out.failures) dump (option_copied core.entry) told.items text.items) }
    ensures memory { IfErr result (λ e. e ≡ out_of_memory) }
{
    let Some(dump) = dump else {
        return Ok(told);
    };
    match core {
        Some(core) => make_dump(machine, core, &dump),
        None => Ok(told),
    }
}

/// Answers a line that is no word and opens no dump, as a shell does; and makes the dump that it asks for.
pub(crate) fn answer_line<A, F, T>(
    machine: &Machine<'_, F, T, A>,
    shell: Shell<A>,
    line: &[u8],
) -> Result<(Shell<A>, Vec<u8, A>), Refusal>
where
    A: Allocator + Copy,
    F: Files<A>,
    ensures told { IfOk result (λ x.
        AnswersLine (writing_of F.Out.path F.Out.kept F.Out.failures) shell line.now x.0 x.1.items) }
    ensures memory { IfErr result (λ e. e ≡ out_of_memory) }
{
    let dump = dump_in(machine.alloc, line)?;
    let (shell, told) = shell.answer(machine.alloc, line)?;
    let text = told_of(machine, shell.core(), dump, told)?;
    Ok((shell, text))
}

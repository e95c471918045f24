//! A picture of what has been done, to a file.

ghost use Rattle.std.specs.Prelude.{◌≡◌, true, ◌++◌, codes, IfOk, IfErr};
ghost use Rattle.value.specs.Refusals.{out_of_memory};
ghost use Rattle.program.specs.Files.{IsWritten};
ghost use Rattle.command_shell.specs.Asides as spec;
ghost use Rattle.command_shell.specs.Asides.{TellsDrawing};

use crate::prompt::recalled::Recalled;
use audit::keys::serial_order;
use program::fault::Fault;
use program::files::Files;
use program::keeping::write_file;
use retrace::drawing::arrow::picture_of;
use retrace::drawing::subject::Subject;
use retrace::drawing::svg::svg_text;
use session::sessions::Core;
use shell::shell::Shell;
use std::alloc::Allocator;
use terminal::drawing::shown;
use value::refusal::{Code, Refusal};

// How many events are drawn at most.
const MOST_DRAWN: u64 = 400;

// The picture of what was asked of a core.
fn picture_text<A: Allocator + Copy>(
    alloc: A,
    core: &Core<A>,
    recalled: &Recalled<A>,
) -> Result<Vec<u8, A>, Refusal>
    ensures memory { IfErr result (λ e. e ≡ out_of_memory) }
{
    let history = core.history();
    let order = serial_order(alloc, core)?;
    let events = history.records().len() as u64;
    let first = events.saturating_sub(MOST_DRAWN).saturating_add(1);
    let picture = picture_of(alloc, history, first)?;
    let lines = recalled.numbers(alloc)?;
    let subject = Subject {
        history,
        order: order.as_slice(),
        script: recalled.asked(),
        lines: lines.as_slice(),
        dumps: &[],
    };
    svg_text(alloc, &subject, &picture)
}

// Writes a text to the file of a path: whole, or not at all. Returns whether it was written.
fn is_written<A: Allocator, F: Files<A>>(
    alloc: A,
    files: &F,
    path: &str,
    text: &[u8],
) -> Result<bool, Refusal>
    ensures written { IfOk result (λ b. b ≡ true → IsWritten F.Out.path F.Out.kept path.now text.now) }
    ensures memory { IfErr result (λ e. e ≡ out_of_memory) }
{
    match write_file(alloc, files, path, text) {
        Ok(()) => Ok(true),
        Err(Fault::ScriptOutOfMemory) => Err(Refusal::of_code(Code::OutOfMemory)),
        Err(_) => Ok(false),
    }
}

// Writes a text to the file of a path that may be no UTF-8. Returns whether it was written.
fn write_at<A: Allocator, F: Files<A>>(
    alloc: A,
    files: &F,
    path: &[u8],
    text: &[u8],
) -> Result<bool, Refusal>
    ensures written { IfOk result (λ b. b ≡ true → IsWritten F.Out.path F.Out.kept path.now text.now) }
    ensures memory { IfErr result (λ e. e ≡ out_of_memory) }
{
    let Ok(path) = std::str::from_utf8(path) else {
        return Ok(false);
    };
    is_written(alloc, files, path, text)
}

// A path between two words.
fn path_text<A: Allocator>(
    alloc: A,
    before: &[u8],
    path: &[u8],
    behind: &[u8],
) -> Result<Vec<u8, A>, Refusal>
    ensures text { IfOk result (λ t. t.items ≡ before.now ++ path.now ++ behind.now) }
    ensures memory { IfErr result (λ e. e ≡ out_of_memory) }
{
    let mut text = Vec::from_slice(alloc, before)?;
    text.extend_from_slice(path)?;
    text.extend_from_slice(behind)?;
    Ok(text)
}

// What is shown of a picture that was written to a path, or wasn't.
fn picture_told<A: Allocator + Copy>(
    alloc: A,
    is_written: bool,
    path: &[u8],
) -> Result<Vec<u8, A>, Refusal>
    ensures text { IfOk result (λ t. t.items ≡ spec.picture_told is_written path.now) }
    ensures memory { IfErr result (λ e. e ≡ out_of_memory) }
{
    let path = shown(alloc, path)?;
    if is_written {
        path_text(alloc, b"drawn to ", path.as_slice(), b"\n")
    } else {
        path_text(alloc, b"", path.as_slice(), b" can't be written\n")
    }
}

// Draws what was asked of a core to the file of a path, and returns whether that went well.
fn draw_to<A: Allocator + Copy, F: Files<A>>(
    alloc: A,
    files: &F,
    core: &Core<A>,
    recalled: &Recalled<A>,
    path: &[u8],
) -> Result<Vec<u8, A>, Refusal>
    ensures told { IfOk result (λ t. TellsDrawing F.Out.path F.Out.kept path.now t.items) }
    ensures memory { IfErr result (λ e. e ≡ out_of_memory) }
{
    let text = picture_text(alloc, core, recalled)?;
    let is_written = write_at(alloc, files, path, text.as_slice())?;
    picture_told(alloc, is_written, path)
}

/// Draws what was asked of a shell to the file of a path, and returns whether that went well; there is nothing before
/// the server runs.
pub(crate) fn draw<A: Allocator + Copy, F: Files<A>>(
    alloc: A,
    files: &F,
    shell: &Shell<A>,
    recalled: &Recalled<A>,
    path: &[u8],
) -> Result<Vec<u8, A>, Refusal>
    ensures told { IfOk result (λ t. spec.TellsOn F.Out.path F.Out.kept shell.now.core path.now t.items) }
    ensures memory { IfErr result (λ e. e ≡ out_of_memory) }
{
    match shell.core() {
        Some(core) => draw_to(alloc, files, core, recalled, path),
        None => {
            let text = Vec::from_slice(alloc, b"nothing to draw: no session has begun\n")?;
            Ok(text)
        }
    }
}

//! A line's answer, over files.

ghost use Rattle.std.specs.Prelude.{◌≡◌, IfOk, IfErr};
ghost use Rattle.value.specs.Refusals.{out_of_memory};
ghost use Rattle.program.specs.Files.{writing_of};
ghost use Rattle.command_shell.specs.Serves.{Serves, ServesLine, ServesWord, word_of as spec_word_of};

use crate::asked::{answer_line, open_path, tell_word, word_of};
use program::files::Files;
use program::machine::Machine;
use shell::shell::{Shell, is_passed_over};
use std::alloc::Allocator;
use value::refusal::Refusal;

// The answer to a line that is no word.
fn serve_line<A, F, T>(
    machine: &Machine<'_, F, T, A>,
    shell: Shell<A>,
    line: &[u8],
) -> Result<(Shell<A>, Vec<u8, A>), Refusal>
where
    A: Allocator + Copy,
    F: Files<A>,
    ensures told { IfOk result (λ x. ServesLine (writing_of F.Out.path F.Out.kept F.Out.failures) (F.held machine.now.files.now) shell
        line.now x.0 x.1.items) }
    ensures memory { IfErr result (λ e. e ≡ out_of_memory) }
{
    match shell.opened_by(machine.alloc, line)? {
        Some(path) => open_path(machine, shell, &path),
        None => answer_line(machine, shell, line),
    }
}

// The answer to a line that isn't passed over.
fn serve_asked<A, F, T>(
    machine: &Machine<'_, F, T, A>,
    shell: Shell<A>,
    line: &[u8],
) -> Result<(Shell<A>, Vec<u8, A>), Refusal>
where
    A: Allocator + Copy,
    F: Files<A>,
    ensures told { IfOk result (λ x. ServesWord (writing_of F.Out.path F.Out.kept F.Out.failures) (spec_word_of line.now)
        (F.held machine.now.files.now) shell line.now x.0 x.1.items) }
    ensures memory { IfErr result (λ e. e ≡ out_of_memory) }
{
    match word_of(line) {
        Some(word) => {
            let text = tell_word(machine.alloc, &shell, word)?;
            Ok((shell, text))
        }
        None => serve_line(machine, shell, line),
    }
}

/// The answer to a line, and the shell that goes on. Out of memory is the only failure, and ends the conversation.
pub(crate) fn serve<A, F, T>(
    machine: &Machine<'_, F, T, A>,
    shell: Shell<A>,
    line: &[u8],
) -> Result<(Shell<A>, Vec<u8, A>), Refusal>
where
    A: Allocator + Copy,
    F: Files<A>,
    ensures told { IfOk result (λ x. Serves (writing_of F.Out.path F.Out.kept F.Out.failures) (F.held machine.now.files.now) shell
        line.now x.0 x.1.items) }
    ensures memory { IfErr result (λ e. e ≡ out_of_memory) }
{
    if is_passed_over(line) {
        return Ok((shell, Vec::new(machine.alloc)));
    }
    serve_asked(machine, shell, line)
}

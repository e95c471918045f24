//! A shell over files, which answers in a conversation.

ghost use Rattle.std.specs.Prelude.{◌≡◌};

use crate::serving::serve;
use program::explaining::Room;
use program::files::Files;
use program::machine::Machine;
use shell::conversation::handler::Handler;
use shell::shell::Shell;
use std::alloc::Allocator;
use std::marker::Model;
use value::refusal::Refusal;

/// A shell, and the files by which it opens and makes dumps.
#[derive(Drop)]
pub struct Served<'s, 'm, F, T, A: Allocator> {
    pub(crate) machine: &'s Machine<'m, F, T, A>,
    pub(crate) shell: Shell<A>,
}

impl<'s, 'm, F, T, A: Allocator> Model for Served<'s, 'm, F, T, A> {
    ghost use Rattle.command_shell.specs.Serves.{Over};

    ghost Value = { Over F A };

    ghost view = { λ s. record { files = s.machine.now.files.now; shell = s.shell } };
}

impl<'s, 'm, F, T, A: Allocator> Served<'s, 'm, F, T, A> {
    /// The shell.
    pub fn shell(&self) -> &Shell<A>
        ensures { result.now ≡ self.now.shell }
    {
        &self.shell
    }

    /// For how many events its history has room, and in what memory.
    pub fn room(&self) -> Room<A>
    where
        A: Copy,
        ensures { result.most_events ≡ self.now.shell.most }
    {
        Room {
            alloc: self.machine.alloc,
            most_events: self.shell.most_events(),
        }
    }
}

impl<'s, 'm, A, F, T> Handler<A> for Served<'s, 'm, F, T, A>
where
    A: Allocator + Copy,
    F: Files<A>,
{
    ghost use Rattle.command_shell.specs.Serves.{ServesOver};
    ghost use Rattle.program.specs.Files.{writing_of};

    ghost answers = { ServesOver (writing_of F.Out.path F.Out.kept F.Out.failures) F.held };

    fn answer(
        self,
        _alloc: A,
        line: &[u8],
    ) -> Result<(Served<'s, 'm, F, T, A>, Vec<u8, A>), Refusal> {
        let Served { machine, shell } = self;
        let (shell, text) = serve(machine, shell, line)?;
        Ok((Served { machine, shell }, text))
    }
}

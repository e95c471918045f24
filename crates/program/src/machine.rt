//! The threads, the memory and the files of a command.

ghost use Rattle.std.specs.Prelude.{◌≡◌};

use std::alloc::Global;

/// The threads, the memory and the files that a command is done with.
#[derive(Drop)]
pub struct Machine<'m, F, T, A> {
    pub rt: &'m T,
    /// What the parser of words, and sessions that run freely, take their memory of.
    pub words_memory: Global,
    /// What all else takes its memory of.
    pub alloc: A,
    pub files: &'m F,
}

impl<'m, F, T, A> Machine<'m, F, T, A> {
    /// This machine's threads and files, with another memory.
    pub(crate) fn with_memory<B>(&self, alloc: B) -> Machine<'m, F, T, B>
        ensures { result.files.now ≡ self.now.files.now }
    {
        Machine {
            rt: self.rt,
            words_memory: self.words_memory,
            alloc,
            files: self.files,
        }
    }
}

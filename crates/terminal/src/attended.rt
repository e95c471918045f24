//! The handlers that answer lines, and show what their shell holds.

ghost use Rattle.std.specs.Prelude.{◌≡◌, IfOk, IfErr, IfSome};
ghost use Rattle.value.specs.Refusals.{out_of_memory};
ghost use Rattle.terminal.specs.Terminals.{IsFile};

use shell::conversation::handler::Handler;
use shell::shell::Shell;
use std::alloc::Allocator;
use value::refusal::Refusal;

/// What is shown besides the answers to lines.
#[derive(Clone, Copy, Debug, PartialEq, Eq)]
pub enum Aside {
    /// Why a transaction was refused.
    Why,
    /// A picture to a file.
    Drawing,
}

/// A handler that answers lines by a shell, and shows what that holds.
pub trait Attended<A: Allocator>: Handler<A> {
    ghost use Rattle.std.specs.Prelude.{ℕ, List, Option};
    ghost use Rattle.shell.specs.Shells.{Held};
    ghost use Rattle.terminal.specs.declared.attended.Aside.{Aside as Beside};

    ghost held: { Self → Held A };

    /// What a text may show besides the answers, and the handler from then on.
    ghost tells: { Self → Beside → List ℕ → Self → List ℕ → Type 0 };

    /// What the file of a path has, where that is known.
    ghost files: { Self → List ℕ → Option (List ℕ) };

    /// The shell.
    fn shell(&self) -> &Shell<A>
        ensures { result.now ≡ held self.now };

    /// What a text shows besides the answers, and the handler from then on, with the same shell.
    fn tell(self, alloc: A, aside: Aside, text: &[u8]) -> Result<(Self, Vec<u8, A>), Refusal>
        ensures told { IfOk result (λ x. tells self aside text.now x.0 x.1.items) }
        ensures held { IfOk result (λ x. held x.0 ≡ held self) }
        ensures memory { IfErr result (λ e. e ≡ out_of_memory) };

    /// What the file of a path has; nothing where it can't be read.
    fn file(&self, alloc: A, path: &[u8]) -> Result<Option<Vec<u8, A>>, Refusal>
        ensures text { IfOk result (λ t. IfSome t (λ x. IsFile (files self.now path.now) x.items)) }
        ensures memory { IfErr result (λ e. e ≡ out_of_memory) };

    /// How many microseconds have passed since a moment that stays the same; 0 where no clock can be read.
    fn microseconds(&self) -> u64;
}

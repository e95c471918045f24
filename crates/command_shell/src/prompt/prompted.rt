//! A shell over files, which shows at a terminal what it holds.

ghost use Rattle.std.specs.Prelude.{◌≡◌, Option, IfOk, IfErr, IfSome};
ghost use Rattle.value.specs.Refusals.{out_of_memory};
ghost use Rattle.terminal.specs.Terminals.{IsFile};
ghost use Rattle.command_shell.specs.Asides.{TellsOn, TellsWhy, Why, unasked};

use crate::prompt::drawn::draw;
use crate::prompt::recalled::Recalled;
use crate::served::Served;
use program::files::{Files, ReadError};
use shell::conversation::handler::Handler;
use shell::shell::Shell;
use std::alloc::Allocator;
use std::marker::Model;
use std::time::Clock;
use terminal::attended::{Aside, Attended};
use value::refusal::{Code, Refusal};

/// A shell over files, and what is known of it at a terminal.
#[derive(Drop)]
pub(crate) struct Prompted<'s, 'm, F, T, K, A: Allocator> {
    served: Served<'s, 'm, F, T, A>,
    files: &'s F,
    clock: &'s K,
    recalled: Recalled<A>,
}

impl<'s, 'm, F, T, K, A: Allocator> Model for Prompted<'s, 'm, F, T, K, A> {
    ghost use Rattle.command_shell.specs.Asides.{Seen};

    ghost Value = { Seen F A };

    ghost view = { λ s. record { over = s.served; files = s.files.now; why = s.recalled } };
}

impl<'s, 'm, F, T, K: Clock, A: Allocator + Copy> Prompted<'s, 'm, F, T, K, A> {
    /// A shell of which nothing was asked yet.
    pub(crate) fn new(
        alloc: A,
        served: Served<'s, 'm, F, T, A>,
        files: &'s F,
        clock: &'s K,
    ) -> Prompted<'s, 'm, F, T, K, A>
        ensures { result ≡ unasked files.now served.entry }
    {
        Prompted {
            served,
            files,
            clock,
            recalled: Recalled::nothing(alloc),
        }
    }
}

// What the file of a path has, which may be no text; nothing where it can't be read.
fn read_file<A: Allocator, F: Files<A>>(
    alloc: A,
    files: &F,
    path: &[u8],
) -> Result<Option<Vec<u8, A>>, Refusal>
    ensures text { IfOk result (λ t. IfSome t (λ x. IsFile (F.held files.now path.now) x.items)) }
    ensures memory { IfErr result (λ e. e ≡ out_of_memory) }
{
    let Ok(path) = std::str::from_utf8(path) else {
        return Ok(None);
    };
    match files.read(alloc, path) {
        Ok(text) => Ok(Some(text)),
        Err(ReadError::Device) => Ok(None),
        Err(ReadError::Memory) => Err(Refusal::of_code(Code::OutOfMemory)),
    }
}

// Shows why a transaction was refused last, which is known from then on.
fn tell_why<'s, 'm, F, T, K, A: Allocator + Copy>(
    alloc: A,
    prompted: Prompted<'s, 'm, F, T, K, A>,
) -> Result<(Prompted<'s, 'm, F, T, K, A>, Vec<u8, A>), Refusal>
    ensures told { IfOk result (λ x. (v : Option Why) ×
        TellsWhy prompted.entry.over.shell.core prompted.entry.why v x.1.items ×
        (x.0 ≡ record prompted.entry { why = v })) }
    ensures memory { IfErr result (λ e. e ≡ out_of_memory) }
{
    let Prompted {
        served,
        files,
        clock,
        recalled,
    } = prompted;
    let (recalled, text) = recalled.tell_why(alloc, served.shell())?;
    let prompted = Prompted {
        served,
        files,
        clock,
        recalled,
    };
    Ok((prompted, text))
}

// Draws what was asked to the file of a path, and shows whether that went well.
fn tell_drawing<'s, 'm, F, T, K, A>(
    alloc: A,
    prompted: Prompted<'s, 'm, F, T, K, A>,
    path: &[u8],
) -> Result<(Prompted<'s, 'm, F, T, K, A>, Vec<u8, A>), Refusal>
where
    A: Allocator + Copy,
    F: Files<A>,
    ensures same { IfOk result (λ x. x.0 ≡ prompted.entry) }
    ensures told { IfOk result (λ x. TellsOn F.Out.path F.Out.kept prompted.entry.over.shell.core path.now x.1.items) }
    ensures memory { IfErr result (λ e. e ≡ out_of_memory) }
{
    let Prompted {
        served,
        files,
        clock,
        recalled,
    } = prompted;
    let text = draw(alloc, files, served.shell(), &recalled, path)?;
    let prompted = Prompted {
        served,
        files,
        clock,
        recalled,
    };
    Ok((prompted, text))
}

impl<'s, 'm, A, F, T, K> Handler<A> for Prompted<'s, 'm, F, T, K, A>
where
    A: Allocator + Copy,
    F: Files<A>,
    K: Clock,
{
    ghost use Rattle.command_shell.specs.Asides.{Replies};
    ghost use Rattle.program.specs.Files.{writing_of};

    ghost answers = { Replies (writing_of F.Out.path F.Out.kept F.Out.failures) F.held };

    fn answer(
        self,
        alloc: A,
        line: &[u8],
    ) -> Result<(Prompted<'s, 'm, F, T, K, A>, Vec<u8, A>), Refusal> {
        let Prompted {
            served,
            files,
            clock,
            recalled,
        } = self;
        let recalled = recalled.before(alloc, served.shell(), line)?;
        let (served, text) = served.answer(alloc, line)?;
        let recalled = recalled.after(alloc, served.shell(), line)?;
        let next = Prompted {
            served,
            files,
            clock,
            recalled,
        };
        Ok((next, text))
    }
}

impl<'s, 'm, A, F, T, K> Attended<A> for Prompted<'s, 'm, F, T, K, A>
where
    A: Allocator + Copy,
    F: Files<A>,
    K: Clock,
{
    ghost use Rattle.command_shell.specs.Asides.{Tells};

    ghost held = { λ p. p.over.shell };

    ghost tells = { Tells F.Out.path F.Out.kept };

    ghost files = { λ p path. F.held p.files path };

    fn shell(&self) -> &Shell<A> {
        self.served.shell()
    }

    fn tell(
        self,
        alloc: A,
        aside: Aside,
        text: &[u8],
    ) -> Result<(Prompted<'s, 'm, F, T, K, A>, Vec<u8, A>), Refusal> {
        match aside {
            Aside::Why => tell_why(alloc, self),
            Aside::Drawing => tell_drawing(alloc, self, text),
        }
    }

    fn file(&self, alloc: A, path: &[u8]) -> Result<Option<Vec<u8, A>>, Refusal> {
        read_file(alloc, self.files, path)
    }

    fn microseconds(&self) -> u64 {
        match self.clock.monotonic() {
            Ok(passed) => u64::try_from(passed.as_micros()).unwrap_or(0),
            Err(_) => 0,
        }
    }
}

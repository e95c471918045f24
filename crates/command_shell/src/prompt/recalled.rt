//! What is kept of the lines that were asked.

ghost use Rattle.std.specs.Prelude.{◌≡◌, None, IfOk, IfErr, codes};
ghost use Rattle.std.specs.Str.{bytes_eq};
ghost use Rattle.value.specs.Refusals.{out_of_memory};
ghost use Rattle.command_shell.specs.Asides as spec;
ghost use Rattle.command_shell.specs.Asides.{TellsWhy, known_as, numbers_to, refused_by, refused_in, why_shown};

use crate::prompt::refused::{LastRefusal, last_behind, tell_last};
use session::sessions::Core;
use shell::shell::Shell;
use std::alloc::Allocator;
use std::marker::Model;
use value::refusal::Refusal;

/// The lines of the events since the last checkpoint, and the last refusal because of other transactions, if there was
/// one.
#[derive(Drop)]
pub(crate) struct Recalled<A: Allocator> {
    asked: Vec<u8, A>,
    count: u64,
    refused: Option<LastRefusal<A>>,
}

impl<A: Allocator> Model for Recalled<A> {
    ghost use Rattle.std.specs.Prelude.{Option};
    ghost use Rattle.command_shell.specs.Asides.{Why};

    ghost Value = { Option Why };

    ghost view = { λ r. r.refused };
}

/// The numbers from 1 to a count of lines.
pub(crate) fn numbers<A: Allocator>(alloc: A, count: u64) -> Result<Vec<u64, A>, Refusal>
    ensures numbers { IfOk result (λ numbers. numbers.items ≡ numbers_to count) }
    ensures memory { IfErr result (λ e. e ≡ out_of_memory) }
{
    let mut numbers = Vec::new(alloc);
    for number in 0..count {
        numbers.push(number + 1)?;
    }
    Ok(numbers)
}

// Whether a line asks for a checkpoint.
fn is_checkpoint(line: &[u8]) -> bool
    ensures { result ≡ bytes_eq line.now (codes "CHECKPOINT;") }
{
    line == b"CHECKPOINT;".as_slice()
}

impl<A: Allocator + Copy> Recalled<A> {
    /// Nothing was asked yet.
    pub(crate) fn nothing(alloc: A) -> Recalled<A>
        ensures { result ≡ None }
    {
        Recalled {
            asked: Vec::new(alloc),
            count: 0,
            refused: None,
        }
    }

    /// Returns why a transaction was refused last, which is known from then on.
    pub(crate) fn tell_why(
        self,
        alloc: A,
        shell: &Shell<A>,
    ) -> Result<(Recalled<A>, Vec<u8, A>), Refusal>
        ensures told { IfOk result (λ x. TellsWhy shell.now.core self x.0 x.1.items) }
        ensures memory { IfErr result (λ e. e ≡ out_of_memory) }
    {
        let Recalled {
            asked,
            count,
            refused,
        } = self;
        let (refused, text) = tell_last(alloc, shell, refused)?;
        let recalled = Recalled {
            asked,
            count,
            refused,
        };
        Ok((recalled, text))
    }

    /// The lines of the events.
    pub(crate) fn asked(&self) -> &[u8] {
        self.asked.as_slice()
    }

    /// For each event the number of its line among these.
    pub(crate) fn numbers(&self, alloc: A) -> Result<Vec<u64, A>, Refusal>
        ensures memory { IfErr result (λ e. e ≡ out_of_memory) }
    {
        numbers(alloc, self.count)
    }

    // What is recalled, once the reason of the last refusal is found and kept.
    fn known(self, alloc: A, shell: &Shell<A>) -> Result<Recalled<A>, Refusal>
        ensures known { IfOk result (λ r. r ≡ known_as (why_shown shell.now.core self) self) }
        ensures memory { IfErr result (λ e. e ≡ out_of_memory) }
    {
        let (recalled, _told) = self.tell_why(alloc, shell)?;
        Ok(recalled)
    }

    /// What is recalled before a line. A checkpoint takes away the events that explain a refusal, so before one the
    /// reason of the last refusal is found, and kept.
    pub(crate) fn before(
        self,
        alloc: A,
        shell: &Shell<A>,
        line: &[u8],
    ) -> Result<Recalled<A>, Refusal>
        ensures recalled { IfOk result (λ r. r ≡ spec.recalled shell.now.core line.now self) }
        ensures memory { IfErr result (λ e. e ≡ out_of_memory) }
    {
        if is_checkpoint(line) {
            self.known(alloc, shell)
        } else {
            Ok(self)
        }
    }

    // What is recalled after a line that made an event.
    fn and(self, alloc: A, line: &[u8]) -> Result<Recalled<A>, Refusal>
        ensures same { IfOk result (λ r. r ≡ self) }
        ensures memory { IfErr result (λ e. e ≡ out_of_memory) }
    {
        let Recalled {
            mut asked,
            count,
            refused,
        } = self;
        asked.extend_from_slice(line)?;
        asked.push(b'\n')?;
        Ok(Recalled {
            asked,
            count: count.saturating_add(1),
            refused,
        })
    }

    // What is recalled after a checkpoint, which has taken the lines away.
    fn emptied(self, alloc: A) -> Recalled<A>
        ensures { result ≡ self }
    {
        let Recalled { refused, .. } = self;
        Recalled {
            asked: Vec::new(alloc),
            count: 0,
            refused,
        }
    }

    // What is recalled after a line that has left a core with `events` events.
    fn with_line(self, alloc: A, events: u64, line: &[u8]) -> Result<Recalled<A>, Refusal>
        ensures same { IfOk result (λ r. r ≡ self) }
        ensures memory { IfErr result (λ e. e ≡ out_of_memory) }
    {
        if events > self.count {
            self.and(alloc, line)
        } else if events < self.count {
            Ok(self.emptied(alloc))
        } else {
            Ok(self)
        }
    }

    // What is recalled, with the refusal of a core's last event where there is one.
    fn with_last(self, core: &Core<A>) -> Recalled<A>
        ensures { result ≡ refused_in core.now.records self }
    {
        let Recalled {
            asked,
            count,
            refused,
        } = self;
        Recalled {
            asked,
            count,
            refused: last_behind(refused, core.history()),
        }
    }

    /// What is recalled after a line that a shell was asked.
    pub(crate) fn after(
        self,
        alloc: A,
        shell: &Shell<A>,
        line: &[u8],
    ) -> Result<Recalled<A>, Refusal>
        ensures why { IfOk result (λ r. r ≡ refused_by shell.now.core self) }
        ensures memory { IfErr result (λ e. e ≡ out_of_memory) }
    {
        let Some(core) = shell.core() else {
            return Ok(self);
        };
        let events = core.history().records().len() as u64;
        let recalled = self.with_line(alloc, events, line)?;
        Ok(recalled.with_last(core))
    }
}

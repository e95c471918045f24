//! Where the workers of a dump hand its pieces over.

ghost use Rattle.std.specs.Prelude.{◌≡◌, ◌-◌, [], ℕ, List, true, false, IfOk, OnOk, OnErr, slice_index_or};
ghost use Rattle.dumpworker.specs.Shelved.{IsOffered};

use collector::{Collector, Device};
use schema::reader::SnapshotReader;
use std::alloc::Allocator;
use std::marker::{Brand, PhantomData};
use value::refusal::Refusal;

/// Which dump it is: the texts of its pieces, its device, and how that stood.
pub trait Job {
    ghost use Rattle.std.specs.Prelude.{ℕ, List};

    ghost texts: { List (List ℕ) };

    ghost name: { ℕ };

    ghost before: { List ℕ };

    ghost failures: { ℕ };
}

impl Job for Brand {
    ghost use Rattle.std.specs.Prelude.{[]};

    ghost texts = { [] };

    ghost name = { 0 };

    ghost before = { [] };

    ghost failures = { 0 };
}

/// That a shelf is stopped. Only a shelf makes this value.
#[derive(Drop)]
pub(crate) struct Stopped {
    by_shelf: (),
}

/// The collector of a dump, which lies under a lock.
pub(crate) struct Shelf<'a, R: SnapshotReader<A>, W: Device, A: Allocator, D: Job> {
    collector: Collector<'a, R, W, A>,
    // Whether a piece could not be made or written, so that the rest isn't made.
    is_stopped: bool,
    of: PhantomData<D>,
    ghost texts_are: { collector.texts ≡ D.texts },
    ghost name_is: { collector.name ≡ D.name },
    ghost before_is: { collector.before ≡ D.before },
    ghost failures_are: { collector.failures_before ≡ D.failures },
}

impl<'a, R: SnapshotReader<A>, W: Device, A: Allocator, D: Job> Shelf<'a, R, W, A, D> {
    /// A shelf that isn't stopped.
    pub(crate) fn new(collector: Collector<'a, R, W, A>) -> Shelf<'a, R, W, A, D>
        requires texts { collector.texts ≡ D.texts }
        requires name { collector.name ≡ D.name }
        requires before { (collector.before ≡ D.before) × (collector.failures_before ≡ D.failures) }
    {
        Shelf {
            collector,
            is_stopped: false,
            of: PhantomData,
        }
    }

    /// Takes a piece that a worker has made. Where it could not be made, or the collector doesn't
    /// take it, the shelf is stopped; and it stays so.
    pub(crate) fn take(
        &mut self,
        number: u64,
        made: Result<Vec<u8, A>, Refusal>,
    ) -> Result<(), Stopped>
        requires { IfOk made (λ text. text.items ≡ slice_index_or D.texts (number - 1) []) }
        ensures offered { OnOk made (IsOffered self.old.collector number self.old.is_stopped self.new.collector
            self.new.is_stopped) }
        ensures unmade { OnErr made ((self.new.collector ≡ self.old.collector) × (self.new.is_stopped ≡ true)) }
        ensures goes_on { OnOk result (self.new.is_stopped ≡ false) }
        ensures stopped { OnErr result (self.new.is_stopped ≡ true) }
    {
        match made {
            Ok(text) => {
                self.offer(number, text);
                self.goes_on()
            }
            Err(_) => {
                self.is_stopped = true;
                self.goes_on()
            }
        }
    }

    // Offers a piece to the collector. Where that doesn't take it, the shelf is stopped.
    fn offer(&mut self, number: u64, text: Vec<u8, A>)
        requires { text.items ≡ slice_index_or D.texts (number - 1) [] }
        ensures { IsOffered self.old.collector number self.old.is_stopped self.new.collector self.new.is_stopped }
    {
        match self.collector.offer(number, text) {
            Ok(()) => {}
            Err(_) => self.is_stopped = true,
        }
    }

    // Whether the workers go on.
    fn goes_on(&self) -> Result<(), Stopped>
        ensures goes_on { OnOk result (self.now.is_stopped ≡ false) }
        ensures stopped { OnErr result (self.now.is_stopped ≡ true) }
    {
        if self.is_stopped {
            return Err(Stopped { by_shelf: () });
        }
        Ok(())
    }

    /// The collector, when the workers have ended.
    pub(crate) fn into_collector(self) -> Collector<'a, R, W, A>
        ensures texts { result.texts ≡ D.texts }
        ensures name { result.name ≡ D.name }
        ensures before { (result.before ≡ D.before) × (result.failures_before ≡ D.failures) }
    {
        let Shelf {
            collector,
            is_stopped: _,
            of: _,
        } = self;
        collector
    }
}

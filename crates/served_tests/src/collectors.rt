//! Devices, and the collector of a dump's pieces.

ghost use Rattle.std.specs.Prelude.{◌≡◌, ◌-◌, ◌<◌, ◌≤◌, ◌∷◌, [], IfOk, slice_index_or};
ghost use Rattle.dumpplan.specs.Parts.{head_text, end_text};
ghost use Rattle.dumpplan.specs.declared.piece.Piece.TheVariants.{Head, End};

use crate::dumped::{check, cut, not_a_case};
use collector::{Collector, Device, DeviceError, Finish, OfferFault, write_all};
use dumpplan::text::{end_text, head_text};
use dumpplan::{PieceRows, Plan, plan};
use schema::catalog::Catalog;
use schema::tables::Tables;
use std::alloc::Global;
use std::process::Abort;
use value::refusal::{Code, Refusal};

// A device that takes at most three bytes a write, and fails at the given write, counted from 1.
#[derive(Drop)]
struct Narrow<'r, R: Abort> {
    rt: &'r R,
    taken: Vec<u8>,
    failures: u64,
    writes: u64,
    failing: u64,
}

impl<'r, R: Abort> Device for Narrow<'r, R> {
    ghost taken = { λ d. d.taken.items };

    ghost failures = { λ d. d.failures };

    fn write(&mut self, bytes: &[u8]) -> Result<usize, DeviceError> {
        self.writes = self.writes.wrapping_add(1);
        let count = bytes.len().min(3);
        if self.writes != self.failing && self.taken.extend_from_slice(&bytes[..count]).is_ok() {
            return Ok(count);
        }
        assert!(self.rt; self.failures < 9);
        self.failures += 1;
        Err(DeviceError)
    }
}

impl<'r, R: Abort> Narrow<'r, R> {
    fn new(rt: &'r R, alloc: Global, failing: u64) -> Narrow<'r, R> {
        Narrow {
            rt,
            taken: Vec::new(alloc),
            failures: 0,
            writes: 0,
            failing,
        }
    }

    // Whether it has taken `count` bytes, which begin the text, and failed if it was to.
    fn has_taken(&self, text: &str, count: usize, has_failed: bool) -> bool {
        self.taken.len() == count
            && text.as_bytes().starts_with(self.taken.as_slice())
            && self.failures == u64::from(has_failed)
    }
}

#[test]
fn bytes_are_written_in_order(rt: HostRuntime) {
    let text = "abcdefgh";
    for (failing, count) in [(0, 8), (1, 0), (2, 3), (3, 6), (4, 8)] {
        let mut device = Narrow::new(&rt, rt.alloc(), failing);
        let done = write_all(&mut device, text.as_bytes());
        let is_so = done.is_ok() == (count == 8) && device.has_taken(text, count, done.is_err());
        assert!(rt; is_so, "write {failing}");
    }
}

// The plan of no tables, which has two pieces.
fn plan_of_none(alloc: Global, tables: &Tables, catalog: &Catalog) -> Result<Plan, Refusal>
    requires catalog { catalog.now ≡ [] }
    requires tables { tables.now ≡ [] }
    ensures { IfOk result (λ plan. plan ≡ Head ∷ End ∷ []) }
{
    let one = PieceRows::new(1).ok_or(not_a_case())?;
    plan(alloc, tables, catalog, one)
}

// The text of a piece of that plan, and none of a number that is none of it.
fn text_of(alloc: Global, number: u64) -> Result<Vec<u8>, Refusal>
    ensures { IfOk result (λ text. 0 < number → number ≤ 2 → text.items ≡
        slice_index_or (head_text [] ∷ end_text ∷ []) (number - 1) []) }
{
    match number {
        1 => head_text(alloc, &Catalog::new(alloc)),
        2 => Ok(Vec::from_slice(alloc, end_text())?),
        _ => Ok(Vec::new(alloc)),
    }
}

fn word_of(answer: Result<(), OfferFault>) -> &'static str {
    match answer {
        Ok(()) => "taken",
        Err(OfferFault::Stranger) => "strange",
        Err(OfferFault::Repeat) => "again",
        Err(OfferFault::Device) => "fails",
        Err(OfferFault::Closed) => "closed",
    }
}

fn word_at_end(finish: Finish) -> &'static str {
    match finish {
        Finish::Done => "done",
        Finish::Failed => "failed",
        Finish::Missing(1) => "missing 1",
        Finish::Missing(2) => "missing 2",
        Finish::Missing(_) => "missing another",
    }
}

// Whether a piece that is offered has its answer, as `2 taken`.
fn is_answered<W: Device>(
    alloc: Global,
    collector: &mut Collector<'_, Tables, W, Global>,
    offer: &str,
) -> Result<bool, Refusal>
    requires { collector.old.texts ≡ head_text [] ∷ end_text ∷ [] }
    ensures { collector.new.texts ≡ collector.old.texts }
{
    let (number, wanted) = cut(offer, " ")?;
    let number = number.parse().ok().ok_or(not_a_case())?;
    let text = text_of(alloc, number)?;
    Ok(word_of(collector.offer(number, text)) == wanted)
}

// Whether the pieces that are offered one after the other have their answers.
fn are_answered<W: Device>(
    alloc: Global,
    collector: &mut Collector<'_, Tables, W, Global>,
    offers: &str,
) -> Result<bool, Refusal>
    requires { collector.old.texts ≡ head_text [] ∷ end_text ∷ [] }
{
    for offer in offers.split(", ") {
        if !is_answered(alloc, collector, offer)? {
            return Ok(false);
        }
    }
    Ok(true)
}

// Whether pieces of the dump of no tables, offered to a device, have their answers, and it ends so.
fn is_collected<R: Abort>(
    alloc: Global,
    catalog: &Catalog,
    tables: &Tables,
    plan: &Plan,
    device: &mut Narrow<'_, R>,
    case: &str,
) -> Result<bool, Refusal>
    requires catalog { catalog.now ≡ [] }
    requires tables { tables.now ≡ [] }
    requires plan { plan.now ≡ Head ∷ End ∷ [] }
{
    let (offers, end) = cut(case, " | ")?;
    let (end, count) = cut(end, " at ")?;
    let count = count.parse().ok().ok_or(not_a_case())?;
    let Ok(mut collector) = Collector::new(alloc, tables, catalog, plan, device) else {
        return Err(Refusal::of_code(Code::OutOfMemory));
    };
    let are_answered = are_answered(alloc, &mut collector, offers);
    let finish = collector.finish();
    let device = collector.into_device();
    let has_taken = device.has_taken("-- dump 2\n-- end\n", count, finish == Finish::Failed);
    Ok(are_answered? && has_taken && word_at_end(finish) == end)
}

fn is_so(rt: &impl Abort, alloc: Global, case: &str) -> Result<bool, Refusal> {
    let (failing, case) = cut(case, ": ")?;
    let failing = failing.parse().ok().ok_or(not_a_case())?;
    let catalog = Catalog::new(alloc);
    let tables = Tables::new(alloc, &catalog)?;
    let plan = plan_of_none(alloc, &tables, &catalog)?;
    let mut device = Narrow::new(rt, alloc, failing);
    is_collected(alloc, &catalog, &tables, &plan, &mut device, case)
}

// Which write fails, if any; pieces that are offered, each with its answer; how it ends, and at which byte.
const OFFERS: &str = "\
0: 0 strange, 3 strange, 2 taken, 2 again | missing 1 at 0
0: 1 taken, 1 again, 0 strange | missing 2 at 10
0: 2 taken, 1 taken, 1 again, 2 again, 3 strange | done at 17
1: 2 taken, 1 fails, 1 closed, 0 closed, 3 closed | failed at 0
3: 2 taken, 1 fails, 1 closed, 0 closed, 3 closed | failed at 6
5: 2 taken, 1 fails, 1 closed, 0 closed, 3 closed | failed at 10
6: 1 taken, 2 fails, 2 closed, 1 closed | failed at 13";

#[test]
fn pieces_are_offered_in_any_order_and_to_a_device_that_fails(
    rt: HostRuntime,
) -> Result<(), Refusal> {
    for case in OFFERS.lines() {
        check(&rt, is_so(&rt, rt.alloc(), case)?, case);
    }
    Ok(())
}

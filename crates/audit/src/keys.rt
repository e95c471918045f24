//! The serial order of a core's history.

ghost use Rattle.std.specs.Prelude.{◌≡◌, map, IfOk, IfErr};
ghost use Rattle.std.specs.List.Sorted.{IsSortedBy, IsStableBy};
ghost use Rattle.value.specs.Isolation as spec;
ghost use Rattle.value.specs.Refusals.{out_of_memory};
ghost use Rattle.history.specs.Events.{world};
ghost use Rattle.history.specs.Serial as serial;
ghost use Rattle.serial.specs.Serializable.{IsSerializable};
ghost use Rattle.transactions.specs.Keys.{keyed, parts};
ghost use Rattle.audit.specs.Sorting.{comes_before};

use history::key::SerialKey;
use serial::laws::legal_histories_are_serializable;
use session::sessions::Core;
use std::alloc::Allocator;
use std::cmp::Ordering;
use value::refusal::{Refusal, TxnNo};

// How two keys compare.
fn compare(left: SerialKey, right: SerialKey) -> Ordering
    ensures { result ≡ spec.key_cmp (parts left) (parts right) }
{
    let last = left.1.cmp(&right.1).then(left.2.cmp(&right.2));
    left.0.cmp(&right.0).then(last)
}

// Entries in the order of their keys; those of one key as they were.
fn sorted<A: Allocator>(
    alloc: A,
    entries: &[(TxnNo, SerialKey)],
) -> Result<Vec<(TxnNo, SerialKey), A>, Refusal>
    ensures order { IfOk result (λ order. IsSortedBy comes_before order.items) }
    ensures stable { IfOk result (λ order. IsStableBy comes_before entries.now order.items) }
    ensures memory { IfErr result (λ e. e ≡ out_of_memory) }
{
    let mut order = Vec::from_slice(alloc, entries)?;
    order.sort_by(|left, right| compare(left.1, right.1))?;
    Ok(order)
}

/// The committed transactions in the serial order, each with its serial key. Whatever the answer, the
/// history is serializable, by that order.
pub fn serial_keys<A: Allocator + Copy>(
    alloc: A,
    core: &Core<A>,
) -> Result<Vec<(TxnNo, SerialKey), A>, Refusal>
    ensures ok { IfOk result (λ keys. map keyed keys.items ≡
        serial.with_keys (world core.now) (serial.serial_order (world core.now))) }
    ensures memory { IfErr result (λ e. e ≡ out_of_memory) }
    ensures serializable { IsSerializable core.now.opening core.now.records }
{
    core.is_legal();
    legal_histories_are_serializable::<A>();
    sorted(alloc, core.keys())
}

// The numbers of entries.
fn numbers_of<A: Allocator>(
    alloc: A,
    entries: &[(TxnNo, SerialKey)],
) -> Result<Vec<TxnNo, A>, Refusal>
    ensures ok { IfOk result (λ numbers. map (λ n. n.0) numbers.items ≡ map (λ e. e.0.0) entries.now) }
    ensures memory { IfErr result (λ e. e ≡ out_of_memory) }
{
    let mut numbers = Vec::new(alloc);
    for entry in entries {
        numbers.push(entry.0)?;
    }
    Ok(numbers)
}

/// The committed transactions in the serial order. Whatever the answer, the history is serializable,
/// by that order.
pub fn serial_order<A: Allocator + Copy>(alloc: A, core: &Core<A>) -> Result<Vec<TxnNo, A>, Refusal>
    ensures ok { IfOk result (λ numbers. map (λ n. n.0) numbers.items ≡
        map (λ t. t.number) (serial.serial_order (world core.now))) }
    ensures memory { IfErr result (λ e. e ≡ out_of_memory) }
    ensures serializable { IsSerializable core.now.opening core.now.records }
{
    let keys = serial_keys(alloc, core)?;
    numbers_of(alloc, keys.as_slice())
}

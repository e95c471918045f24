//! Numbers of transactions, in their order.

ghost use Rattle.std.specs.Prelude.{◌≡◌, ◌==◌, ◌≤◌, nat_lt, true, false, length, slice_get, take, drop, OnErr, OnOk, IfErr, IfNone, IfOk, IfSome};
ghost use Rattle.std.specs.Option.{option_map_or};
ghost use Rattle.value.specs.Refusals.{out_of_memory};
ghost use Rattle.conflict.specs.Tracked.{Ascending, Each, put_in, without};
ghost use Rattle.conflict.specs.Undo.{IsGap, IsPlace};

use std::alloc::Allocator;
use value::refusal::Refusal;

// The place of the first number from a number on.
fn start(numbers: &[u64], number: u64) -> usize
    requires { Ascending numbers.now }
    ensures bound { result ≤ length numbers.now }
    ensures before { Each (λ m. nat_lt m number ≡ true) (take result numbers.now) }
    ensures after { Each (λ m. nat_lt m number ≡ false) (drop result numbers.now) }
{
    numbers.partition_point(
        |other: &u64| -> bool
            ensures { result ≡ nat_lt other.now number }
        { *other < number },
    )
}

// Whether a number stands at a place.
fn is_at(numbers: &[u64], place: usize, number: u64) -> bool
    ensures { result ≡ option_map_or (λ m. m == number) (slice_get numbers.now place) false }
{
    match numbers.get(place) {
        Some(other) => *other == number,
        None => false,
    }
}

// The place of a number, if it is there.
fn position(numbers: &[u64], number: u64) -> Option<usize>
    requires { Ascending numbers.now }
    ensures some { IfSome result (λ i. IsPlace i number numbers.now) }
    ensures none { IfNone result (without number numbers.now ≡ numbers.now) }
{
    let place = start(numbers, number);
    if is_at(numbers, place, number) {
        Some(place)
    } else {
        None
    }
}

// The place that a number is put in at, unless it is there.
fn gap(numbers: &[u64], number: u64) -> Option<usize>
    requires { Ascending numbers.now }
    ensures some { IfSome result (λ i. IsGap i number numbers.now) }
    ensures none { IfNone result (put_in number numbers.now ≡ numbers.now) }
{
    let place = start(numbers, number);
    if is_at(numbers, place, number) {
        None
    } else {
        Some(place)
    }
}

/// Puts a number in its place; whether it wasn't there.
pub fn put<A: Allocator>(numbers: &mut Vec<u64, A>, number: u64) -> Result<bool, Refusal>
    requires { Ascending numbers.old.items }
    ensures ok { OnOk result (numbers.new.items ≡ put_in number numbers.old.items) }
    ensures new { IfOk result (λ new. new ≡ true → without number numbers.new.items ≡ numbers.old.items) }
    ensures same { IfOk result (λ new. new ≡ false → numbers.new.items ≡ numbers.old.items) }
    ensures err { OnErr result (numbers.new.items ≡ numbers.old.items) }
    ensures memory { IfErr result (λ e. e ≡ out_of_memory) }
{
    let Some(place) = gap(numbers.as_slice(), number) else {
        return Ok(false);
    };
    numbers.insert(place, number)?;
    Ok(true)
}

/// Takes a number out, where it is there.
pub fn take_out<A: Allocator>(numbers: &mut Vec<u64, A>, number: u64)
    requires { Ascending numbers.old.items }
    ensures { numbers.new.items ≡ without number numbers.old.items }
{
    if let Some(place) = position(numbers.as_slice(), number) {
        let _ = numbers.remove(place);
    }
}

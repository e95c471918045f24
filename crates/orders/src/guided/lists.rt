//! Elements of lists by place.

ghost use Rattle.std.specs.Prelude.{◌≡◌, IfErr};
ghost use Rattle.value.specs.Refusals.{out_of_memory};

use std::alloc::Allocator;
use value::refusal::Refusal;

/// The element at a place, or another where there is none.
pub(crate) fn at<T: Copy>(list: &[T], place: usize, or: T) -> T {
    match list.get(place) {
        Some(item) => *item,
        None => or,
    }
}

/// Puts an element in place of another, where there is one.
pub(crate) fn put<T: Copy>(list: &mut [T], place: usize, item: T) {
    if let Some(slot) = list.get_mut(place) {
        *slot = item;
    }
}

/// So many equal elements.
pub(crate) fn repeated<A: Allocator, T: Copy>(
    alloc: A,
    count: usize,
    item: T,
) -> Result<Vec<T, A>, Refusal>
    ensures { IfErr result (λ e. e ≡ out_of_memory) }
{
    let mut list = Vec::with_capacity(alloc, count)?;
    for _ in 0..count {
        list.push(item)?;
    }
    Ok(list)
}

/// So many empty lists.
pub(crate) fn empty_lists<A: Allocator + Copy, T: Drop>(
    alloc: A,
    count: usize,
) -> Result<Vec<Vec<T, A>, A>, Refusal>
    ensures { IfErr result (λ e. e ≡ out_of_memory) }
{
    let mut lists = Vec::with_capacity(alloc, count)?;
    for _ in 0..count {
        lists.push(Vec::new(alloc))?;
    }
    Ok(lists)
}

/// Adds an element to the list at a place, if there is one.
pub(crate) fn push_at<A: Allocator, T: Drop>(
    lists: &mut [Vec<T, A>],
    place: usize,
    item: T,
) -> Result<(), Refusal>
    ensures { IfErr result (λ e. e ≡ out_of_memory) }
{
    if let Some(list) = lists.get_mut(place) {
        list.push(item)?;
    }
    Ok(())
}

/// The list at a place; an empty one where there is none.
pub(crate) fn list_at<A: Allocator, T>(lists: &[Vec<T, A>], place: usize) -> &[T] {
    match lists.get(place) {
        Some(list) => list.as_slice(),
        None => &[],
    }
}

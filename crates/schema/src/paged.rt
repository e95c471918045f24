//! What has keys, page by page in key order: where a bound or a key stands among it.

ghost use Rattle.std.specs.Prelude.{◌≡◌, ◌≤◌, ◌<◌, ◌+◌, ◌++◌, List, true, false, not, length, take, drop, find, slice_get, OnErr, IfOk, IfErr, IsTrue};
ghost use Rattle.std.specs.List.{AllByRecursion, flat_map};
ghost use Rattle.std.specs.Option.{option_copied, option_map_or};
ghost use Rattle.value.specs.Refusals.{out_of_memory};
ghost use Rattle.value.specs.declared.value.Value.{Value};
ghost use Rattle.schema.specs.Pages.{has_items, IsInOrder, IsLeast, IsBehind, is_before, AreLaidOut, IsPlaced};
ghost use Rattle.schema.specs.Plain.{same};
ghost use Rattle.schema.specs.Rows.{is_within};

use crate::reader::Bound;
use std::alloc::Allocator;
use value::key::Key;
use value::refusal::Refusal;
use value::value::Value;

/// What has a key.
pub trait Keyed<A: Allocator> {
    ghost key_of: { Self → Value A };

    fn key(&self) -> &Key<A>
        ensures { result.now ≡ key_of self.now };
}

/// What has a page: some items with keys, in key order.
pub trait Paged<A: Allocator> {
    type Item: Keyed<A>;

    ghost items_of: { Self → List Self.Item };

    fn items(&self) -> &[Self::Item]
        ensures items { result.now ≡ items_of self.now }
        ensures ordered { IsInOrder Self.Item.key_of (items_of self.now) };
}

// Whether a key comes before all that a bound lets in.
fn comes_before<A: Allocator>(key: &Value<A>, bound: Bound<&Value<A>>) -> bool
    ensures { result ≡ not (is_within bound.entry key.now) }
{
    match bound {
        Bound::Start => false,
        Bound::From(first) => !first.cmp(key).is_le(),
        Bound::After(before) => !before.cmp(key).is_lt(),
    }
}

/// The place of the first item within a bound.
pub fn start<A: Allocator, T: Keyed<A>>(items: &[T], bound: Bound<&Value<A>>) -> usize
    requires { IsInOrder T.key_of items.now }
    ensures within_length { result ≤ length items.now }
    ensures before { AllByRecursion (λ x. is_within bound.entry (T.key_of x) ≡ false) (take result items.now) }
    ensures within { AllByRecursion (λ x. is_within bound.entry (T.key_of x) ≡ true) (drop result items.now) }
{
    items.partition_point(
        |item: &T| -> bool
            ensures { result ≡ not (is_within bound.entry (T.key_of item.now)) }
        { comes_before(item.key().value(), bound) },
    )
}

/// What stands at a place.
pub(crate) fn at<T>(items: &[T], place: usize) -> Option<&T>
    ensures { option_copied result ≡ slice_get items.now place }
{
    items.get(place)
}

// Whether an item is of a key.
fn is_of<A: Allocator, T: Keyed<A>>(item: &T, key: &Value<A>) -> bool
    ensures { result ≡ same key.now (T.key_of item.now) }
{
    key.cmp(item.key().value()).is_eq()
}

/// Whether an item of a key stands at a place.
pub fn is_at<A: Allocator, T: Keyed<A>>(items: &[T], place: usize, key: &Value<A>) -> bool
    ensures { result ≡ option_map_or (λ x. same key.now (T.key_of x)) (slice_get items.now place) false }
{
    match at(items, place) {
        Some(item) => is_of(item, key),
        None => false,
    }
}

/// The item of a key.
pub fn find<'t, A: Allocator, T: Keyed<A>>(items: &'t [T], key: &Value<A>) -> Option<&'t T>
    requires { IsInOrder T.key_of items.now }
    ensures { option_copied result ≡ find (λ x. same key.now (T.key_of x)) items.now }
{
    match at(items, start(items, Bound::From(key))) {
        Some(item) => { if is_of(item, key) { Some(item) } else { None } }
        None => None,
    }
}

/// Whether no item is within a bound.
pub(crate) fn is_before<A: Allocator, T: Keyed<A>>(items: &[T], bound: Bound<&Value<A>>) -> bool
    requires { IsInOrder T.key_of items.now }
    ensures { result ≡ is_before T.key_of bound.entry items.now }
{
    match items.last() {
        Some(item) => comes_before(item.key().value(), bound),
        None => true,
    }
}

/// Moves the upper half of the items out.
pub fn cut<A: Allocator + Copy, T: Keyed<A>>(items: &mut Vec<T, A>) -> Result<Vec<T, A>, Refusal>
    requires two { 2 ≤ length items.old.items }
    requires ordered { IsInOrder T.key_of items.old.items }
    ensures parts { IfOk result (λ upper. items.new.items ++ upper.items ≡ items.old.items) }
    ensures some { IfOk result (λ upper.
        (has_items items.new.items ≡ true) × (has_items upper.items ≡ true)) }
    ensures ordered { IsInOrder T.key_of items.new.items }
    ensures ordered_upper { IfOk result (λ upper. IsInOrder T.key_of upper.items) }
    ensures err { OnErr result (items.new.items ≡ items.old.items) }
    ensures memory { IfErr result (λ e. e ≡ out_of_memory) }
{
    let half = items.len() / 2;
    let upper = items.split_off(half)?;
    Ok(upper)
}

/// The place of the first page with an item within a bound.
pub fn first_page<A: Allocator, P: Paged<A>>(pages: &[P], bound: Bound<&Value<A>>) -> usize
    requires { AreLaidOut P.Item.key_of P.items_of pages.now }
    ensures within_length { result ≤ length pages.now }
    ensures before { AllByRecursion (λ page. is_before P.Item.key_of bound.entry (P.items_of page) ≡ true)
        (take result pages.now) }
    ensures within { AllByRecursion (λ page. is_before P.Item.key_of bound.entry (P.items_of page) ≡ false)
        (drop result pages.now) }
{
    pages.partition_point(
        |page: &P| -> bool
            ensures { result ≡ is_before P.Item.key_of bound.entry (P.items_of page.now) }
        { is_before(page.items(), bound) },
    )
}

/// The place of the page that a key belongs to.
pub fn place_of<A: Allocator, P: Paged<A>>(pages: &[P], key: &Value<A>) -> usize
    requires laid_out { AreLaidOut P.Item.key_of P.items_of pages.now }
    requires some { 0 < length pages.now }
    ensures range { result < length pages.now }
    ensures placed { IsPlaced P.Item.key_of P.items_of key.now pages.now result }
{
    let from = first_page(pages, Bound::From(key));
    if from < pages.len() {
        from
    } else {
        pages.len() - 1
    }
}

// Whether a page stands at a place, and none of its items is within a bound.
fn is_before_at<A: Allocator, P: Paged<A>>(
    pages: &[P],
    place: usize,
    bound: Bound<&Value<A>>,
) -> bool
    ensures { result ≡ option_map_or (λ page. is_before P.Item.key_of bound.entry (P.items_of page))
        (slice_get pages.now place) false }
{
    match at(pages, place) {
        Some(page) => is_before(page.items(), bound),
        None => false,
    }
}

// Whether a key is known to be above all items of the pages before a place.
fn is_above_those_before<A: Allocator, P: Paged<A>>(
    pages: &[P],
    place: usize,
    key: &Value<A>,
) -> bool
    requires { AreLaidOut P.Item.key_of P.items_of pages.now }
    ensures { IsTrue result → IsBehind P.Item.key_of key.now (flat_map P.items_of (take place pages.now)) }
{
    place == 0 || is_before_at(pages, place - 1, Bound::From(key))
}

// Whether a key is known to be below all items of the pages behind a place.
fn is_below_those_behind<A: Allocator, P: Paged<A>>(
    pages: &[P],
    place: usize,
    key: &Value<A>,
) -> bool
    requires laid_out { AreLaidOut P.Item.key_of P.items_of pages.now }
    requires range { place < length pages.now }
    ensures { IsTrue result → IsLeast P.Item.key_of key.now (flat_map P.items_of (drop (place + 1) pages.now)) }
{
    place + 1 == pages.len() || !is_before_at(pages, place, Bound::From(key))
}

// Whether a key is known to belong to the page at a place.
fn belongs_to<A: Allocator, P: Paged<A>>(pages: &[P], place: usize, key: &Value<A>) -> bool
    requires { AreLaidOut P.Item.key_of P.items_of pages.now }
    ensures range { IsTrue result → place < length pages.now }
    ensures placed { IsTrue result → IsPlaced P.Item.key_of P.items_of key.now pages.now place }
{
    place < pages.len()
        && is_above_those_before(pages, place, key)
        && is_below_those_behind(pages, place, key)
}

/// The place of the page that a key belongs to, asked for first at a place and behind it: keys mostly come in order.
pub fn place_near<A: Allocator, P: Paged<A>>(pages: &[P], near: usize, key: &Value<A>) -> usize
    requires laid_out { AreLaidOut P.Item.key_of P.items_of pages.now }
    requires some { 0 < length pages.now }
    ensures range { result < length pages.now }
    ensures placed { IsPlaced P.Item.key_of P.items_of key.now pages.now result }
{
    if belongs_to(pages, near, key) {
        return near;
    }
    if near < pages.len() && belongs_to(pages, near + 1, key) {
        return near + 1;
    }
    place_of(pages, key)
}

/// The item of a key, among all pages. The last is asked for it first: keys mostly come in order.
pub fn find_among<'p, A: Allocator, P: Paged<A>>(
    pages: &'p [P],
    key: &Value<A>,
) -> Option<&'p P::Item>
    requires { AreLaidOut P.Item.key_of P.items_of pages.now }
    ensures { option_copied result ≡ find (λ x. same key.now (P.Item.key_of x)) (flat_map P.items_of pages.now) }
{
    if pages.is_empty() {
        return None;
    }
    let page = &pages[place_near(pages, pages.len() - 1, key)];
    find(page.items(), key)
}

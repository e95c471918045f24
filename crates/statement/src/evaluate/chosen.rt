//! The rows that a WHERE chooses, read from the lower end of its interval to the upper end.

ghost use Rattle.std.specs.Prelude.{◌≡◌, ◌++◌, [], ◌∷◌, true, false, IsTrue, map, filter, OnOk, IfOk, IfErr, IfSome};
ghost use Rattle.std.specs.FinMap.{is_sorted};
ghost use Rattle.std.specs.List.{AllByRecursion, list_all};
ghost use Rattle.std.specs.Option.{option_copied};
ghost use Rattle.std.specs.declared.cmp.Ordering.TheVariants.{Equal};
ghost use Rattle.value.specs.Order.{value_cmp};
ghost use Rattle.value.specs.Refusals.{out_of_memory};
ghost use Rattle.value.specs.declared.value.Value.{Value as Datum};
ghost use Rattle.schema.specs.Plain.{rows_of};
ghost use Rattle.schema.specs.Rows.{HasTable, IsInKeyOrder, is_within};
ghost use Rattle.schema.specs.Walking.{lent, rows_to_come};
ghost use Rattle.statement.specs.Conditions.{satisfies, chosen};
ghost use Rattle.statement.specs.Cover.{is_from, is_to};
ghost use Rattle.statement.specs.Select.{HasColumns};
ghost use Rattle.statement.specs.Walk.{AreReadable, IsWithin, IsAt, NoneBehind, bounds_key, is_bound, listed};
ghost use Rattle.statement.specs.declared.reading.End.TheVariants.{Open};

use crate::condition::{Comparison, Condition};
use crate::evaluate::rows::satisfies;
use crate::interval::{Interval, intersection};
use crate::reading::End;
use schema::catalog::TableNo;
use schema::reader::{Bound, SnapshotReader};
use schema::row::Row;
use schema::walk::{first_rows, rows_behind};
use std::alloc::Allocator;
use value::key::Key;
use value::refusal::Refusal;

// Adds a row, where it meets all conditions, and says whether it does.
fn push_chosen<'r, A: Allocator>(
    conditions: &[Condition<A>],
    row: &'r Row<A>,
    chosen: &mut Vec<&'r Row<A>, A>,
) -> Result<bool, Refusal>
    requires { HasColumns conditions.now row.now }
    ensures ok { OnOk result (map (λ row. row.now) chosen.new.items ≡ map (λ row. row.now) chosen.old.items ++
        filter (satisfies conditions.now) (row.now ∷ [])) }
    ensures says { IfOk result (λ b. b ≡ satisfies conditions.now row.now) }
    ensures err { IfErr result (λ e. e ≡ out_of_memory) }
{
    if satisfies(conditions, row) {
        chosen.push(row)?;
        Ok(true)
    } else {
        Ok(false)
    }
}

// Adds the row that was found, where one was and it meets all conditions.
fn push_found<'r, A: Allocator>(
    conditions: &[Condition<A>],
    found: Option<&'r Row<A>>,
    chosen: &mut Vec<&'r Row<A>, A>,
) -> Result<(), Refusal>
    requires { IfSome found (λ row. HasColumns conditions.now row.now) }
    ensures ok { OnOk result (map (λ row. row.now) chosen.new.items ≡ map (λ row. row.now) chosen.old.items ++
        filter (satisfies conditions.now) (listed (option_copied found.entry))) }
    ensures err { IfErr result (λ e. e ≡ out_of_memory) }
{
    if let Some(row) = found {
        let _ = push_chosen(conditions, row, chosen)?;
    }
    Ok(())
}

// Whether a key isn't above an upper end.
fn is_to<A: Allocator>(end: &End<A>, key: &Key<A>) -> bool
    ensures { result ≡ is_to end.now key.now }
{
    match end {
        End::Open => true,
        End::Closed(last) => last.cmp(key).is_ge(),
        End::Without(limit) => limit.cmp(key).is_gt(),
    }
}

// Whether a row is known to be above an upper end. One that is chosen isn't, and needn't be compared.
fn is_above<A: Allocator>(is_chosen: bool, end: &End<A>, row: &Row<A>) -> bool
    ensures { IsTrue result → is_to end.now row.now.0 ≡ false }
{
    !is_chosen && !is_to(end, row.key())
}

// A lower end as a bound of a reading.
fn lower_bound<A: Allocator>(end: &End<A>) -> Bound<&Key<A>>
    ensures { (k : Datum A) → is_within result k ≡ is_from end.now k }
{
    match end {
        End::Open => Bound::Start,
        End::Closed(first) => Bound::From(first),
        End::Without(before) => Bound::After(before),
    }
}

// The first rows that aren't below a lower end.
fn rows_from<'r, A: Allocator + Copy, R: SnapshotReader<A>>(
    alloc: A,
    reader: &'r R,
    table: TableNo,
    end: &End<A>,
) -> Result<Vec<&'r Row<A>, A>, Refusal>
    requires { HasTable (R.tables reader.now) table }
    ensures rows { IfOk result (λ batch. rows_to_come (rows_of (R.tables reader.now) table) (lent batch.items) 0 ≡
        filter (λ row. is_from end.now row.0) (rows_of (R.tables reader.now) table)) }
    ensures ordered { IsInKeyOrder (rows_of (R.tables reader.now) table) }
    ensures err { IfErr result (λ e. e ≡ out_of_memory) }
{
    let bound = lower_bound(end);
    first_rows(alloc, reader, table, bound)
}

// Whether a comparison is met between two that meet it.
fn is_bound(comparison: Comparison) -> bool
    ensures { result ≡ is_bound comparison }
{
    match comparison {
        Comparison::Equal | Comparison::NotEqual => false,
        Comparison::Less
        | Comparison::LessOrEqual
        | Comparison::Greater
        | Comparison::GreaterOrEqual => true,
    }
}

// Whether a condition on the key is met between two keys that meet it.
fn bounds_key<A: Allocator>(condition: &Condition<A>) -> bool
    ensures { result ≡ bounds_key condition.now }
{
    match condition {
        Condition::Compare(column, comparison, _) => *column == 0 && is_bound(*comparison),
        Condition::Between(column, _, _) => *column == 0,
        Condition::IsNull(_) | Condition::IsNotNull(_) => false,
    }
}

// Whether all conditions are such ones.
fn bound_key<A: Allocator>(conditions: &[Condition<A>]) -> bool
    ensures { result ≡ list_all bounds_key conditions.now }
{
    for condition in conditions {
        if !bounds_key(condition) {
            return false;
        }
    }
    true
}

// Whether all rows of a batch are known to meet all conditions: these bound the key, and the first row and the last meet
// them.
fn all_meet<A: Allocator>(conditions: &[Condition<A>], batch: &[&Row<A>]) -> bool
    requires columns { AllByRecursion (λ row. HasColumns conditions.now row) (lent batch.now) }
    requires ordered { IsInKeyOrder (lent batch.now) }
    ensures { IsTrue result → filter (satisfies conditions.now) (lent batch.now) ≡ lent batch.now }
{
    if !bound_key(conditions) {
        return false;
    }
    let Some(first) = batch.first() else {
        return false;
    };
    if !satisfies(conditions, first) {
        return false;
    }
    match batch.last() {
        Some(last) => satisfies(conditions, last),
        None => false,
    }
}

// Adds the rows of a batch that meet all conditions, and says whether one is known to be above an upper end: then no row
// behind the batch meets them.
fn push_batch<'r, A: Allocator>(
    conditions: &[Condition<A>],
    batch: &[&'r Row<A>],
    high: &End<A>,
    chosen: &mut Vec<&'r Row<A>, A>,
) -> Result<bool, Refusal>
    requires within { AllByRecursion (λ row. IsWithin conditions.now Open high.now row) (lent batch.now) }
    requires ordered { IsInKeyOrder (lent batch.now) }
    ensures ok { OnOk result (map (λ row. row.now) chosen.new.items ≡ map (λ row. row.now) chosen.old.items ++
        filter (satisfies conditions.now) (lent batch.now)) }
    ensures above { IfOk result (λ above. IsTrue above → NoneBehind conditions.now high.now (lent batch.now)) }
    ensures err { IfErr result (λ e. e ≡ out_of_memory) }
{
    if all_meet(conditions, batch) {
        chosen.extend_from_slice(batch)?;
        return Ok(false);
    }
    for row in batch {
        let is_chosen = push_chosen(conditions, row, chosen)?;
        if is_above(is_chosen, high, row) {
            return Ok(true);
        }
    }
    Ok(false)
}

// The rows that satisfy the conditions, where all that do are between two ends.
fn chosen_between<'r, A: Allocator + Copy, R: SnapshotReader<A>>(
    alloc: A,
    reader: &'r R,
    table: TableNo,
    conditions: &[Condition<A>],
    low: &End<A>,
    high: &End<A>,
) -> Result<Vec<&'r Row<A>, A>, Refusal>
    requires has { HasTable (R.tables reader.now) table }
    requires within { AllByRecursion (λ row. IsWithin conditions.now low.now high.now row)
        (rows_of (R.tables reader.now) table) }
    ensures ok { IfOk result (λ rows. map (λ row. row.now) rows.items ≡
        chosen (R.tables reader.now) table conditions.now) }
    ensures err { IfErr result (λ e. e ≡ out_of_memory) }
{
    let mut chosen = Vec::new(alloc);
    let mut batch = rows_from(alloc, reader, table, low)?;
    while !batch.is_empty() {
        if push_batch(conditions, batch.as_slice(), high, &mut chosen)? {
            return Ok(chosen);
        }
        batch = rows_behind(alloc, reader, table, batch.as_slice())?;
    }
    Ok(chosen)
}

// The row of a key, where it satisfies the conditions and no other does.
fn chosen_at<'r, A: Allocator, R: SnapshotReader<A>>(
    alloc: A,
    reader: &'r R,
    table: TableNo,
    conditions: &[Condition<A>],
    key: &Key<A>,
) -> Result<Vec<&'r Row<A>, A>, Refusal>
    requires has { HasTable (R.tables reader.now) table }
    requires sorted { is_sorted value_cmp (rows_of (R.tables reader.now) table) ≡ true }
    requires at { AllByRecursion (λ row. IsAt conditions.now key.now row) (rows_of (R.tables reader.now) table) }
    ensures ok { IfOk result (λ rows. map (λ row. row.now) rows.items ≡
        chosen (R.tables reader.now) table conditions.now) }
    ensures err { IfErr result (λ e. e ≡ out_of_memory) }
{
    let found = reader.get(table, key);
    let mut chosen = Vec::new(alloc);
    push_found(conditions, found, &mut chosen)?;
    Ok(chosen)
}

// The only key between two ends, where they are the same and both included.
fn only_key<'e, A: Allocator>(low: &'e End<A>, high: &End<A>) -> Option<&'e Key<A>>
    ensures { IfSome result (λ key. (k : Datum A) → is_from low.now k ≡ true → is_to high.now k ≡ true →
        value_cmp key.now k ≡ Equal) }
{
    match (low, high) {
        (End::Closed(first), End::Closed(last)) => {
            if first.cmp(last).is_eq() {
                Some(first)
            } else {
                None
            }
        }
        _ => None,
    }
}

// The rows that satisfy the conditions, where all that do are between two ends.
fn chosen_within<'r, A: Allocator + Copy, R: SnapshotReader<A>>(
    alloc: A,
    reader: &'r R,
    table: TableNo,
    conditions: &[Condition<A>],
    low: &End<A>,
    high: &End<A>,
) -> Result<Vec<&'r Row<A>, A>, Refusal>
    requires has { HasTable (R.tables reader.now) table }
    requires sorted { is_sorted value_cmp (rows_of (R.tables reader.now) table) ≡ true }
    requires within { AllByRecursion (λ row. IsWithin conditions.now low.now high.now row)
        (rows_of (R.tables reader.now) table) }
    ensures ok { IfOk result (λ rows. map (λ row. row.now) rows.items ≡
        chosen (R.tables reader.now) table conditions.now) }
    ensures err { IfErr result (λ e. e ≡ out_of_memory) }
{
    match only_key(low, high) {
        Some(key) => chosen_at(alloc, reader, table, conditions, key),
        None => chosen_between(alloc, reader, table, conditions, low, high),
    }
}

/// The rows of a table that satisfy all conditions, by key.
pub(crate) fn chosen<'r, A: Allocator + Copy, R: SnapshotReader<A>>(
    alloc: A,
    reader: &'r R,
    table: TableNo,
    conditions: &[Condition<A>],
) -> Result<Vec<&'r Row<A>, A>, Refusal>
    requires has { HasTable (R.tables reader.now) table }
    requires readable { AreReadable conditions.now (rows_of (R.tables reader.now) table) }
    ensures ok { IfOk result (λ rows. map (λ row. row.now) rows.items ≡
        chosen (R.tables reader.now) table conditions.now) }
    ensures err { IfErr result (λ e. e ≡ out_of_memory) }
{
    match intersection(alloc, conditions)? {
        None => chosen_between(alloc, reader, table, conditions, &End::Open, &End::Open),
        Some(Interval::Nothing) => Ok(Vec::new(alloc)),
        Some(Interval::Span(low, high)) => {
            chosen_within(alloc, reader, table, conditions, &low, &high)
        }
    }
}

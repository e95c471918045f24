//! Changes, and what takes them back.

ghost use Rattle.std.specs.Prelude.{◌≡◌, [], ◌∷◌, true, OnOk, IfOk, IfErr};
ghost use Rattle.std.specs.FinMap.{is_sorted};
ghost use Rattle.value.specs.Order.{value_cmp};
ghost use Rattle.value.specs.Refusals.{out_of_memory};
ghost use Rattle.schema.specs.Plain.{put_all, put_in, rows_of};
ghost use Rattle.schema.specs.Rows.{HasTable};
ghost use Rattle.orders.specs.Undone.{AreOrdered, before_of, put_back};

use schema::changes::Change;
use schema::reader::SnapshotReader;
use schema::tables::Tables;
use std::alloc::Allocator;
use value::refusal::Refusal;

// What a change's key has before it: the change that takes it back.
fn before<A: Allocator + Copy>(
    alloc: A,
    tables: &Tables<A>,
    change: &Change<A>,
) -> Result<Change<A>, Refusal>
    requires { HasTable tables.now change.now.table }
    ensures ok { IfOk result (λ earlier. earlier ≡ before_of change.now tables.now) }
    ensures memory { IfErr result (λ e. e ≡ out_of_memory) }
{
    let table = change.table();
    match tables.get(table, change.key()) {
        Some(found) => {
            let row = found.copy(alloc)?;
            Ok(Change::of_row(table, row))
        }
        None => {
            let key = change.key().copy(alloc)?;
            Ok(Change::of_absence(table, key))
        }
    }
}

// Puts in a change of a table that is there, and keeps what takes it back.
fn put_there<A: Allocator + Copy>(
    alloc: A,
    tables: &mut Tables<A>,
    change: &Change<A>,
    back: &mut Vec<Change<A>, A>,
) -> Result<(), Refusal>
    requires has { HasTable tables.old change.now.table }
    requires sorted { is_sorted value_cmp (rows_of tables.old change.now.table) ≡ true }
    ensures ok { OnOk result (tables.new ≡ put_in change.now tables.old) }
    ensures back { OnOk result (put_back back.new.items tables.new ≡ put_back back.old.items tables.old) }
    ensures memory { IfErr result (λ e. e ≡ out_of_memory) }
{
    let earlier = before(alloc, tables, change)?;
    back.push(earlier)?;
    tables.apply(alloc, change)
}

// Puts in a change, and keeps what takes it back. One of a table that isn't there changes nothing.
fn put<A: Allocator + Copy>(
    alloc: A,
    tables: &mut Tables<A>,
    change: &Change<A>,
    back: &mut Vec<Change<A>, A>,
) -> Result<(), Refusal>
    requires { is_sorted value_cmp (rows_of tables.old change.now.table) ≡ true }
    ensures ok { OnOk result (tables.new ≡ put_in change.now tables.old) }
    ensures back { OnOk result (put_back back.new.items tables.new ≡ put_back back.old.items tables.old) }
    ensures memory { IfErr result (λ e. e ≡ out_of_memory) }
{
    if tables.has(change.table()) {
        return put_there(alloc, tables, change, back);
    }
    Ok(())
}

/// Puts in changes, one after the other, and keeps what takes them back.
pub(crate) fn put_changes<A: Allocator + Copy>(
    alloc: A,
    tables: &mut Tables<A>,
    changes: &[Change<A>],
    back: &mut Vec<Change<A>, A>,
) -> Result<(), Refusal>
    requires { AreOrdered tables.old }
    ensures ok { OnOk result (tables.new ≡ put_all changes.now tables.old) }
    ensures back { OnOk result (put_back back.new.items tables.new ≡ put_back back.old.items tables.old) }
    ensures memory { IfErr result (λ e. e ≡ out_of_memory) }
{
    let mut left = changes;
    while let [change, rest @ ..] = left {
        put(alloc, tables, change, back)?;
        left = rest;
    }
    Ok(())
}

// Puts in one change. One of a table that isn't there changes nothing.
fn put_one<A: Allocator + Copy>(
    alloc: A,
    tables: &mut Tables<A>,
    change: &Change<A>,
) -> Result<(), Refusal>
    ensures ok { OnOk result (tables.new ≡ put_in change.now tables.old) }
    ensures memory { IfErr result (λ e. e ≡ out_of_memory) }
{
    if tables.has(change.table()) {
        tables.apply(alloc, change)?;
    }
    Ok(())
}

/// Puts in what takes changes back, the last first.
pub(crate) fn take_back<A: Allocator + Copy>(
    alloc: A,
    tables: &mut Tables<A>,
    back: &[Change<A>],
) -> Result<(), Refusal>
    ensures ok { OnOk result (tables.new ≡ put_back back.now tables.old) }
    ensures memory { IfErr result (λ e. e ≡ out_of_memory) }
{
    let mut left = back;
    while let [rest @ .., change] = left {
        put_one(alloc, tables, change)?;
        left = rest;
    }
    Ok(())
}

//! What a statement and its answer make of a way.

ghost use Rattle.std.specs.Prelude.{◌≡◌, ◌++◌, ◌-◌, ◌==◌, ◌∷◌, [], map, slice_set, option_and_then, option_map, option_to_list, OnOk, IfOk, IfErr};
ghost use Rattle.std.specs.List.{flat_map, list_any};
ghost use Rattle.value.specs.Refusals.{out_of_memory};
ghost use Rattle.orders.specs.Symbolic as spec;

use crate::ways::choice::{chosen_way, column_of, push_left, push_same, value_meets};
use crate::ways::column::{field_now, raised};
use crate::ways::sight::{Sight, sight_of_count, sight_of_rows};
use crate::ways::tell::tell;
use crate::ways::way::{After, Field, Fields, Way};
use schema::catalog::TableNo;
use statement::condition::Condition;
use statement::reply::Reply;
use statement::statement::{Assignment, Projection, Source, Statement};
use statement::values::Values;
use std::alloc::Allocator;
use value::refusal::Refusal;
use value::value::Value;

// ---- whether a statement looks at the key

// Whether a condition leaves the key out.
fn leaves_out<A: Allocator>(key: &Value<A>, condition: &Condition<A>) -> bool
    ensures { result ≡ spec.leaves_out key.now condition.now }
{
    column_of(condition) == 0 && !value_meets(key, condition)
}

// Whether one of the conditions leaves the key out.
fn any_leaves_out<A: Allocator>(key: &Value<A>, conditions: &[Condition<A>]) -> bool
    ensures { result ≡ list_any (spec.leaves_out key.now) conditions.now }
{
    conditions
        .iter()
        .any(|condition| leaves_out(key, condition))
}

// Whether the conditions on the key leave this key.
fn may_choose<A: Allocator>(key: &Value<A>, conditions: &[Condition<A>]) -> bool
    ensures { result ≡ spec.may_choose key.now conditions.now }
{
    !any_leaves_out(key, conditions)
}

// Whether this is the key of what is put in.
fn puts_in<A: Allocator>(key: &Value<A>, values: &[Value<A>]) -> bool
    ensures { result ≡ spec.puts_in key.now values.now }
{
    match values {
        [] => false,
        [value, ..] => key == value,
    }
}

/// Whether a statement looks at the row of a key in a table, or at whether there is one.
pub(crate) fn looks_at<A: Allocator>(
    table: TableNo,
    key: &Value<A>,
    statement: &Statement<A>,
) -> bool
    ensures { result ≡ spec.looks_at table key.now statement.now }
{
    match statement {
        Statement::Select(on, _, conditions) => {
            *on == table && may_choose(key, conditions.as_slice())
        }
        Statement::Insert(on, values) => *on == table && puts_in(key, values.as_slice()),
        Statement::Update(on, _, conditions) => {
            *on == table && may_choose(key, conditions.as_slice())
        }
        Statement::Delete(on, conditions) => {
            *on == table && may_choose(key, conditions.as_slice())
        }
    }
}

// ---- what is done to the row

// The sum of a column and a number.
fn given_sum<A: Allocator + Copy>(
    alloc: A,
    key: &Value<A>,
    way: &Way<A>,
    column: u32,
    number: i64,
) -> Result<Field<A>, Refusal>
    ensures ok { IfOk result (λ f. f ≡ spec.raised column number (spec.field_now key.now way.now column)) }
    ensures err { IfErr result (λ e. e ≡ out_of_memory) }
{
    let field = field_now(alloc, key, way, column)?;
    Ok(raised(column, number, &field))
}

// What is given to a column.
fn given_field<A: Allocator + Copy>(
    alloc: A,
    key: &Value<A>,
    way: &Way<A>,
    source: &Source<A>,
) -> Result<Field<A>, Refusal>
    ensures ok { IfOk result (λ f. f ≡ spec.given_field key.now way.now source.now) }
    ensures err { IfErr result (λ e. e ≡ out_of_memory) }
{
    match source {
        Source::Literal(literal) => Ok(Field::Given(literal.copy(alloc)?)),
        Source::Sum(column, number) => given_sum(alloc, key, way, *column, *number),
    }
}

// Puts a field in the place of another, where there is one.
fn set<A: Allocator>(fields: &mut [Field<A>], place: usize, field: Field<A>)
    ensures { fields.new ≡ slice_set fields.old place field }
{
    if place < fields.len() {
        fields[place] = field;
    }
}

// Gives a field to a column; the key's is never given one.
fn set_given<A: Allocator>(column: u32, field: Field<A>, fields: &mut [Field<A>])
    ensures { fields.new ≡ spec.set_given column field fields.old }
{
    if column != 0 {
        set(fields, column as usize - 1, field);
    }
}

// Gives the fields of all assignments, which read what was there before them.
fn assign<A: Allocator + Copy>(
    alloc: A,
    key: &Value<A>,
    way: &Way<A>,
    assignments: &[Assignment<A>],
    fields: &mut [Field<A>],
) -> Result<(), Refusal>
    ensures ok { OnOk result (fields.new ≡ spec.assigned_fields key.now way.now assignments.now fields.old) }
    ensures err { IfErr result (λ e. e ≡ out_of_memory) }
{
    match assignments {
        [] => Ok(()),
        [assignment, rest @ ..] => {
            let field = given_field(alloc, key, way, &assignment.source)?;
            set_given(assignment.column, field, fields);
            assign(alloc, key, way, rest, fields)
        }
    }
}

// What is there after the assignments.
fn assigned_row<A: Allocator + Copy>(
    alloc: A,
    key: &Value<A>,
    way: &Way<A>,
    assignments: &[Assignment<A>],
) -> Result<After<A>, Refusal>
    ensures ok { IfOk result (λ r. r ≡ spec.assigned_row key.now way.now assignments.now way.now.after) }
    ensures err { IfErr result (λ e. e ≡ out_of_memory) }
{
    match &way.after {
        After::Row(fields) => {
            let mut list = fields.copy_list(alloc)?;
            assign(alloc, key, way, assignments, list.as_mut_slice())?;
            Ok(After::Row(Fields::of(list)))
        }
        After::Gone => Ok(After::Gone),
        After::Anything => Ok(After::Anything),
    }
}

// The way after an UPDATE of its row.
fn assigning<A: Allocator + Copy>(
    alloc: A,
    key: &Value<A>,
    assignments: &[Assignment<A>],
    way: &Way<A>,
) -> Result<Way<A>, Refusal>
    ensures ok { IfOk result (λ w. w ≡ spec.assigning key.now assignments.now way.now) }
    ensures err { IfErr result (λ e. e ≡ out_of_memory) }
{
    let after = assigned_row(alloc, key, way, assignments)?;
    way.with_after(alloc, after)
}

// Fields that are all given.
fn given_fields<A: Allocator + Copy>(
    alloc: A,
    values: &[Value<A>],
) -> Result<Vec<Field<A>, A>, Refusal>
    ensures ok { IfOk result (λ l. l.items ≡ map Field.Given values.now) }
    ensures err { IfErr result (λ e. e ≡ out_of_memory) }
{
    let mut fields = Vec::with_capacity(alloc, values.len())?;
    for value in values {
        fields.push(Field::Given(value.copy(alloc)?))?;
    }
    Ok(fields)
}

// The way after an INSERT of the key, which wasn't there.
fn inserting<A: Allocator + Copy>(
    alloc: A,
    values: &[Value<A>],
    way: &Way<A>,
) -> Result<Option<Way<A>>, Refusal>
    ensures ok { IfOk result (λ w. w ≡ spec.inserting values.now way.now) }
    ensures err { IfErr result (λ e. e ≡ out_of_memory) }
{
    if way.after.is_row() {
        return Ok(None);
    }
    let fields = given_fields(alloc, values)?;
    Ok(Some(way.with_after(alloc, After::Row(Fields::of(fields)))?))
}

// ---- by what is told

// The way in which the row was chosen.
fn way_chosen<A: Allocator + Copy>(
    alloc: A,
    key: &Value<A>,
    number: usize,
    projection: &Projection<A>,
    conditions: &[Condition<A>],
    sight: &Sight<A>,
    way: &Way<A>,
) -> Result<Option<Way<A>>, Refusal>
    ensures ok { IfOk result (λ w. w ≡
        spec.way_chosen key.now number projection.now conditions.now sight.now way.now) }
    ensures err { IfErr result (λ e. e ≡ out_of_memory) }
{
    match sight {
        Sight::Unseen => Ok(None),
        Sight::Seen(row) => seen_way(alloc, key, projection, conditions, row, way),
        Sight::Either => counted_way(alloc, key, number, conditions, way),
    }
}

// The way in which it was, and this is shown of it.
fn seen_way<A: Allocator + Copy>(
    alloc: A,
    key: &Value<A>,
    projection: &Projection<A>,
    conditions: &[Condition<A>],
    row: &Values<A>,
    way: &Way<A>,
) -> Result<Option<Way<A>>, Refusal>
    ensures ok { IfOk result (λ w. w ≡
        option_and_then (spec.tell key.now projection.now row.now) (spec.chosen_way key.now conditions.now way.now)) }
    ensures err { IfErr result (λ e. e ≡ out_of_memory) }
{
    match chosen_way(alloc, key, way, conditions)? {
        Some(chosen) => tell(alloc, key, projection, row.as_slice(), &chosen),
        None => Ok(None),
    }
}

// The way in which it counts.
fn counted_way<A: Allocator + Copy>(
    alloc: A,
    key: &Value<A>,
    number: usize,
    conditions: &[Condition<A>],
    way: &Way<A>,
) -> Result<Option<Way<A>>, Refusal>
    ensures ok { IfOk result (λ w. w ≡
        option_map (spec.counting number) (spec.chosen_way key.now conditions.now way.now)) }
    ensures err { IfErr result (λ e. e ≡ out_of_memory) }
{
    match chosen_way(alloc, key, way, conditions)? {
        Some(chosen) => Ok(Some(chosen.counting(alloc, number)?)),
        None => Ok(None),
    }
}

// Puts in the ways in which it wasn't.
fn push_ways_left<A: Allocator + Copy>(
    alloc: A,
    key: &Value<A>,
    few: bool,
    conditions: &[Condition<A>],
    sight: &Sight<A>,
    way: &Way<A>,
    ways: &mut Vec<Way<A>, A>,
) -> Result<(), Refusal>
    ensures ok { OnOk result (ways.new.items ≡ ways.old.items ++
        spec.ways_left few key.now conditions.now sight.now way.now) }
    ensures err { IfErr result (λ e. e ≡ out_of_memory) }
{
    match sight {
        Sight::Seen(_) => Ok(()),
        Sight::Unseen | Sight::Either => push_left(alloc, key, way, few, conditions, ways),
    }
}

// Puts in a way, where there is one.
fn push_way<A: Allocator>(way: Option<Way<A>>, ways: &mut Vec<Way<A>, A>) -> Result<(), Refusal>
    ensures ok { OnOk result (ways.new.items ≡ ways.old.items ++ option_to_list way) }
    ensures err { IfErr result (λ e. e ≡ out_of_memory) }
{
    match way {
        Some(way) => Ok(ways.push(way)?),
        None => Ok(()),
    }
}

// ---- one statement

// What an UPDATE or a DELETE does to a way whose row it chooses.
fn changed<A: Allocator + Copy>(
    alloc: A,
    key: &Value<A>,
    statement: &Statement<A>,
    way: &Way<A>,
) -> Result<Way<A>, Refusal>
    ensures ok { IfOk result (λ w. w ≡ spec.changed key.now statement.now way.now) }
    ensures err { IfErr result (λ e. e ≡ out_of_memory) }
{
    match statement {
        Statement::Update(_, assignments, _) => {
            assigning(alloc, key, assignments.as_slice(), way)
        }
        Statement::Delete(_, _) => way.with_after(alloc, After::Gone),
        Statement::Select(_, _, _) | Statement::Insert(_, _) => way.copy(alloc),
    }
}

// The way as an UPDATE or DELETE leaves it, where there is a way.
fn changed_way<A: Allocator + Copy>(
    alloc: A,
    key: &Value<A>,
    statement: &Statement<A>,
    way: Option<Way<A>>,
) -> Result<Option<Way<A>>, Refusal>
    ensures ok { IfOk result (λ w. w ≡ option_map (spec.changed key.now statement.now) way) }
    ensures err { IfErr result (λ e. e ≡ out_of_memory) }
{
    match way {
        Some(way) => Ok(Some(changed(alloc, key, statement, &way)?)),
        None => Ok(None),
    }
}

// Puts in what comes of a way where the statement tells this of the row.
fn push_by_sight<A: Allocator + Copy>(
    alloc: A,
    few: bool,
    key: &Value<A>,
    number: usize,
    statement: &Statement<A>,
    projection: &Projection<A>,
    conditions: &[Condition<A>],
    sight: &Sight<A>,
    way: &Way<A>,
    ways: &mut Vec<Way<A>, A>,
) -> Result<(), Refusal>
    ensures ok { OnOk result (ways.new.items ≡ ways.old.items ++
        spec.by_sight few key.now number (spec.changed key.now statement.now) projection.now conditions.now sight.now
        way.now) }
    ensures err { IfErr result (λ e. e ≡ out_of_memory) }
{
    let chosen = way_chosen(alloc, key, number, projection, conditions, sight, way)?;
    let chosen = changed_way(alloc, key, statement, chosen)?;
    push_way(chosen, ways)?;
    push_ways_left(alloc, key, few, conditions, sight, way, ways)
}

// What comes of a way by a SELECT.
fn push_selected<A: Allocator + Copy>(
    alloc: A,
    few: bool,
    key: &Value<A>,
    number: usize,
    statement: &Statement<A>,
    projection: &Projection<A>,
    conditions: &[Condition<A>],
    reply: &Reply<A>,
    way: &Way<A>,
    ways: &mut Vec<Way<A>, A>,
) -> Result<(), Refusal>
    ensures ok { OnOk result (ways.new.items ≡ ways.old.items ++
        spec.selected few key.now number statement.now projection.now conditions.now reply.now way.now) }
    ensures err { IfErr result (λ e. e ≡ out_of_memory) }
{
    match reply {
        Reply::Rows(rows) => {
            let sight = sight_of_rows(alloc, key, projection, conditions, rows.as_slice())?;
            push_by_sight(
                alloc, few, key, number, statement, projection, conditions, &sight, way, ways,
            )
        }
        _ => push_same(alloc, way, ways),
    }
}

// What comes of a way by an INSERT of the key.
fn push_inserted<A: Allocator + Copy>(
    alloc: A,
    values: &[Value<A>],
    reply: &Reply<A>,
    way: &Way<A>,
    ways: &mut Vec<Way<A>, A>,
) -> Result<(), Refusal>
    ensures ok { OnOk result (ways.new.items ≡ ways.old.items ++ spec.put_in values.now reply.now way.now) }
    ensures err { IfErr result (λ e. e ≡ out_of_memory) }
{
    match values {
        [] => push_same(alloc, way, ways),
        [_, fields @ ..] => match reply {
            Reply::Inserted => push_way(inserting(alloc, fields, way)?, ways),
            _ => push_same(alloc, way, ways),
        },
    }
}

// What comes of a way by an UPDATE or a DELETE that is answered by a number.
fn push_counted<A: Allocator + Copy>(
    alloc: A,
    few: bool,
    key: &Value<A>,
    number: usize,
    statement: &Statement<A>,
    conditions: &[Condition<A>],
    count: u64,
    way: &Way<A>,
    ways: &mut Vec<Way<A>, A>,
) -> Result<(), Refusal>
    ensures ok { OnOk result (ways.new.items ≡ ways.old.items ++
        spec.counted_by few key.now number statement.now conditions.now count way.now) }
    ensures err { IfErr result (λ e. e ≡ out_of_memory) }
{
    let sight = sight_of_count(alloc, key, conditions, count);
    push_by_sight(
        alloc,
        few,
        key,
        number,
        statement,
        &Projection::Count,
        conditions,
        &sight,
        way,
        ways,
    )
}

// What comes of a way by an UPDATE.
fn push_updated<A: Allocator + Copy>(
    alloc: A,
    few: bool,
    key: &Value<A>,
    number: usize,
    statement: &Statement<A>,
    conditions: &[Condition<A>],
    reply: &Reply<A>,
    way: &Way<A>,
    ways: &mut Vec<Way<A>, A>,
) -> Result<(), Refusal>
    ensures ok { OnOk result (ways.new.items ≡ ways.old.items ++
        spec.updated_by few key.now number statement.now conditions.now reply.now way.now) }
    ensures err { IfErr result (λ e. e ≡ out_of_memory) }
{
    match reply {
        Reply::Updated(count) => {
            push_counted(
                alloc, few, key, number, statement, conditions, *count, way, ways,
            )
        }
        _ => push_same(alloc, way, ways),
    }
}

// What comes of a way by a DELETE.
fn push_deleted<A: Allocator + Copy>(
    alloc: A,
    few: bool,
    key: &Value<A>,
    number: usize,
    statement: &Statement<A>,
    conditions: &[Condition<A>],
    reply: &Reply<A>,
    way: &Way<A>,
    ways: &mut Vec<Way<A>, A>,
) -> Result<(), Refusal>
    ensures ok { OnOk result (ways.new.items ≡ ways.old.items ++
        spec.deleted_by few key.now number statement.now conditions.now reply.now way.now) }
    ensures err { IfErr result (λ e. e ≡ out_of_memory) }
{
    match reply {
        Reply::Deleted(count) => {
            push_counted(
                alloc, few, key, number, statement, conditions, *count, way, ways,
            )
        }
        _ => push_same(alloc, way, ways),
    }
}

/// What comes of a way by a statement that looks at the row, and its answer.
pub(crate) fn push_step<A: Allocator + Copy>(
    alloc: A,
    few: bool,
    key: &Value<A>,
    number: usize,
    statement: &Statement<A>,
    reply: &Reply<A>,
    way: &Way<A>,
    ways: &mut Vec<Way<A>, A>,
) -> Result<(), Refusal>
    ensures ok { OnOk result (ways.new.items ≡ ways.old.items ++
        spec.step few key.now number statement.now reply.now way.now) }
    ensures err { IfErr result (λ e. e ≡ out_of_memory) }
{
    match statement {
        Statement::Select(_, projection, conditions) => push_selected(
            alloc,
            few,
            key,
            number,
            statement,
            projection,
            conditions.as_slice(),
            reply,
            way,
            ways,
        ),
        Statement::Insert(_, values) => push_inserted(alloc, values.as_slice(), reply, way, ways),
        Statement::Update(_, _, conditions) => push_updated(
            alloc,
            few,
            key,
            number,
            statement,
            conditions.as_slice(),
            reply,
            way,
            ways,
        ),
        Statement::Delete(_, conditions) => push_deleted(
            alloc,
            few,
            key,
            number,
            statement,
            conditions.as_slice(),
            reply,
            way,
            ways,
        ),
    }
}

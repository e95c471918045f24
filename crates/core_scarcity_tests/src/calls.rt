//! The core's calls and the audit's.

use crate::driver::{Call, Memory, refuse_each};
use crate::fixture::{core_after, not_asked};
use audit::order::check_order;
use scarce::Scarce;
use schema::catalog::TableNo;
use schema::reader::first_row;
use std::alloc::Allocator;
use std::process::Abort;
use value::refusal::{Refusal, TxnNo};

// What was asked before a call, each line after `> `, and its answers.
const BEFORE: &str = "\
> 1 BEGIN
1 BEGIN
> 1 INSERT INTO p VALUES (1, 'a name')
1 INSERT 0 1
> 1 INSERT INTO c VALUES (5, 1, '\\x00ff')
1 INSERT 0 1
> 1 INSERT INTO n VALUES ('the one', 1)
1 INSERT 0 1
> 1 COMMIT
1 COMMIT
> 5 BEGIN DEFERRABLE
5 BEGIN
> 5 POLL
5 SAFE 1
> 5 EXPORT
5 EXPORT 1
> 1 BEGIN
1 BEGIN
> 2 BEGIN
2 BEGIN
> 1 UPDATE p SET name = 'of one' WHERE id = 1
1 UPDATE 1
> 2 SELECT * FROM p WHERE id = 1
2 SELECT 1
2 | 1\ta name
> 2 INSERT INTO c VALUES (9, 1, NULL)
2 INSERT 0 1
> 3 BEGIN DEFERRABLE
3 BEGIN
> 4 BEGIN READ ONLY
4 BEGIN
";

// Events that take memory, each with its answer.
const TAKING: &str = "\
1 SELECT * FROM c
1 SELECT 1
1 | 5\t1\t\\\\x00ff

1 INSERT INTO p VALUES (7, 'seven')
1 INSERT 0 1

1 UPDATE n SET v = 2 WHERE name = 'the one'
1 UPDATE 1

2 DELETE FROM c WHERE id > 0
2 DELETE 2

1 COMMIT
1 COMMIT

1 PRUNE
1 PRUNE";

// Events that make no request.
const FREE: &str = "\
3 POLL
3 WAIT

1 POLL
1 ERROR 55000

4 IMPORT 1
4 IMPORT

1 ROLLBACK
1 ROLLBACK

2 ROLLBACK
2 ROLLBACK

6 ROLLBACK
6 ERROR 25P01";

// One transaction is open, and none has committed.
const ONE: &str = "\
> 1 BEGIN
1 BEGIN
> 1 INSERT INTO p VALUES (1, 'a name')
1 INSERT 0 1
";

const OF_ONE: &str = "\
1 EXPORT
1 EXPORT 1

1 COMMIT
1 COMMIT";

// There is no room for a fifth identifier.
const FOUR: &str = "\
> 2 BEGIN
2 BEGIN
> 2 EXPORT
2 EXPORT 1
> 2 EXPORT
2 EXPORT 2
> 2 EXPORT
2 EXPORT 3
> 2 EXPORT
2 EXPORT 4
> 1 BEGIN READ ONLY
1 BEGIN
";

const A_FIFTH: &str = "\
1 EXPORT
1 EXPORT 5";

// Nothing has begun.
const NOTHING: &str = "\
> 1 POLL
1 ERROR 25P01
";

const BEGINNINGS: &str = "\
1 BEGIN
1 BEGIN

1 BEGIN DEFERRABLE
1 BEGIN";

// Refuses each request of each event, which takes memory, or none. With ample memory it is answered as stands below
// it.
fn assert_events<A: Allocator + Copy>(
    rt: &impl Abort,
    memory: &Memory,
    alloc: A,
    (before, events): (&str, &str),
    takes: bool,
) -> Result<(), Refusal> {
    for event in events.split("\n\n") {
        let script = format!(in memory.inner; "{before}> {event}\n")?;
        core_after(alloc, script.as_str())?;
        let (text, _answer) = event.split_once('\n').ok_or(not_asked())?;
        let made = refuse_each(rt, memory, alloc, before, (Call::Event, text))?;
        assert!(rt; (made > 0) == takes, "{text}: {made} requests");
    }
    Ok(())
}

#[test]
fn events_that_take_memory(rt: HostRuntime) -> Result<(), Refusal> {
    let memory = Scarce::new(rt.alloc());
    assert_events(&rt, &memory, &memory, (BEFORE, TAKING), true)?;
    assert_events(&rt, &memory, &memory, (BEFORE, FREE), false)
}

#[test]
fn events_that_find_no_room(rt: HostRuntime) -> Result<(), Refusal> {
    let memory = Scarce::new(rt.alloc());
    for case in [(ONE, OF_ONE), (FOUR, A_FIFTH), (NOTHING, BEGINNINGS)] {
        assert_events(&rt, &memory, &memory, case, true)?;
    }
    Ok(())
}

// Two transactions have committed, of which the second has read what the first has written, and none is open.
const QUIET: &str = "\
> 1 BEGIN
1 BEGIN
> 1 INSERT INTO p VALUES (1, 'a name')
1 INSERT 0 1
> 1 INSERT INTO n VALUES ('the one', 1)
1 INSERT 0 1
> 1 COMMIT
1 COMMIT
> 2 BEGIN
2 BEGIN
> 2 SELECT * FROM n
2 SELECT 1
2 | the one\t1
> 2 UPDATE p SET name = 'another' WHERE id = 1
2 UPDATE 1
> 2 COMMIT
2 COMMIT
";

// Refuses each request for memory of a call after these texts. The call makes at least `least` requests.
fn assert_takes<A: Allocator + Copy>(
    rt: &impl Abort,
    memory: &Memory,
    alloc: A,
    (before, call): (&str, Call),
    least: u64,
) -> Result<(), Refusal> {
    let made = refuse_each(rt, memory, alloc, before, (call, ""))?;
    assert!(rt; made >= least, "{made}: {call:?}");
    Ok(())
}

#[test]
fn calls_of_core_and_audit(rt: HostRuntime) -> Result<(), Refusal> {
    let memory = Scarce::new(rt.alloc());
    assert_takes(&rt, &memory, &memory, (BEFORE, Call::View), 1)?;
    assert_takes(&rt, &memory, &memory, (BEFORE, Call::SerialKeys), 1)?;
    for (call, least) in [
        (Call::Checkpoint, 8),
        (Call::SerialKeys, 1),
        (Call::SerialOrder, 2),
        (Call::CheckOrder, 8),
    ] {
        assert_takes(&rt, &memory, &memory, (QUIET, call), least)?;
    }
    Ok(())
}

// The opening tables have no row, whatever has been committed since, and make no request.
fn assert_opening<A: Allocator + Copy>(
    rt: &impl Abort,
    memory: &Memory,
    alloc: A,
) -> Result<(), Refusal> {
    let core = core_after(alloc, QUIET)?;
    let made = memory.requests();
    let history = core.history();
    assert!(rt; !history.catalog().is_empty());
    let first = first_row(history.tables(), TableNo::at(0));
    assert!(rt; first.is_none() && memory.requests() == made);
    Ok(())
}

#[test]
fn the_opening_is_lent(rt: HostRuntime) -> Result<(), Refusal> {
    let memory = Scarce::new(rt.alloc());
    assert_opening(&rt, &memory, &memory)
}

// Two transactions have committed, one after the other, of which neither has read what the other has written.
const APART: &str = "\
> 1 BEGIN
1 BEGIN
> 1 INSERT INTO p VALUES (1, 'a name')
1 INSERT 0 1
> 1 COMMIT
1 COMMIT
> 2 BEGIN
2 BEGIN
> 2 INSERT INTO n VALUES ('the one', 1)
2 INSERT 0 1
> 2 COMMIT
2 COMMIT
";

// Two transactions have committed, side by side, of which the first has read what was there before the second wrote.
const BESIDE: &str = "\
> 1 BEGIN
1 BEGIN
> 2 BEGIN
2 BEGIN
> 1 SELECT * FROM n
1 SELECT 0
> 2 INSERT INTO n VALUES ('the one', 1)
2 INSERT 0 1
> 2 COMMIT
2 COMMIT
> 1 INSERT INTO p VALUES (1, 'a name')
1 INSERT 0 1
> 1 COMMIT
1 COMMIT
";

// Orders of the two transactions, with whether they are serial. The second of QUIET has read what the first has written,
// the first of APART had ended before the second began, and the first of BESIDE gets another answer behind the second.
// Each stands once.
const ORDERS: [(&str, &[TxnNo], bool); 9] = [
    (QUIET, &[TxnNo(1), TxnNo(2)], true),
    (QUIET, &[TxnNo(2), TxnNo(1)], false),
    (QUIET, &[TxnNo(1)], false),
    (QUIET, &[TxnNo(1), TxnNo(2), TxnNo(2)], false),
    (QUIET, &[TxnNo(1), TxnNo(2), TxnNo(3)], false),
    (APART, &[TxnNo(1), TxnNo(2)], true),
    (APART, &[TxnNo(2), TxnNo(1)], false),
    (BESIDE, &[TxnNo(1), TxnNo(2)], true),
    (BESIDE, &[TxnNo(2), TxnNo(1)], false),
];

#[test]
fn a_wrong_order_is_no_serial_order(rt: HostRuntime) -> Result<(), Refusal> {
    for (script, order, is_serial) in ORDERS {
        let core = core_after(rt.alloc(), script)?;
        core.is_legal();
        let found = check_order(rt.alloc(), core.history(), order)?;
        assert!(rt; found == is_serial, "{order:?}");
    }
    Ok(())
}

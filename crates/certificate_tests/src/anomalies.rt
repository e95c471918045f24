//! Recordings that no order explains, each with an anomaly that is known by name.

use crate::cases::{expect, expect_none, expect_order};
use crate::examples::{STALE_READ, WRITE_SKEW};
use crate::recordings::ROWS_OF_NINE;
use value::refusal::Refusal;

// Both read what was there, and both write it.
const LOST_UPDATE: &str = "\
1 BEGIN
2 BEGIN
1 SELECT v FROM t WHERE id = 1 -> SELECT 1 / | 0
2 SELECT v FROM t WHERE id = 1 -> SELECT 1 / | 0
1 UPDATE t SET v = 1 WHERE id = 1
2 UPDATE t SET v = 2 WHERE id = 1
1 COMMIT
2 COMMIT
";

#[test]
fn lost_update_is_told(rt: HostRuntime) -> Result<(), Refusal> {
    expect(&rt, rt.alloc(), (ROWS_OF_NINE, LOST_UPDATE), 2)
}

// Both add to a row, and one sum is lost. In either order the second finds what the first left.
const LOST_INCREMENT: &str = "\
1 BEGIN
2 BEGIN
1 UPDATE t SET v = v + 1 WHERE id = 1
2 UPDATE t SET v = v + 1 WHERE id = 1
1 COMMIT
2 COMMIT
3 BEGIN
3 SELECT v FROM t WHERE id = 1 -> SELECT 1 / | 1
3 COMMIT
";

#[test]
fn lost_increment_is_told(rt: HostRuntime) -> Result<(), Refusal> {
    expect(&rt, rt.alloc(), (ROWS_OF_NINE, LOST_INCREMENT), 7)
}

// Each reads what the other writes.
#[test]
fn write_skew_is_told(rt: HostRuntime) -> Result<(), Refusal> {
    expect(&rt, rt.alloc(), (ROWS_OF_NINE, WRITE_SKEW), 2)
}

// One reads a row as it was before another's writes, and a second as it was after them.
const READ_SKEW: &str = "\
1 BEGIN
2 BEGIN
2 UPDATE t SET v = 1 WHERE id = 1
2 UPDATE t SET v = 1 WHERE id = 2
1 SELECT v FROM t WHERE id = 1 -> SELECT 1 / | 0
2 COMMIT
1 SELECT v FROM t WHERE id = 2 -> SELECT 1 / | 1
1 COMMIT
";

#[test]
fn read_skew_is_told(rt: HostRuntime) -> Result<(), Refusal> {
    expect(&rt, rt.alloc(), (ROWS_OF_NINE, READ_SKEW), 2)
}

// Two readers see two writers in different orders.
const LONG_FORK: &str = "\
1 BEGIN
2 BEGIN
3 BEGIN
4 BEGIN
1 UPDATE t SET v = 1 WHERE id = 1
2 UPDATE t SET v = 1 WHERE id = 2
1 COMMIT
2 COMMIT
3 SELECT v FROM t WHERE id = 1 -> SELECT 1 / | 1
3 SELECT v FROM t WHERE id = 2 -> SELECT 1 / | 0
4 SELECT v FROM t WHERE id = 1 -> SELECT 1 / | 0
4 SELECT v FROM t WHERE id = 2 -> SELECT 1 / | 1
3 COMMIT
4 COMMIT
";

#[test]
fn long_fork_is_told(rt: HostRuntime) -> Result<(), Refusal> {
    expect(&rt, rt.alloc(), (ROWS_OF_NINE, LONG_FORK), 6)
}

// What had been overwritten is read.
#[test]
fn stale_read_is_told(rt: HostRuntime) -> Result<(), Refusal> {
    expect(&rt, rt.alloc(), (ROWS_OF_NINE, STALE_READ), 1)
}

// A value is read that nobody left.
const ABORTED_READ: &str = "\
1 BEGIN
1 SELECT v FROM t WHERE id = 1 -> SELECT 1 / | 7
1 COMMIT
";

#[test]
fn aborted_read_is_told(rt: HostRuntime) -> Result<(), Refusal> {
    expect(&rt, rt.alloc(), (ROWS_OF_NINE, ABORTED_READ), 1)
}

// Two that write could be in order, but for a third that only reads (Fekete, O'Neil and O'Neil, SIGMOD Record 2004).
const READ_ONLY_ANOMALY: &str = "\
1 BEGIN
2 BEGIN
1 SELECT v FROM t WHERE id = 1 -> SELECT 1 / | 0
1 SELECT v FROM t WHERE id = 2 -> SELECT 1 / | 0
2 SELECT v FROM t WHERE id = 2 -> SELECT 1 / | 0
2 UPDATE t SET v = 20 WHERE id = 2
2 COMMIT
3 BEGIN
3 SELECT v FROM t WHERE id = 1 -> SELECT 1 / | 0
3 SELECT v FROM t WHERE id = 2 -> SELECT 1 / | 20
3 COMMIT
1 UPDATE t SET v = -11 WHERE id = 1
1 COMMIT
";

#[test]
fn read_only_anomaly_is_told(rt: HostRuntime) -> Result<(), Refusal> {
    expect(&rt, rt.alloc(), (ROWS_OF_NINE, READ_ONLY_ANOMALY), 3)
}

// A COMMIT has no reply. What it wrote was read, and then wasn't.
const MAYBE_THERE: &str = "\
1 BEGIN
1 UPDATE t SET v = 5 WHERE id = 1
1 COMMIT -> nothing
2 BEGIN
2 SELECT v FROM t WHERE id = 1 -> SELECT 1 / | 5
2 COMMIT
3 BEGIN
3 SELECT v FROM t WHERE id = 1 -> SELECT 1 / | 0
3 COMMIT
";

#[test]
fn maybe_there_is_told(rt: HostRuntime) -> Result<(), Refusal> {
    expect(&rt, rt.alloc(), (ROWS_OF_NINE, MAYBE_THERE), 3)
}

// One adds to a row that the other reads and gives a value. Either order is refuted, the first as a supposition.
const LOST_SUM: &str = "\
1 BEGIN
2 BEGIN
1 SELECT v FROM t WHERE id = 1 -> SELECT 1 / | 0
1 UPDATE t SET v = 5 WHERE id = 1
2 UPDATE t SET v = v + 1 WHERE id = 1
1 COMMIT
2 COMMIT
3 BEGIN
3 SELECT v FROM t WHERE id = 1 -> SELECT 1 / | 5
3 COMMIT
";

#[test]
fn lost_sum_is_told(rt: HostRuntime) -> Result<(), Refusal> {
    expect(&rt, rt.alloc(), (ROWS_OF_NINE, LOST_SUM), 5)
}

// Each looks for the row that the other inserts.
const PHANTOM: &str = "\
1 BEGIN
2 BEGIN
1 SELECT v FROM t WHERE id = 3 -> SELECT 0
2 SELECT v FROM t WHERE id = 4 -> SELECT 0
1 INSERT INTO t VALUES (4, 1)
2 INSERT INTO t VALUES (3, 1)
1 COMMIT
2 COMMIT
";

#[test]
fn phantom_is_told(rt: HostRuntime) -> Result<(), Refusal> {
    expect(&rt, rt.alloc(), (ROWS_OF_NINE, PHANTOM), 2)
}

// Both delete a row.
const DELETED_TWICE: &str = "\
1 BEGIN
2 BEGIN
1 DELETE FROM t WHERE id = 1
2 DELETE FROM t WHERE id = 1
1 COMMIT
2 COMMIT
";

#[test]
fn deleted_twice_is_told(rt: HostRuntime) -> Result<(), Refusal> {
    expect(&rt, rt.alloc(), (ROWS_OF_NINE, DELETED_TWICE), 2)
}

// An order explains it.
const FINE: &str = "\
1 BEGIN
2 BEGIN
1 SELECT v FROM t WHERE id = 1 -> SELECT 1 / | 0
2 UPDATE t SET v = 1 WHERE id = 1
2 COMMIT
1 COMMIT
3 BEGIN
3 SELECT v FROM t WHERE id = 1 -> SELECT 1 / | 1
3 COMMIT
";

#[test]
fn no_certificate_where_an_order_explains(rt: HostRuntime) -> Result<(), Refusal> {
    expect_none(&rt, rt.alloc(), (ROWS_OF_NINE, FINE))
}

// The last to commit read what the one before it has overwritten: it comes before that one.
const READ_BEFORE: &str = "\
1 BEGIN
2 BEGIN
1 SELECT v FROM t WHERE id = 1 -> SELECT 1 / | 0
2 UPDATE t SET v = 1 WHERE id = 1
2 COMMIT
1 UPDATE t SET v = 1 WHERE id = 2
1 COMMIT
";

#[test]
fn an_order_keeps_what_must_be(rt: HostRuntime) -> Result<(), Refusal> {
    expect_order(&rt, rt.alloc(), (ROWS_OF_NINE, READ_BEFORE), &[0, 2, 1])
}

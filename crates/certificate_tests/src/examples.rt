//! Worked certificates. Transactions are named by the order of their COMMITs, the first by 0. Beside each certificate stand
//! those in which a line is changed, left out or more, with the place of the line that is refused.

use crate::recorded::judge;
use crate::recordings::{ONE_ROW, TWO_ROWS};
use value::refusal::Refusal;

// Both read 0 and write the row: the first update is lost.
const LOST_UPDATE: &str = "\
1 BEGIN
2 BEGIN
1 SELECT v FROM t WHERE id = 1 -> SELECT 1 / | 0
2 SELECT v FROM t WHERE id = 1 -> SELECT 1 / | 0
1 UPDATE t SET v = 1 WHERE id = 1
1 COMMIT
2 UPDATE t SET v = 2 WHERE id = 1
2 COMMIT
";

#[test]
fn lost_update(rt: HostRuntime) -> Result<(), Refusal> {
    let cases = "\
later 1 2 1.1; later 2 1 1.1; cycle 1 2: taken
later 2 1 1.1; later 1 2 1.1; cycle 2 1: taken
later 1 2 1.1; sourceless 2 1.1: taken
later 1 2 2.1; later 2 1 1.1; cycle 1 2: 0
later 1 1 1.1; later 2 1 1.1; cycle 1 2: 0
later 1 2 1.1; later 2 1 2.1; cycle 1 2: 1
later 1 2 1.1; later 2 1 1.1; cycle 1 0: 2
later 1 2 1.1; later 2 1 1.1; cycle 1 1: 2
later 1 2 1.1; later 2 1 1.1: 2
later 1 2 1.1; cycle 1 2: 1
later 1 2 1.1; later 2 1 1.1; cycle 1 2; cycle 1 2: 3
suppose before 1 2; later 2 1 1.1; cycle 1 2; later 1 2 1.1; cycle 1 2: taken
suppose before 1 2; suppose present 1; sourceless 2 1.1; sourceless 2 1.1; later 1 2 1.1; cycle 1 2: taken
suppose before 2 1; later 2 1 1.1; cycle 1 2; later 1 2 1.1; cycle 1 2: 2
suppose before 1 2; cycle 1 2; later 1 2 1.1; cycle 1 2: 1
suppose before 1 2; later 2 1 1.1; cycle 1 2; cycle 1 2: 3
suppose before 1 2; later 2 1 1.1; cycle 1 2: 3
suppose before 1 1; cycle 1 1: 0
suppose absent 1; later 2 1 1.1; later 1 2 1.1; cycle 1 2; cycle 1 2: 4
";
    judge(&rt, rt.alloc(), (ONE_ROW, LOST_UPDATE), cases)
}

// Each reads both rows and writes one.
pub(crate) const WRITE_SKEW: &str = "\
1 BEGIN
2 BEGIN
1 SELECT v FROM t WHERE id = 1 -> SELECT 1 / | 0
1 SELECT v FROM t WHERE id = 2 -> SELECT 1 / | 0
2 SELECT v FROM t WHERE id = 1 -> SELECT 1 / | 0
2 SELECT v FROM t WHERE id = 2 -> SELECT 1 / | 0
1 UPDATE t SET v = 1 WHERE id = 1
2 UPDATE t SET v = 1 WHERE id = 2
1 COMMIT
2 COMMIT
";

#[test]
fn write_skew(rt: HostRuntime) -> Result<(), Refusal> {
    let cases = "\
later 1 2 2.1; later 2 1 1.1; cycle 1 2: taken
later 1 2 1.1; later 2 1 1.1; cycle 1 2: 0
later 1 2 2.1; later 2 1 2.1; cycle 1 2: 1
later 1 2 2.1; later 2 1 1.1; cycle 0 2: 2
";
    judge(&rt, rt.alloc(), (TWO_ROWS, WRITE_SKEW), cases)
}

// The reader finds one row as it was before the writer, and one as it is after it.
const READ_SKEW: &str = "\
1 BEGIN
1 SELECT v FROM t WHERE id = 1 -> SELECT 1 / | 0
2 BEGIN
2 UPDATE t SET v = 5 WHERE id = 1
2 UPDATE t SET v = 5 WHERE id = 2
2 COMMIT
1 SELECT v FROM t WHERE id = 2 -> SELECT 1 / | 5
1 COMMIT
";

#[test]
fn read_skew(rt: HostRuntime) -> Result<(), Refusal> {
    let cases = "\
later 2 1 1.1; source 1 2 2.1; cycle 1 2: taken
later 1 2 1.1; source 1 2 2.1; cycle 1 2: 0
source 0 2 2.1; later 2 1 1.1; cycle 1 2: 0
later 2 1 1.1; source 1 2 1.1; cycle 1 2: 1
later 2 1 1.1; source 1 2 2.1; cycle 0 1: 2
";
    judge(&rt, rt.alloc(), (TWO_ROWS, READ_SKEW), cases)
}

// A transaction begins after an update was committed, and finds the row as it was.
pub(crate) const STALE_READ: &str = "\
1 BEGIN
1 UPDATE t SET v = 1 WHERE id = 1
1 COMMIT
2 BEGIN
2 SELECT v FROM t WHERE id = 1 -> SELECT 1 / | 0
2 COMMIT
";

#[test]
fn stale_read(rt: HostRuntime) -> Result<(), Refusal> {
    let cases = "\
sourceless 2 1.1: taken
sourceless 1 1.1: 0
sourceless 2 1.0: 0
sourceless 0 1.0: 0
sourceless 3 1.1: 0
";
    judge(&rt, rt.alloc(), (ONE_ROW, STALE_READ), cases)
}

// The COMMIT of the last one had no reply, but what it wrote was read; later it wasn't there.
const UNANSWERED_COMMIT: &str = "\
3 BEGIN
3 UPDATE t SET v = 5 WHERE id = 1
3 COMMIT -> nothing
1 BEGIN
1 SELECT v FROM t WHERE id = 1 -> SELECT 1 / | 5
1 COMMIT
1 BEGIN
1 SELECT v FROM t WHERE id = 1 -> SELECT 1 / | 0
1 COMMIT
";

#[test]
fn unanswered_commit(rt: HostRuntime) -> Result<(), Refusal> {
    let cases = "\
source 3 1 1.1; joined 3 1 2; sourceless 2 1.1: taken
suppose absent 3; sourceless 1 1.1; source 3 1 1.1; joined 3 1 2; sourceless 2 1.1: taken
source 0 1 1.1; joined 3 1 2; sourceless 2 1.1: 0
source 3 1 1.1; joined 3 2 1; sourceless 2 1.1: 1
source 3 1 1.1; joined 3 1 2; sourceless 1 1.1: 2
source 3 1 1.1; sourceless 2 1.1: 1
joined 3 1 2; sourceless 2 1.1: 0
sourceless 2 1.1: 0
suppose present 3; sourceless 1 1.1: 1
";
    judge(&rt, rt.alloc(), (ONE_ROW, UNANSWERED_COMMIT), cases)
}

// Two add 1 to 0 one after the other, and 1 is found.
const LOST_INCREMENT: &str = "\
1 BEGIN
1 UPDATE t SET v = v + 1 WHERE id = 1
1 COMMIT
1 BEGIN
1 UPDATE t SET v = v + 1 WHERE id = 1
1 COMMIT
1 BEGIN
1 SELECT v FROM t WHERE id = 1 -> SELECT 1 / | 1
1 COMMIT
";

#[test]
fn lost_increment(rt: HostRuntime) -> Result<(), Refusal> {
    let cases = "\
found 1 1.1 0; found 2 1.1 1; sourceless 3 1.1: taken
found 1 1.1 1; found 2 1.1 1; sourceless 3 1.1: 0
found 1 1.1 none; found 2 1.1 1; sourceless 3 1.1: 0
found 1 1.1 0; found 2 1.1 2; sourceless 3 1.1: 1
found 1 1.1 0; found 2 1.1 1; sourceless 2 1.1: 2
found 2 1.1 1; sourceless 3 1.1: 0
found 1 1.1 0; sourceless 3 1.1: 1
";
    judge(&rt, rt.alloc(), (ONE_ROW, LOST_INCREMENT), cases)
}

// An update finds no row of key 1 with 0, though there is one.
const MISSED_ROW: &str = "\
1 BEGIN
1 UPDATE t SET v = 9 WHERE id = 1 AND v = 0 -> UPDATE 0
1 COMMIT
";

#[test]
fn missed_row(rt: HostRuntime) -> Result<(), Refusal> {
    let cases = "\
needless 1 1.0 0; needless 1 1.1 1; wayless 1 1: taken
needless 1 1.1 1; needless 1 1.0 0; wayless 1 1: taken
needless 1 1.0 1; needless 1 1.1 1; wayless 1 1: 0
needless 1 1.0 0; needless 1 1.0 1; wayless 1 1: 1
needless 1 1.0 0; needless 1 1.1 1; wayless 0 1: 2
needless 1 1.0 0; needless 1 1.1 1; wayless 1 2: 2
needless 1 1.0 0; wayless 1 1: 1
needless 1 1.0 2; wayless 1 1: 0
";
    judge(&rt, rt.alloc(), (ONE_ROW, MISSED_ROW), cases)
}

// The second writes row 1 after the first, whose row 2 it read, but what the first wrote is found.
const OVERTAKEN_WRITE: &str = "\
1 BEGIN
2 BEGIN
2 UPDATE t SET v = 2 WHERE id = 1
2 UPDATE t SET v = 7 WHERE id = 2
2 COMMIT
1 SELECT v FROM t WHERE id = 2 -> SELECT 1 / | 7
1 UPDATE t SET v = 1 WHERE id = 1
1 COMMIT
1 BEGIN
1 SELECT v FROM t WHERE id = 1 -> SELECT 1 / | 2
1 COMMIT
";

#[test]
fn overtaken_write(rt: HostRuntime) -> Result<(), Refusal> {
    let cases = "\
source 1 2 2.1; earlier 2 1 3 1.1; cycle 1 2: taken
source 0 2 2.1; earlier 2 1 3 1.1; cycle 1 2: 0
earlier 1 2 3 1.1; source 1 2 2.1; cycle 1 2: 0
source 1 2 2.1; earlier 2 1 3 2.1; cycle 1 2: 1
source 1 2 2.1; earlier 1 1 3 1.1; cycle 1 2: 1
source 1 2 2.1; earlier 2 1 3 1.1; cycle 1 3: 2
";
    judge(&rt, rt.alloc(), (TWO_ROWS, OVERTAKEN_WRITE), cases)
}

// One of two writers was seen, both of which began after a third, of which nothing was seen.
const COMMON_CAUSE: &str = "\
4 BEGIN
1 BEGIN
1 UPDATE t SET v = 5 WHERE id = 2
1 COMMIT
2 BEGIN
3 BEGIN
2 UPDATE t SET v = 1 WHERE id = 1
2 COMMIT
3 UPDATE t SET v = 1 WHERE id = 1
3 COMMIT
4 SELECT v FROM t WHERE id = 2 -> SELECT 1 / | 0
4 SELECT v FROM t WHERE id = 1 -> SELECT 1 / | 1
4 COMMIT
";

#[test]
fn common_cause(rt: HostRuntime) -> Result<(), Refusal> {
    let cases = "\
common 1 4 1.1; later 4 1 2.1; cycle 1 4: taken
common 2 4 1.1; later 4 1 2.1; cycle 1 4: 0
common 1 4 2.1; later 4 1 2.1; cycle 1 4: 0
common 1 4 1.1; later 4 2 2.1; cycle 1 4: 1
common 1 4 1.1; later 4 1 2.1; cycle 1 2: 2
";
    judge(&rt, rt.alloc(), (TWO_ROWS, COMMON_CAUSE), cases)
}

//! Worked certificates with numbers of rows, as examples has others.

use crate::recorded::judge;
use crate::recordings::TWO_ROWS;
use value::refusal::Refusal;

// Both count the rows and put one in: each comes before the other, which found a row less.
pub(crate) const SKEW_OF_COUNTS: &str = "\
1 BEGIN
2 BEGIN
1 SELECT count(*) FROM t -> SELECT 1 / | 2
2 SELECT count(*) FROM t -> SELECT 1 / | 2
1 INSERT INTO t VALUES (3, 0)
2 INSERT INTO t VALUES (4, 0)
1 COMMIT
2 COMMIT
";

#[test]
fn skew_of_counts(rt: HostRuntime) -> Result<(), Refusal> {
    let cases = "\
needless 2 1.0 0; needless 2 2.0 0; toomany 2 0 3 1; later 2 1 3.0; \
needless 1 1.0 0; needless 1 2.0 0; toomany 1 0 4 1; later 1 2 4.0; cycle 1 2: taken
needless 2 1.0 1; needless 2 2.0 0; toomany 2 0 3 1: 0
needless 2 1.0 0; toomany 2 0 3 1: 1
needless 2 1.0 0; needless 2 2.0 0; toomany 2 0 3 0: 2
needless 2 1.0 0; needless 2 2.0 0; toomany 2 0 3 2: 2
needless 2 1.0 0; needless 2 2.0 0; toomany 2 1 3 1: 2
needless 2 1.0 0; needless 2 2.0 0; toomany 1 0 3 1: 2
needless 2 1.0 0; needless 2 2.0 0; toomany 2 0 2 1: 2
needless 2 1.0 0; needless 2 2.0 0; toofew 2 0 3 1: 2
needless 2 1.0 0; needless 2 2.0 0; toofew 2 0 3 0: 2
needless 2 1.0 0; needless 2 2.0 0; overfull 2 0: 2
lacking 2 0: 0
";
    judge(&rt, rt.alloc(), (TWO_ROWS, SKEW_OF_COUNTS), cases)
}

// There were two rows, and one is counted.
pub(crate) const TOO_MANY_ROWS: &str = "\
1 BEGIN
1 SELECT count(*) FROM t WHERE v = 0 -> SELECT 1 / | 1
1 COMMIT
";

#[test]
fn too_many_rows(rt: HostRuntime) -> Result<(), Refusal> {
    let cases = "\
needless 1 1.1 0; needless 1 1.1 2; needless 1 2.1 0; needless 1 2.1 2; overfull 1 0: taken
needless 1 1.1 0; needless 1 1.1 1: 1
needless 1 1.1 0; needless 1 1.1 2; needless 1 2.1 0; overfull 1 0: 3
needless 1 1.1 0; needless 1 1.1 2; needless 1 2.1 0; needless 1 2.1 2; overfull 1 1: 4
needless 1 1.1 0; needless 1 1.1 2; needless 1 2.1 0; needless 1 2.1 2; overfull 0 0: 4
needless 1 1.1 0; needless 1 1.1 2; needless 1 2.1 0; needless 1 2.1 2; overfull 2 0: 4
needless 1 1.1 0; needless 1 1.1 2; needless 1 2.1 0; needless 1 2.1 2; lacking 1 0: 4
needless 1 1.1 0; needless 1 1.1 2; overfull 1 0: 2
";
    judge(&rt, rt.alloc(), (TWO_ROWS, TOO_MANY_ROWS), cases)
}

// There were two rows at most, and three are counted.
pub(crate) const TOO_FEW_ROWS: &str = "\
1 BEGIN
1 SELECT count(*) FROM t -> SELECT 1 / | 3
1 UPDATE t SET v = 1 WHERE id = 1 -> UPDATE 2
1 COMMIT
";

#[test]
fn too_few_rows(rt: HostRuntime) -> Result<(), Refusal> {
    let cases = "\
lacking 1 0: taken
lacking 1 1: taken
lacking 1 2: 0
lacking 0 0: 0
lacking 2 0: 0
overfull 1 0: 0
suppose absent 1; lacking 1 0; lacking 1 0: taken
";
    judge(&rt, rt.alloc(), (TWO_ROWS, TOO_FEW_ROWS), cases)
}

// The first counts the row that the second puts in, and finds another as it was before the second changed it.
pub(crate) const READ_SKEW_OF_COUNTS: &str = "\
1 BEGIN
2 BEGIN
1 SELECT v FROM t WHERE id = 2 -> SELECT 1 / | 0
2 UPDATE t SET v = 1 WHERE id = 2
2 INSERT INTO t VALUES (3, 0)
2 COMMIT
1 SELECT count(*) FROM t -> SELECT 1 / | 3
1 COMMIT
";

#[test]
fn read_skew_of_counts(rt: HostRuntime) -> Result<(), Refusal> {
    let cases = "\
later 2 1 2.1; toofew 2 1 3 0; source 1 2 3.0; cycle 1 2: taken
later 2 1 2.1; source 1 2 3.0; cycle 1 2: 1
toofew 2 1 3 1: 0
toofew 2 1 3 2: 0
toofew 2 0 3 0: 0
toofew 1 1 3 0: 0
toomany 2 1 3 0: 0
toomany 2 1 3 1: 0
later 2 1 2.1; toofew 2 1 3 0; toofew 2 1 1 0; source 1 2 3.0; cycle 2 1: taken
";
    judge(&rt, rt.alloc(), (TWO_ROWS, READ_SKEW_OF_COUNTS), cases)
}

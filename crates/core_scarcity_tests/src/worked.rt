//! Worked scripts, with what they are answered and the audit at their end: those of tests/, with a semicolon less at each
//! line, and no marks at the replies.

use crate::fixture::not_asked;
use value::refusal::Refusal;

// As in tests/isolation.transcript: write skew
const WRITE_SKEW: &str = "\
CREATE TABLE t (id bigint PRIMARY KEY, v bigint);
> 1 BEGIN
1 BEGIN
> 1 INSERT INTO t VALUES (1, 10)
1 INSERT 0 1
> 1 INSERT INTO t VALUES (2, 20)
1 INSERT 0 1
> 1 COMMIT
1 COMMIT
> 1 BEGIN
1 BEGIN
> 2 BEGIN
2 BEGIN
> 1 SELECT * FROM t
1 SELECT 2
1 | 1\t10
1 | 2\t20
> 2 SELECT * FROM t
2 SELECT 2
2 | 1\t10
2 | 2\t20
> 1 UPDATE t SET v = 0 WHERE id = 1
1 UPDATE 1
> 2 UPDATE t SET v = 0 WHERE id = 2
2 UPDATE 1
> 1 COMMIT
1 COMMIT
> 2 COMMIT
2 ERROR 40001 cause 2 3 2
> 1 BEGIN
1 BEGIN
> 1 SELECT * FROM t
1 SELECT 2
1 | 1\t0
1 | 2\t20
= txn 1 key 1 1 1
= txn 2 key 2 1 2
= check yes
";

// As in tests/isolation.transcript: a conflict alone
const ONE_CONFLICT: &str = "\
CREATE TABLE t (id bigint PRIMARY KEY, v bigint);
> 1 BEGIN
1 BEGIN
> 1 INSERT INTO t VALUES (1, 10)
1 INSERT 0 1
> 1 INSERT INTO t VALUES (2, 20)
1 INSERT 0 1
> 1 COMMIT
1 COMMIT
> 1 BEGIN
1 BEGIN
> 2 BEGIN
2 BEGIN
> 1 SELECT * FROM t WHERE id = 1
1 SELECT 1
1 | 1\t10
> 2 UPDATE t SET v = 11 WHERE id = 1
2 UPDATE 1
> 2 COMMIT
2 COMMIT
> 1 UPDATE t SET v = 21 WHERE id = 2
1 UPDATE 1
> 1 COMMIT
1 COMMIT
= txn 1 key 1 1 1
= txn 2 key 2 0 3
= txn 3 key 2 1 2
= check yes
";

// As in tests/isolation.transcript: a reader after the close
const READER_AFTER_THE_CLOSE: &str = "\
CREATE TABLE batch (id bigint PRIMARY KEY, n bigint);
CREATE TABLE receipt (id bigint PRIMARY KEY, n bigint);
> 1 BEGIN
1 BEGIN
> 1 INSERT INTO batch VALUES (1, 1)
1 INSERT 0 1
> 1 COMMIT
1 COMMIT
> 2 BEGIN
2 BEGIN
> 2 SELECT n FROM batch WHERE id = 1
2 SELECT 1
2 | 1
> 3 BEGIN
3 BEGIN
> 3 UPDATE batch SET n = n + 1 WHERE id = 1
3 UPDATE 1
> 3 COMMIT
3 COMMIT
> 1 BEGIN READ ONLY
1 BEGIN
> 1 SELECT * FROM batch
1 SELECT 1
1 | 1\t2
> 1 SELECT * FROM receipt WHERE id >= 1
1 SELECT 0
> 1 COMMIT
1 COMMIT
> 2 INSERT INTO receipt VALUES (1, 1)
2 INSERT 0 1
> 2 COMMIT
2 ERROR 40001 cause 4 2 3
= txn 1 key 1 1 1
= txn 3 key 2 1 2
= txn 4 key 2 2 12
= check yes
";

// As in tests/isolation.transcript: a reader before it
const READER_BEFORE_THE_CLOSE: &str = "\
CREATE TABLE batch (id bigint PRIMARY KEY, n bigint);
CREATE TABLE receipt (id bigint PRIMARY KEY, n bigint);
> 1 BEGIN
1 BEGIN
> 1 INSERT INTO batch VALUES (1, 1)
1 INSERT 0 1
> 1 COMMIT
1 COMMIT
> 2 BEGIN
2 BEGIN
> 2 SELECT n FROM batch WHERE id = 1
2 SELECT 1
2 | 1
> 1 BEGIN READ ONLY
1 BEGIN
> 3 BEGIN
3 BEGIN
> 3 UPDATE batch SET n = n + 1 WHERE id = 1
3 UPDATE 1
> 3 COMMIT
3 COMMIT
> 1 SELECT * FROM batch
1 SELECT 1
1 | 1\t1
> 1 SELECT * FROM receipt WHERE id >= 1
1 SELECT 0
> 1 COMMIT
1 COMMIT
> 2 INSERT INTO receipt VALUES (1, 1)
2 INSERT 0 1
> 2 COMMIT
2 COMMIT
= txn 1 key 1 1 1
= txn 3 key 1 2 12
= txn 2 key 2 0 3
= txn 4 key 2 1 2
= check yes
";

// As in tests/references.transcript: a reference to a row that goes
const REFERENCES: &str = "\
CREATE TABLE p (id bigint PRIMARY KEY);
CREATE TABLE c (id bigint PRIMARY KEY, p bigint REFERENCES p);
> 1 BEGIN
1 BEGIN
> 1 INSERT INTO p VALUES (1)
1 INSERT 0 1
> 1 COMMIT
1 COMMIT
> 1 BEGIN
1 BEGIN
> 2 BEGIN
2 BEGIN
> 1 INSERT INTO c VALUES (5, 1)
1 INSERT 0 1
> 2 DELETE FROM p WHERE id = 1
2 DELETE 1
> 1 COMMIT
1 COMMIT
> 2 COMMIT
2 ERROR 40001 cause 2 3 2
= txn 1 key 1 1 1
= txn 2 key 2 1 2
= check yes
";

// As in tests/isolation.transcript: a row that is not there
const ABSENT_ROW: &str = "\
CREATE TABLE t (id bigint PRIMARY KEY, v bigint);
> 1 BEGIN
1 BEGIN
> 1 INSERT INTO t VALUES (1, 0)
1 INSERT 0 1
> 1 COMMIT
1 COMMIT
> 1 BEGIN
1 BEGIN
> 2 BEGIN
2 BEGIN
> 1 SELECT * FROM t WHERE id BETWEEN 10 AND 20
1 SELECT 0
> 2 SELECT * FROM t WHERE id = 1
2 SELECT 1
2 | 1\t0
> 1 UPDATE t SET v = 1 WHERE id = 1
1 UPDATE 1
> 2 INSERT INTO t VALUES (15, 0)
2 INSERT 0 1
> 1 COMMIT
1 COMMIT
> 2 COMMIT
2 ERROR 40001 cause 2 3 2
= txn 1 key 1 1 1
= txn 2 key 2 1 2
= check yes
";

// Nine keys are covered as the range between them.
// As in tests/isolation.transcript: nine keys
const NINE_KEYS: &str = "\
CREATE TABLE t (id bigint PRIMARY KEY, v bigint);
> 1 BEGIN
1 BEGIN
> 1 INSERT INTO t VALUES (1, 0)
1 INSERT 0 1
> 1 COMMIT
1 COMMIT
> 1 BEGIN
1 BEGIN
> 2 BEGIN
2 BEGIN
> 1 SELECT v FROM t WHERE id = 1
1 SELECT 1
1 | 0
> 1 SELECT v FROM t WHERE id = 3
1 SELECT 0
> 1 SELECT v FROM t WHERE id = 5
1 SELECT 0
> 1 SELECT v FROM t WHERE id = 7
1 SELECT 0
> 1 SELECT v FROM t WHERE id = 9
1 SELECT 0
> 1 SELECT v FROM t WHERE id = 11
1 SELECT 0
> 1 SELECT v FROM t WHERE id = 13
1 SELECT 0
> 1 SELECT v FROM t WHERE id = 15
1 SELECT 0
> 1 SELECT v FROM t WHERE id = 17
1 SELECT 0
> 2 SELECT v FROM t WHERE id = 1
2 SELECT 1
2 | 0
> 2 INSERT INTO t VALUES (4, 0)
2 INSERT 0 1
> 1 UPDATE t SET v = 1 WHERE id = 1
1 UPDATE 1
> 1 COMMIT
1 COMMIT
> 2 COMMIT
2 ERROR 40001 cause 2 3 2
= txn 1 key 1 1 1
= txn 2 key 2 1 2
= check yes
";

// Eight keys are covered by themselves.
// As in tests/isolation.transcript: eight keys
const EIGHT_KEYS: &str = "\
CREATE TABLE t (id bigint PRIMARY KEY, v bigint);
> 1 BEGIN
1 BEGIN
> 1 INSERT INTO t VALUES (1, 0)
1 INSERT 0 1
> 1 COMMIT
1 COMMIT
> 1 BEGIN
1 BEGIN
> 2 BEGIN
2 BEGIN
> 1 SELECT v FROM t WHERE id = 1
1 SELECT 1
1 | 0
> 1 SELECT v FROM t WHERE id = 3
1 SELECT 0
> 1 SELECT v FROM t WHERE id = 5
1 SELECT 0
> 1 SELECT v FROM t WHERE id = 7
1 SELECT 0
> 1 SELECT v FROM t WHERE id = 9
1 SELECT 0
> 1 SELECT v FROM t WHERE id = 11
1 SELECT 0
> 1 SELECT v FROM t WHERE id = 13
1 SELECT 0
> 1 SELECT v FROM t WHERE id = 15
1 SELECT 0
> 2 SELECT v FROM t WHERE id = 1
2 SELECT 1
2 | 0
> 2 INSERT INTO t VALUES (4, 0)
2 INSERT 0 1
> 1 UPDATE t SET v = 1 WHERE id = 1
1 UPDATE 1
> 1 COMMIT
1 COMMIT
> 2 COMMIT
2 COMMIT
= txn 1 key 1 1 1
= txn 3 key 2 0 3
= txn 2 key 2 1 2
= check yes
";

// As in tests/references.transcript: the first updater
const FIRST_UPDATER: &str = "\
CREATE TABLE t (id bigint PRIMARY KEY, v bigint);
> 1 BEGIN
1 BEGIN
> 1 INSERT INTO t VALUES (1, 0)
1 INSERT 0 1
> 1 COMMIT
1 COMMIT
> 1 BEGIN
1 BEGIN
> 2 BEGIN
2 BEGIN
> 1 UPDATE t SET v = 5 WHERE id = 1
1 UPDATE 1
> 2 UPDATE t SET v = 6 WHERE id = 1
2 ERROR 40001 row
> 2 SELECT * FROM t
2 ERROR 25P02
> 2 COMMIT
2 ROLLBACK
> 1 COMMIT
1 COMMIT
= txn 1 key 1 1 1
= txn 2 key 2 1 2
= check yes
";

// As in tests/dumped_scripts.transcript: a deferrable report that is dumped
const DEFERRABLE: &str = "\
CREATE TABLE batch (id bigint PRIMARY KEY, n bigint);
CREATE TABLE receipt (id bigint PRIMARY KEY, n bigint);
> 1 BEGIN
1 BEGIN
> 1 INSERT INTO batch VALUES (1, 1)
1 INSERT 0 1
> 1 COMMIT
1 COMMIT
> 2 BEGIN
2 BEGIN
> 2 SELECT n FROM batch WHERE id = 1
2 SELECT 1
2 | 1
> 3 BEGIN
3 BEGIN
> 3 UPDATE batch SET n = n + 1 WHERE id = 1
3 UPDATE 1
> 3 COMMIT
3 COMMIT
> 4 BEGIN DEFERRABLE
4 BEGIN
> 4 POLL
4 WAIT
> 4 SELECT * FROM batch
4 ERROR 55000
> 2 INSERT INTO receipt VALUES (1, 1)
2 INSERT 0 1
> 2 COMMIT
2 COMMIT
> 4 POLL
4 SAFE 3
> 4 SELECT * FROM receipt
4 SELECT 1
4 | 1\t1
> 4 DUMP
-- dump 2
CREATE TABLE batch (id bigint PRIMARY KEY, n bigint);
CREATE TABLE receipt (id bigint PRIMARY KEY, n bigint);
COPY batch (id, n) FROM stdin;
1\t2
\\.
-- rows 1
COPY receipt (id, n) FROM stdin;
1\t1
\\.
-- rows 1
-- end
> 4 ROLLBACK
4 ROLLBACK
";

// As in tests/snapshots.transcript: an exported snapshot
const EXPORT: &str = "\
CREATE TABLE t (id bigint PRIMARY KEY, v bigint);
> 1 BEGIN
1 BEGIN
> 1 INSERT INTO t VALUES (1, 0)
1 INSERT 0 1
> 1 COMMIT
1 COMMIT
> 1 BEGIN READ ONLY
1 BEGIN
> 1 EXPORT
1 EXPORT 1
> 1 EXPORT
1 EXPORT 2
> 2 BEGIN READ ONLY
2 BEGIN
> 2 IMPORT 1
2 IMPORT
> 2 SELECT * FROM t
2 SELECT 1
2 | 1\t0
> 2 IMPORT 1
2 ERROR 25001
> 1 COMMIT
1 COMMIT
> 3 BEGIN READ ONLY
3 BEGIN
> 3 IMPORT 2
3 ERROR 55000
> 3 SELECT * FROM t
3 SELECT 1
3 | 1\t0
= txn 1 key 1 1 1
= txn 2 key 1 2 11
= check yes
";

// As in tests/isolation.transcript: a read-only anomaly
const READ_ONLY_ANOMALY: &str = "\
CREATE TABLE account (id bigint PRIMARY KEY, balance bigint);
> 1 BEGIN
1 BEGIN
> 1 INSERT INTO account VALUES (1, 0)
1 INSERT 0 1
> 1 INSERT INTO account VALUES (2, 0)
1 INSERT 0 1
> 1 COMMIT
1 COMMIT
> 2 BEGIN
2 BEGIN
> 2 SELECT * FROM account
2 SELECT 2
2 | 1\t0
2 | 2\t0
> 3 BEGIN
3 BEGIN
> 3 UPDATE account SET balance = balance + 20 WHERE id = 2
3 UPDATE 1
> 3 COMMIT
3 COMMIT
> 1 BEGIN READ ONLY
1 BEGIN
> 1 SELECT * FROM account
1 SELECT 2
1 | 1\t0
1 | 2\t20
> 1 COMMIT
1 COMMIT
> 2 UPDATE account SET balance = balance - 11 WHERE id = 1
2 UPDATE 1
> 2 COMMIT
2 ERROR 40001 cause 4 2 3
= txn 1 key 1 1 1
= txn 3 key 2 1 2
= txn 4 key 2 2 12
= check yes
";

// As in tests/references.transcript: a reference to another row
const ANOTHER_ROW: &str = "\
CREATE TABLE p (id bigint PRIMARY KEY);
CREATE TABLE c (id bigint PRIMARY KEY, p bigint REFERENCES p);
> 1 BEGIN
1 BEGIN
> 1 INSERT INTO p VALUES (1)
1 INSERT 0 1
> 1 INSERT INTO p VALUES (2)
1 INSERT 0 1
> 1 COMMIT
1 COMMIT
> 1 BEGIN
1 BEGIN
> 2 BEGIN
2 BEGIN
> 1 SELECT * FROM p WHERE id = 1
1 SELECT 1
1 | 1
> 1 INSERT INTO c VALUES (5, 2)
1 INSERT 0 1
> 2 DELETE FROM p WHERE id = 1
2 DELETE 1
> 1 COMMIT
1 COMMIT
> 2 COMMIT
2 COMMIT
= txn 1 key 1 1 1
= txn 2 key 2 1 2
= txn 3 key 3 1 3
= check yes
";

// As in tests/references.transcript: nine deleted rows that might be referenced
const NINE_DELETED: &str = "\
CREATE TABLE p (id bigint PRIMARY KEY);
CREATE TABLE c (id bigint PRIMARY KEY, p bigint REFERENCES p);
> 1 BEGIN
1 BEGIN
> 1 INSERT INTO p VALUES (1)
1 INSERT 0 1
> 1 INSERT INTO p VALUES (2)
1 INSERT 0 1
> 1 INSERT INTO p VALUES (3)
1 INSERT 0 1
> 1 INSERT INTO p VALUES (4)
1 INSERT 0 1
> 1 INSERT INTO p VALUES (5)
1 INSERT 0 1
> 1 INSERT INTO p VALUES (6)
1 INSERT 0 1
> 1 INSERT INTO p VALUES (7)
1 INSERT 0 1
> 1 INSERT INTO p VALUES (8)
1 INSERT 0 1
> 1 INSERT INTO p VALUES (9)
1 INSERT 0 1
> 1 INSERT INTO p VALUES (10)
1 INSERT 0 1
> 1 COMMIT
1 COMMIT
> 1 BEGIN
1 BEGIN
> 2 BEGIN
2 BEGIN
> 1 SELECT * FROM p WHERE id = 1
1 SELECT 1
1 | 1
> 1 INSERT INTO c VALUES (5, 10)
1 INSERT 0 1
> 2 DELETE FROM p WHERE id = 1
2 DELETE 1
> 2 DELETE FROM p WHERE id = 2
2 DELETE 1
> 2 DELETE FROM p WHERE id = 3
2 DELETE 1
> 2 DELETE FROM p WHERE id = 4
2 DELETE 1
> 2 DELETE FROM p WHERE id = 5
2 DELETE 1
> 2 DELETE FROM p WHERE id = 6
2 DELETE 1
> 2 DELETE FROM p WHERE id = 7
2 DELETE 1
> 2 DELETE FROM p WHERE id = 8
2 DELETE 1
> 2 DELETE FROM p WHERE id = 9
2 DELETE 1
> 1 COMMIT
1 COMMIT
> 2 COMMIT
2 ERROR 40001 cause 2 3 2
= txn 1 key 1 1 1
= txn 2 key 2 1 2
= check yes
";

// As in tests/references.transcript: eight deleted rows that might be referenced
const EIGHT_DELETED: &str = "\
CREATE TABLE p (id bigint PRIMARY KEY);
CREATE TABLE c (id bigint PRIMARY KEY, p bigint REFERENCES p);
> 1 BEGIN
1 BEGIN
> 1 INSERT INTO p VALUES (1)
1 INSERT 0 1
> 1 INSERT INTO p VALUES (2)
1 INSERT 0 1
> 1 INSERT INTO p VALUES (3)
1 INSERT 0 1
> 1 INSERT INTO p VALUES (4)
1 INSERT 0 1
> 1 INSERT INTO p VALUES (5)
1 INSERT 0 1
> 1 INSERT INTO p VALUES (6)
1 INSERT 0 1
> 1 INSERT INTO p VALUES (7)
1 INSERT 0 1
> 1 INSERT INTO p VALUES (8)
1 INSERT 0 1
> 1 INSERT INTO p VALUES (9)
1 INSERT 0 1
> 1 INSERT INTO p VALUES (10)
1 INSERT 0 1
> 1 COMMIT
1 COMMIT
> 1 BEGIN
1 BEGIN
> 2 BEGIN
2 BEGIN
> 1 SELECT * FROM p WHERE id = 1
1 SELECT 1
1 | 1
> 1 INSERT INTO c VALUES (5, 10)
1 INSERT 0 1
> 2 DELETE FROM p WHERE id = 1
2 DELETE 1
> 2 DELETE FROM p WHERE id = 2
2 DELETE 1
> 2 DELETE FROM p WHERE id = 3
2 DELETE 1
> 2 DELETE FROM p WHERE id = 4
2 DELETE 1
> 2 DELETE FROM p WHERE id = 5
2 DELETE 1
> 2 DELETE FROM p WHERE id = 6
2 DELETE 1
> 2 DELETE FROM p WHERE id = 7
2 DELETE 1
> 2 DELETE FROM p WHERE id = 8
2 DELETE 1
> 1 COMMIT
1 COMMIT
> 2 COMMIT
2 COMMIT
= txn 1 key 1 1 1
= txn 2 key 2 1 2
= txn 3 key 3 1 3
= check yes
";

/// All of them. Their sessions are at most 4, their events at most 40.
pub const SCRIPTS: [&str; 15] = [
    WRITE_SKEW,
    ONE_CONFLICT,
    READER_AFTER_THE_CLOSE,
    READER_BEFORE_THE_CLOSE,
    REFERENCES,
    ABSENT_ROW,
    NINE_KEYS,
    EIGHT_KEYS,
    FIRST_UPDATER,
    DEFERRABLE,
    EXPORT,
    READ_ONLY_ANOMALY,
    ANOTHER_ROW,
    NINE_DELETED,
    EIGHT_DELETED,
];

/// The script at a place in the list.
pub fn script_at(place: usize) -> Result<&'static str, Refusal> {
    match SCRIPTS.get(place) {
        Some(script) => Ok(*script),
        None => Err(not_asked()),
    }
}

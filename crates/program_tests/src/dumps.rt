//! Dumps that are restored, and written by a script.

use crate::driver::{Given, assert_ends};
use scarce::dumps::EXAMPLE;
use std::test::Fail;

// A dump of four rows, as version 1 has it.
pub const OLD_EXAMPLE: &str = "\
-- dump 1
CREATE TABLE p (id bigint PRIMARY KEY, name text NOT NULL);
CREATE TABLE c (id bigint PRIMARY KEY, p bigint REFERENCES p, raw bytea);
COPY p (id, name) FROM stdin;
1\ta
2\tx\\ty
\\.
COPY c (id, p, raw) FROM stdin;
-5\t2\t\\\\x00ff
7\t\\N\t\\N
\\.
-- end
";

#[test]
fn restored(rt: HostRuntime) -> Result<(), Fail> {
    for (words, out) in [
        ("restore - --out o", "o"),
        ("restore - --out out --jobs 1", "out"),
        ("restore --jobs=8 --out=- -", "-"),
    ] {
        for input in [OLD_EXAMPLE, EXAMPLE] {
            let given = Given {
                out,
                room: EXAMPLE.as_bytes(),
                ..Given::of(words, input)
            };
            assert_ends(&rt, given, (0, "RESTORE 2 tables 4 rows\n", ""))?;
        }
    }
    Ok(())
}

// The report that waits for a safe snapshot, and its dump.
// As in tests/dumped_scripts.transcript: a report that waits for a safe snapshot
const REPORT: &str = "\
CREATE TABLE batch (id bigint PRIMARY KEY, n bigint);
CREATE TABLE receipt (id bigint PRIMARY KEY, n bigint);
1 BEGIN;
1 INSERT INTO batch VALUES (1, 1);
1 COMMIT;
2 BEGIN;
2 SELECT n FROM batch WHERE id = 1;
3 BEGIN;
3 UPDATE batch SET n = n + 1 WHERE id = 1;
3 COMMIT;
4 DUMP 2 1 out;
4 BEGIN READ ONLY DEFERRABLE;
4 POLL;
4 SELECT * FROM batch;
4 DUMP 2 1 out;
2 INSERT INTO receipt VALUES (1, 1);
2 COMMIT;
4 POLL;
4 SELECT * FROM receipt;
4 DUMP 2 1 out;
4 COMMIT;
";

const REPORT_REPLIES: &str = "\
1 BEGIN
1 INSERT 0 1
1 COMMIT
2 BEGIN
2 SELECT 1
2 | 1
3 BEGIN
3 UPDATE 1
3 COMMIT
4 ERROR 25P01
4 BEGIN
4 WAIT
4 ERROR 55000
4 ERROR 55000
2 INSERT 0 1
2 COMMIT
4 SAFE 3
4 SELECT 1
4 | 1\t1
4 DUMP
4 COMMIT
";

const REPORT_DUMP: &str = "\
-- dump 2
CREATE TABLE batch (id bigint PRIMARY KEY, n bigint);
CREATE TABLE receipt (id bigint PRIMARY KEY, n bigint);
COPY batch (id, n) FROM stdin;
1\t2
\\.
-- rows 1
COPY receipt (id, n) FROM stdin;
1\t1
\\.
-- rows 1
-- end
";

const REPORT_AUDIT: &str = "\
txn 1 key 1 1 1
txn 2 key 2 0 3
txn 3 key 2 1 2
txn 4 key 3 2 16
check yes
";

// Under both words the script writes the dump.
#[test]
fn deferrable_dump(rt: HostRuntime) -> Result<(), Fail> {
    for (words, want) in [("run -", REPORT_REPLIES), ("audit -", REPORT_AUDIT)] {
        let given = Given {
            room: REPORT_DUMP.as_bytes(),
            ..Given::of(words, REPORT)
        };
        assert_ends(&rt, given, (0, want, ""))?;
    }
    Ok(())
}

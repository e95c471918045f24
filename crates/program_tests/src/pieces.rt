//! In how many pieces a DUMP line writes its dump.

use crate::driver::{Given, status_of};
use scarce::dumps::SEVEN_KEYS_AND_NONE;
use std::process::Abort;
use std::sync::Wait;
use std::test::Fail;
use std::thread::Threads;

// A table of seven rows and one of none, and a session that may dump them.
const SEVEN: &str = "\
CREATE TABLE t (id bigint PRIMARY KEY);
CREATE TABLE u (id bigint PRIMARY KEY);
1 BEGIN;
1 INSERT INTO t VALUES (1);
1 INSERT INTO t VALUES (2);
1 INSERT INTO t VALUES (3);
1 INSERT INTO t VALUES (4);
1 INSERT INTO t VALUES (5);
1 INSERT INTO t VALUES (6);
1 INSERT INTO t VALUES (7);
1 COMMIT;
1 BEGIN READ ONLY DEFERRABLE;
1 POLL;
";

// How often something is written at a DUMP line.
fn writes_of<R: Abort + AllocGlobal + Sync + Threads + Wait>(
    rt: &R,
    words: &str,
    dump: &str,
) -> Result<u64, Fail> {
    let script = format!(in rt.alloc(); "{SEVEN}{dump}")?;
    let given = Given {
        room: SEVEN_KEYS_AND_NONE.as_bytes(),
        ..Given::of(words, script.as_str())
    };
    let mut out = Vec::new(rt.alloc());
    let mut err = Vec::new(rt.alloc());
    let (status, writes) = status_of(rt, given, &mut out, &mut err)?;
    assert_eq!(rt; status, 0);
    Ok(writes)
}

// The head and the end are a piece each; a table of seven rows is cut at each so-manyth, and one without
// rows is a piece.
#[test]
fn pieces_of_so_many_rows(rt: HostRuntime) -> Result<(), Fail> {
    for (words, dump, pieces) in [
        ("run -", "1 DUMP 1 1 out;\n", 10),
        ("run -", "1 DUMP 1 3 out;\n", 6),
        ("run -", "1 DUMP 8 3 out;\n", 6),
        ("run -", "1 DUMP 3 1 out;\n", 10),
        ("run -", "1 DUMP 1 6 out;\n", 5),
        ("run -", "1 DUMP 1 7 out;\n", 4),
        ("run -", "1 DUMP 64 1000000 out;\n", 4),
        ("run - --free", "1 DUMP 1 1 out;\n", 10),
        ("run - --free", "1 DUMP 8 3 out;\n", 6),
        ("run - --free", "1 DUMP 64 1000000 out;\n", 4),
    ] {
        assert_eq!(rt; writes_of(&rt, words, dump)?, pieces, "{dump}");
    }
    Ok(())
}

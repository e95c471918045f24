//! A script whose sessions run on threads, which prints the same in every schedule.

use crate::driver::{Given, assert_ends};
use std::test::Fail;

// Two sessions that write to tables of their own.
// As in tests/free_sessions.transcript: two writers
const WRITERS: &str = "\
CREATE TABLE a (id bigint PRIMARY KEY);
CREATE TABLE b (id bigint PRIMARY KEY);
1 BEGIN;
2 BEGIN;
1 INSERT INTO a VALUES (1);
2 INSERT INTO b VALUES (1);
1 COMMIT;
2 COMMIT;
";

const REPLIES: &str = "\
1 BEGIN
1 INSERT 0 1
1 COMMIT
2 BEGIN
2 INSERT 0 1
2 COMMIT
";

const CHECKED: &str = "\
1 BEGIN
1 INSERT 0 1
1 COMMIT
2 BEGIN
2 INSERT 0 1
2 COMMIT
check yes
";

#[test]
fn two_writers(rt: HostRuntime) -> Result<(), Fail> {
    for (words, want) in [
        ("run - --free", CHECKED),
        ("run --events 6 --free -", CHECKED),
        ("run - --free --no-check", REPLIES),
        ("run --no-check --free -", REPLIES),
    ] {
        assert_ends(&rt, Given::of(words, WRITERS), (0, want, ""))?;
    }
    Ok(())
}

// The check of an order that isn't asked for can't be left out.
#[test]
fn no_check_without_free(rt: HostRuntime) -> Result<(), Fail> {
    for words in ["run - --no-check", "audit - --no-check"] {
        assert_ends(&rt, Given::of(words, WRITERS), (2, "", "error: "))?;
    }
    Ok(())
}

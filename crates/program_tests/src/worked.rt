//! A worked script: what `run` replies to it, and the serial order that `audit` prints.

use crate::driver::{Given, assert_ends};
use std::test::Fail;

// The lines of the script stand after `> `, the replies after two spaces, and what the audit prints after `= `.
// As in tests/isolation.transcript: a read-only anomaly
const ANOMALY: &str = "\
> CREATE TABLE account (id bigint PRIMARY KEY, balance bigint);
> 1 BEGIN;
> 1 INSERT INTO account VALUES (1, 0);
> 1 INSERT INTO account VALUES (2, 0);
> 1 COMMIT;
> 2 BEGIN;
> 2 SELECT * FROM account;
> 3 BEGIN;
> 3 UPDATE account SET balance = balance + 20 WHERE id = 2;
> 3 COMMIT;
> 1 BEGIN READ ONLY;
> 1 SELECT * FROM account;
> 1 COMMIT;
> 2 UPDATE account SET balance = balance - 11 WHERE id = 1;
> 2 COMMIT;
  1 BEGIN
  1 INSERT 0 1
  1 INSERT 0 1
  1 COMMIT
  2 BEGIN
  2 SELECT 2
  2 | 1\t0
  2 | 2\t0
  3 BEGIN
  3 UPDATE 1
  3 COMMIT
  1 BEGIN
  1 SELECT 2
  1 | 1\t0
  1 | 2\t20
  1 COMMIT
  2 UPDATE 1
  2 ERROR 40001 cause 4 2 3
= txn 1 key 1 1 1
= txn 3 key 2 1 2
= txn 4 key 2 2 12
= check yes
";

// What follows a mark in a script's lines, each with its newline.
fn behind<R: AllocGlobal>(rt: &R, script: &str, mark: &str) -> Result<String, Fail> {
    let mut text = String::new(rt.alloc());
    for line in script.lines() {
        if let Some(line) = line.strip_prefix(mark) {
            text.push_str(line)?;
            text.push_str("\n")?;
        }
    }
    Ok(text)
}

#[test]
fn replies_and_a_serial_order(rt: HostRuntime) -> Result<(), Fail> {
    let lines = behind(&rt, ANOMALY, "> ")?;
    for (words, mark) in [("run -", "  "), ("audit -", "= ")] {
        let want = behind(&rt, ANOMALY, mark)?;
        let given = Given::of(words, lines.as_str());
        assert_ends(&rt, given, (0, want.as_str(), ""))?;
    }
    Ok(())
}

//! Tables that are read of a dump.

use restore::restore_one;
use schema::catalog::Catalog;
use schema::tables::Tables;
use std::alloc::Global;
use std::process::Abort;
use value::refusal::{Code, Refusal};

/// The refusal of a case that isn't written as it should be. No tried call answers it.
pub fn not_a_case() -> Refusal {
    Refusal::of_code(Code::SyntaxError)
}

/// What stands before and after the first of these words.
pub fn cut<'t>(text: &'t str, word: &str) -> Result<(&'t str, &'t str), Refusal> {
    text.split_once(word).ok_or(not_a_case())
}

/// Ends the test, and names the case, where this doesn't hold.
pub fn check(rt: &impl Abort, holds: bool, case: &str) {
    assert!(rt; holds, "{case}");
}

/// The tables of a dump.
pub fn tables_of(alloc: Global, dump: &str) -> Result<(Catalog, Tables), Refusal> {
    restore_one(alloc, dump.as_bytes()).ok().ok_or(not_a_case())
}

/// No table.
pub const NOTHING: &str = "-- dump 2
-- end
";

/// A table of six keys.
pub const SIX_KEYS: &str = "-- dump 2
CREATE TABLE t (id bigint PRIMARY KEY);
COPY t (id) FROM stdin;
1
2
3
4
5
6
\\.
-- rows 6
-- end
";

/// A table of seven keys.
pub const SEVEN_KEYS: &str = "-- dump 2
CREATE TABLE t (id bigint PRIMARY KEY);
COPY t (id) FROM stdin;
1
2
3
4
5
6
7
\\.
-- rows 7
-- end
";

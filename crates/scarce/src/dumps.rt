//! Dumps that more than one crate of tests reads or writes.

/// Texts, a bytea, nulls and a reference: two names, and two rows of bytes, of which one belongs to the second name.
pub const EXAMPLE: &str = "-- dump 2
CREATE TABLE p (id bigint PRIMARY KEY, name text NOT NULL);
CREATE TABLE c (id bigint PRIMARY KEY, p bigint REFERENCES p, raw bytea);
COPY p (id, name) FROM stdin;
1\ta
2\tx\\ty
\\.
-- rows 2
COPY c (id, p, raw) FROM stdin;
-5\t2\t\\\\x00ff
7\t\\N\t\\N
\\.
-- rows 2
-- end
";

/// A table of seven keys, and one of none.
pub const SEVEN_KEYS_AND_NONE: &str = "-- dump 2
CREATE TABLE t (id bigint PRIMARY KEY);
CREATE TABLE u (id bigint PRIMARY KEY);
COPY t (id) FROM stdin;
1
2
3
4
5
6
7
\\.
-- rows 7
COPY u (id) FROM stdin;
\\.
-- rows 0
-- end
";

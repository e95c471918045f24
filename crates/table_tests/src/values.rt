//! The order of values.

use crate::cases::cut;
use std::alloc::Global;
use std::cmp::Ordering;
use value::kind::Kind;
use value::refusal::Refusal;
use value::value::Value;

// Values of all kinds, in order: each kind, and the literal.
const IN_ORDER: &str = "\
null:
bigint:-9223372036854775808
bigint:-1
bigint:0
bigint:9223372036854775807
text:
text:a
text:aa
text:b
text:é
bytea:\\x
bytea:\\x00ff
bytea:\\x01
bytea:\\xff";

fn value(alloc: Global, text: &str) -> Result<Value, Refusal> {
    let (kind, literal) = cut(text)?;
    let kind = match kind {
        "bigint" => Kind::Bigint,
        "text" => Kind::Text,
        "bytea" => Kind::Bytea,
        _ => return Ok(Value::Null),
    };
    Value::of_literal(alloc, kind, literal.as_bytes())
}

fn compare(alloc: Global, left: &str, right: &str) -> Result<Ordering, Refusal> {
    let left = value(alloc, left)?;
    Ok(left.cmp(&value(alloc, right)?))
}

#[test]
fn values_compare(rt: HostRuntime) -> Result<(), Refusal> {
    for (i, left) in IN_ORDER.lines().enumerate() {
        for (j, right) in IN_ORDER.lines().enumerate() {
            let order = compare(rt.alloc(), left, right)?;
            assert!(rt; order == i.cmp(&j), "{left} and {right}");
        }
    }
    Ok(())
}

//! Literals, copies of values and keys, and their texts.

use crate::driver::{Call, assert_takes};
use crate::fixture::not_asked;
use scarce::Scarce;
use std::alloc::Allocator;
use value::decimal::push_decimal;
use value::hexadecimal::push_hexadecimal;
use value::key::Key;
use value::kind::Kind;
use value::refusal::Refusal;
use value::value::Value;

// What is asked of a literal's value.
#[derive(Clone, Copy)]
enum Asked {
    Read,
    CopyValue,
    CopyKey,
    Append,
}

// A call, and the literal that it is of.
#[derive(Drop)]
struct Tried<'t, A> {
    alloc: A,
    asked: Asked,
    kind: Kind,
    text: &'t str,
}

// The literal's value, a key of it, and a full list of bytes.
#[derive(Drop)]
#[derive_where(Debug)]
struct Lent<A: Allocator> {
    value: Value<A>,
    key: Key<A>,
    line: Vec<u8, A>,
}

// What is answered.
#[derive(Drop)]
#[derive_where(Debug)]
enum Answer<A: Allocator> {
    Value(Value<A>),
    Key(Key<A>),
    Done,
}

// Appends the text of a number or of a bytea.
fn append<A: Allocator>(value: &Value<A>, line: &mut Vec<u8, A>) -> Result<(), Refusal> {
    match value {
        Value::Int(number) => push_decimal(*number, line),
        Value::Bytes(bytes) => push_hexadecimal(bytes.as_slice(), line),
        _ => Err(not_asked()),
    }
}

impl<'t, A: Allocator + Copy> Tried<'t, A> {
    fn read(&self) -> Result<Value<A>, Refusal> {
        Value::of_literal(self.alloc, self.kind, self.text.as_bytes())
    }
}

impl<'t, A: Allocator + Copy> Call for Tried<'t, A> {
    type Lent = Lent<A>;

    type Answer = Answer<A>;

    fn lend(&self) -> Result<Lent<A>, Refusal> {
        let value = self.read()?;
        let key = Key::new(self.read()?).ok_or(not_asked())?;
        let line = Vec::from_slice(self.alloc, b"full")?;
        Ok(Lent { value, key, line })
    }

    fn call(&self, lent: &mut Lent<A>) -> Result<Answer<A>, Refusal> {
        match self.asked {
            Asked::Read => Ok(Answer::Value(self.read()?)),
            Asked::CopyValue => Ok(Answer::Value(lent.value.copy(self.alloc)?)),
            Asked::CopyKey => Ok(Answer::Key(lent.key.copy(self.alloc)?)),
            Asked::Append => {
                append(&lent.value, &mut lent.line)?;
                Ok(Answer::Done)
            }
        }
    }
}

const TEXT: (Kind, &str) = (Kind::Text, "a name of some bytes");

const BYTEA: (Kind, &str) = (Kind::Bytea, "\\x00ff");

const BIGINT: (Kind, &str) = (Kind::Bigint, "-9223372036854775808");

#[test]
fn literals_copies_and_texts(rt: HostRuntime) -> Result<(), Refusal> {
    let memory = Scarce::new(rt.alloc());
    let alloc = &memory;
    for (asked, (kind, text)) in [
        (Asked::Read, TEXT),
        (Asked::Read, BYTEA),
        (Asked::CopyValue, TEXT),
        (Asked::CopyValue, BYTEA),
        (Asked::CopyKey, TEXT),
        (Asked::CopyKey, BYTEA),
        (Asked::Append, BIGINT),
        (Asked::Append, BYTEA),
    ] {
        let tried = Tried {
            alloc,
            asked,
            kind,
            text,
        };
        assert_takes(&rt, &memory, &tried, 1)?;
    }
    Ok(())
}

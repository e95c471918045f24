//! What no contract can say, since a shared counter's number has no name in a clause.

use crate::Scarce;
use std::alloc::Allocator;
use std::test::Fail;
use std::thread::{Threads, join};

#[test]
fn one_request_is_refused_and_each_is_counted(rt: HostRuntime) -> Result<(), Fail> {
    let memory = Scarce::new(rt.alloc());
    memory.refuse(2);
    for (number, is_given) in [(1, true), (2, false), (3, true)] {
        assert_eq!(rt;
            Box::new(&memory, 7u8).is_ok(),
            is_given,
            "request {number}"
        );
        assert_eq!(rt; memory.requests(), number);
    }
    memory.refuse(1);
    memory.refuse(0);
    assert!(rt; Box::new(&memory, 7u8).is_ok());
    Ok(())
}

#[test]
fn a_refused_growth_leaves_what_was_there(rt: HostRuntime) -> Result<(), Fail> {
    let memory = Scarce::new(rt.alloc());
    let mut text = Vec::with_capacity(&memory, 1)?;
    text.push(b'a')?;
    memory.refuse(1);
    assert!(rt; text.push(b'b').is_err());
    assert_eq!(rt; text.as_slice(), b"a".as_slice());
    text.push(b'b')?;
    assert_eq!(rt; text.as_slice(), b"ab".as_slice());
    assert_eq!(rt; memory.requests(), 3);
    Ok(())
}

// How many of ten requests are refused.
fn refused_of_ten<A: Allocator + Copy>(alloc: A) -> u64 {
    let mut refused = 0u64;
    for _ in 0..10 {
        if Box::new(alloc, 7u8).is_err() {
            refused = refused.wrapping_add(1);
        }
    }
    refused
}

// How many of ten requests are refused on each of two threads.
fn refused_of_two_threads<A: Allocator + Copy + Send + Sync>(
    rt: &impl Threads,
    alloc: A,
) -> (u64, u64) {
    join(rt, || refused_of_ten(alloc), || refused_of_ten(alloc))
}

#[test]
fn threads_share_one_count(rt: HostRuntime) {
    let memory = Scarce::new(rt.alloc());
    memory.refuse(12);
    let (here, there) = refused_of_two_threads(&rt, &memory);
    assert_eq!(rt; here.wrapping_add(there), 1);
    assert_eq!(rt; memory.requests(), 20);
}

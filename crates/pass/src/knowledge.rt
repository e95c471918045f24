//! What a seat knows of the history.

use history::event::{Action, Record};
use statement::reply::Reply;
use std::alloc::Allocator;
use std::collections::LinkedList;

/// What a seat at the history word knows. It is for proofs: no value of it is made.
pub struct Knowledge<A: Allocator> {
    /// A beginning of the history.
    pub seen: LinkedList<Record<A>>,
    /// What another seat has seen, which this seat was given: a beginning of the history too.
    pub told: LinkedList<Record<A>>,
    /// Whether it is the lock's own seat, which has seen the whole history.
    pub keeps: bool,
    /// How many sessions it made, where it is the lock's seat.
    pub made: u32,
    /// Whether it has the right to act for its session, with all that the session did.
    pub holds: bool,
    pub session: u32,
    pub mine: LinkedList<(Action<A>, Reply<A>)>,
    /// The event that comes next, where it is the lock's seat.
    pub next: Record<A>,
}

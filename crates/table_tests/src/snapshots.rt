//! What makes a snapshot safe, and what spoils it.

use crate::cases::{check, not_a_case};
use crate::numbers::{cut, number, txn};
use safesnap::waiting::{State, Waiting};
use value::refusal::{Refusal, TxnNo};

// A first conflict out: the number of a commit, or `no`.
fn first_out(word: &str) -> Result<Option<u64>, Refusal> {
    match word {
        "no" => Ok(None),
        word => Ok(Some(number(word)?)),
    }
}

// Reports each transaction that ends: its number and its first conflict out.
fn end_each(waiting: &mut Waiting, ends: &str) -> Result<(), Refusal> {
    for end in ends.split(" ") {
        if end != "none" {
            let (ended, out) = cut(end, ">")?;
            waiting.ended(txn(ended)?, first_out(out)?);
        }
    }
    Ok(())
}

// The state of a snapshot at which 4 and 6 were active.
fn state_after(at: &str, ends: &str) -> Result<State, Refusal> {
    let mut waiting = Waiting::open(number(at)?, &[TxnNo(4), TxnNo(6)]);
    end_each(&mut waiting, ends)?;
    Ok(waiting.state())
}

fn state(word: &str) -> Result<State, Refusal> {
    match word {
        "safe" => Ok(State::Safe),
        "waits" => Ok(State::Wait),
        "unsafe" => Ok(State::Unsafe),
        _ => Err(not_a_case()),
    }
}

// The number of a snapshot, followed by the ends of transactions: `4>3` has a conflict out to commit 3, and `4>no`
// none.
const STATES: &str = "\
3 none: waits
3 4>no: waits
3 6>no 4>no: safe
3 4>4 6>5: safe
3 4>3: unsafe
3 4>2 6>no: unsafe
3 4>no 6>3: unsafe
3 5>1 7>3: waits
3 4>no 4>3 6>no: safe
0 4>1 6>1: safe
0 4>0: unsafe";

// Whether a case has its state.
fn is_so(case: &str) -> Result<bool, Refusal> {
    let (case, want) = cut(case, ": ")?;
    let (at, ends) = cut(case, " ")?;
    Ok(state_after(at, ends)? == state(want)?)
}

#[test]
fn a_snapshot_is_safe_once_all_have_ended_and_none_spoilt_it(
    rt: HostRuntime,
) -> Result<(), Refusal> {
    for case in STATES.lines() {
        check(&rt, is_so(case)?, case);
    }
    let is_safe = Waiting::open(3, &[]).state() == State::Safe;
    check(&rt, is_safe, "none was active");
    Ok(())
}

#[test]
fn one_for_each_session_is_waited_for(rt: HostRuntime) {
    let mut active = [TxnNo(0); 64];
    for (place, number) in active.iter_mut().enumerate() {
        *number = TxnNo(place as u64 + 2);
    }
    let mut waiting = Waiting::open(1, &active);
    for number in 2..66 {
        check(&rt, waiting.state() == State::Wait, "one is left");
        waiting.ended(TxnNo(number), None);
    }
    check(&rt, waiting.state() == State::Safe, "none is left");
}

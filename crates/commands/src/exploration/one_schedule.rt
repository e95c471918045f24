//! The script of one schedule.

use crate::exploration::fault::Fault;
use explore::ordered;
use explore::ordered::Unordered;
use explore::setup::Setup;
use std::alloc::Allocator;

// The session of a word: 1 to 64 in decimal, without leading zeros.
fn session_of(word: &str) -> Option<u32> {
    let digits = word.as_bytes();
    if digits.len() > 2
        || digits.first() == Some(&b'0')
        || !digits.iter().all(|byte| byte.is_ascii_digit())
    {
        return None;
    }
    match word.parse::<u32>() {
        Ok(session) if session <= 64 => Some(session),
        _ => None,
    }
}

// The sessions of an order.
fn sessions_of<'p, A: Allocator>(alloc: A, order: &str) -> Result<Vec<u32, A>, Fault<'p>> {
    let mut sessions = Vec::new(alloc);
    for word in order.split(' ') {
        let Some(session) = session_of(word) else {
            return Err(Fault::NoOrder);
        };
        if sessions.push(session).is_err() {
            return Err(Fault::memory());
        }
    }
    Ok(sessions)
}

/// The script of the schedule in which the sessions go in this order.
pub(crate) fn ordered_text<'p, A: Allocator + Copy>(
    alloc: A,
    script: &[u8],
    setup: &Setup<A>,
    order: &str,
) -> Result<Vec<u8, A>, Fault<'p>> {
    let sessions = sessions_of(alloc, order)?;
    let turns = setup.turns.as_slice();
    match ordered::ordered_text(alloc, script, setup.last, turns, sessions.as_slice()) {
        Ok(text) => Ok(text),
        Err(Unordered::NoOrder) => Err(Fault::NoOrder),
        Err(Unordered::Memory) => Err(Fault::memory()),
    }
}

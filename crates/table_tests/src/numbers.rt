//! Numbers in the texts of cases.

use crate::cases::not_a_case;
use value::refusal::{Refusal, TxnNo};

/// What stands before and after the first of these words.
pub fn cut<'t>(text: &'t str, word: &str) -> Result<(&'t str, &'t str), Refusal> {
    text.split_once(word).ok_or(not_a_case())
}

pub fn number(word: &str) -> Result<u64, Refusal> {
    word.parse().ok().ok_or(not_a_case())
}

pub fn txn(word: &str) -> Result<TxnNo, Refusal> {
    Ok(TxnNo(number(word)?))
}

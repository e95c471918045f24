//! What the tests share: texts of cases, and assertions.

use std::process::Abort;
use value::refusal::{Code, Refusal};

/// The refusal of a case that isn't written as it should be. No tried call answers it.
pub fn not_a_case() -> Refusal {
    Refusal::of_code(Code::SyntaxError)
}

/// What stands before and after the first colon.
pub fn cut(text: &str) -> Result<(&str, &str), Refusal> {
    text.split_once(":").ok_or(not_a_case())
}

/// Ends the test, and names the case, where this doesn't hold.
pub fn check(rt: &impl Abort, holds: bool, case: &str) {
    assert!(rt; holds, "{case}");
}

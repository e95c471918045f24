//! The tracker of conflicts, with and without forgetting after each step.

use crate::cases::{check, not_a_case};
use crate::numbers::{cut, number, txn};
use conflict::conflicts::Conflicts;
use std::alloc::{Allocator, Global};
use value::refusal::{Cause, Mode, Refusal, TxnNo};

// The two numbers of a pair, as `2>3`.
fn pair(word: &str) -> Result<(u64, u64), Refusal> {
    let (first, second) = cut(word, ">")?;
    Ok((number(first)?, number(second)?))
}

// A transaction commits, unless it would make a structure; no test makes a hundred commits.
fn commit<A: Allocator>(
    conflicts: &mut Conflicts<A>,
    word: &str,
    refused: &mut Option<Cause>,
) -> Result<(), Refusal> {
    let txn = txn(word)?;
    if conflicts.last_commit() > 100 {
        return Err(not_a_case());
    }
    match conflicts.check(txn) {
        Some(cause) => *refused = Some(cause),
        None => {
            let number = conflicts.next_commit(txn);
            conflicts.committed(txn, number);
        }
    }
    Ok(())
}

// A transaction begins, with a snapshot.
fn begin<A: Allocator + Copy>(
    alloc: A,
    conflicts: &mut Conflicts<A>,
    mode: Mode,
    word: &str,
) -> Result<(), Refusal> {
    let (txn, snapshot) = pair(word)?;
    if conflicts.last_begun() >= txn || snapshot > conflicts.last_commit() {
        return Err(not_a_case());
    }
    conflicts.begin(alloc, TxnNo(txn), mode, snapshot)
}

// The first has read what the second wrote.
fn edge<A: Allocator + Copy>(
    alloc: A,
    conflicts: &mut Conflicts<A>,
    word: &str,
) -> Result<(), Refusal> {
    let (reader, writer) = pair(word)?;
    let pair = (TxnNo(reader), TxnNo(writer));
    if conflicts.have_committed(pair.0, pair.1) {
        return Err(not_a_case());
    }
    conflicts.edges(alloc, &[pair])
}

fn moved<A: Allocator>(conflicts: &mut Conflicts<A>, word: &str) -> Result<(), Refusal> {
    let (txn, snapshot) = pair(word)?;
    if snapshot > conflicts.last_commit() {
        return Err(not_a_case());
    }
    conflicts.moved(TxnNo(txn), snapshot);
    Ok(())
}

fn dropped<A: Allocator>(conflicts: &mut Conflicts<A>, word: &str) -> Result<(), Refusal> {
    conflicts.dropped(txn(word)?);
    Ok(())
}

fn forget<A: Allocator>(conflicts: &mut Conflicts<A>) {
    let oldest = conflicts.oldest();
    conflicts.forget(oldest);
}

// Reports what a letter and a word say; the structure for which a commit is refused is kept.
fn tell<A: Allocator + Copy>(
    alloc: A,
    conflicts: &mut Conflicts<A>,
    (letter, word): (&str, &str),
    refused: &mut Option<Cause>,
) -> Result<(), Refusal> {
    match letter {
        "W" => begin(alloc, conflicts, Mode::ReadWrite, word),
        "R" => begin(alloc, conflicts, Mode::ReadOnly, word),
        "E" => edge(alloc, conflicts, word),
        "M" => moved(conflicts, word),
        "D" => dropped(conflicts, word),
        "C" => commit(conflicts, word, refused),
        _ => Err(not_a_case()),
    }
}

// Reports these, one after the other, and returns the last structure for which a commit was refused. Where asked for,
// all that can be is forgotten after each.
fn tell_all<A: Allocator + Copy>(
    alloc: A,
    conflicts: &mut Conflicts<A>,
    steps: &str,
    forgets: bool,
) -> Result<Option<Cause>, Refusal> {
    let mut refused = None;
    for step in steps.split(" ") {
        let step = step.split_at_checked(1).ok_or(not_a_case())?;
        tell(alloc, conflicts, step, &mut refused)?;
        if forgets {
            forget(conflicts);
        }
    }
    Ok(refused)
}

// A structure, as `2 3 2`.
fn cause(text: &str) -> Result<Cause, Refusal> {
    let (a, rest) = cut(text, " ")?;
    let (b, c) = cut(rest, " ")?;
    Ok(Cause {
        a: txn(a)?,
        b: txn(b)?,
        c: txn(c)?,
    })
}

// Whether these are the structures `2 3 2, 4 5 2`, or `none`.
fn are_causes(found: &[Cause], want: &str) -> Result<bool, Refusal> {
    if want == "none" {
        return Ok(found.is_empty());
    }
    let mut left = found;
    for text in want.split(", ") {
        let [first, rest @ ..] = left else {
            return Ok(false);
        };
        if *first != cause(text)? {
            return Ok(false);
        }
        left = rest;
    }
    Ok(left.is_empty())
}

// Whether these are what the commit of a transaction dooms. More than 63 are never asked for.
fn are_dooms<A: Allocator>(
    conflicts: &Conflicts<A>,
    committer: TxnNo,
    want: &str,
) -> Result<bool, Refusal> {
    if conflicts.rivals(committer) > 63 {
        return Err(not_a_case());
    }
    are_causes(conflicts.dooms(committer).causes(), want)
}

// Whether this is the number `2`, or `none`.
fn is_number(found: Option<u64>, want: &str) -> Result<bool, Refusal> {
    match found {
        Some(found) => Ok(want != "none" && found == number(want)?),
        None => Ok(want == "none"),
    }
}

// Whether a question has this answer.
fn is_answer<A: Allocator>(
    conflicts: &Conflicts<A>,
    refused: Option<Cause>,
    question: &str,
    want: &str,
) -> Result<bool, Refusal> {
    if question == "?" {
        return are_causes(refused.as_slice(), want);
    }
    let (letter, word) = question.split_at_checked(1).ok_or(not_a_case())?;
    let txn = txn(word)?;
    match letter {
        "X" => are_dooms(conflicts, txn, want),
        "F" => is_number(conflicts.first_out(txn), want),
        "K" => Ok(conflicts.has_committed(txn) == (want == "yes")),
        _ => Err(not_a_case()),
    }
}

// Whether a tracker has the answer of a case, once the case's steps were reported to it after one transaction and one
// commit.
fn is_so(alloc: Global, case: &str, forgets: bool) -> Result<bool, Refusal> {
    let (told, want) = cut(case, ": ")?;
    let (steps, question) = told.rsplit_once(" ").ok_or(not_a_case())?;
    let mut conflicts = Conflicts::new(alloc, 1, 1);
    let refused = tell_all(alloc, &mut conflicts, steps, forgets)?;
    is_answer(&conflicts, refused, question, want)
}

// `W2>1`: transaction 2 begins, read-write, with a snapshot of one commit; `R` read-only.
// `E2>3`: 2 has read what 3 wrote. `M2>2`: 2 has another snapshot. `C2`, `D2`: it commits, is dropped.
// `?`: the structure for which a commit is refused.
const COMMITS: &str = "\
W2>1 W3>1 E2>3 E3>2 C2 C3 ?: 2 3 2
W2>1 W3>1 E2>3 E3>2 C3 C2 ?: 3 2 3
W2>1 W3>1 E2>3 E3>2 D2 C3 ?: none
W2>1 W3>1 E2>3 C3 R4>2 C4 E4>2 C2 ?: 4 2 3
W2>1 R3>1 W4>1 E2>4 E3>4 C4 C3 E3>2 C2 ?: none
W2>1 W3>1 W4>1 E3>4 E2>3 C4 C3 C2 ?: 2 3 4
W2>1 W3>1 W4>1 W5>1 E4>5 C5 E2>4 E3>4 C3 C2 C4 ?: 2 4 5
W2>1 W3>1 W4>1 W5>1 E3>4 E3>5 E2>3 C5 C4 C2 C3 ?: 2 3 5
W3>1 W4>1 E4>3 C3 W5>2 C4 E5>4 C5 ?: 5 4 3
W3>1 W4>1 E4>3 C3 R5>2 C4 E5>4 C5 ?: 5 4 3
W2>1 W3>1 W4>1 E2>3 E3>4 C3 C4 C2 ?: none
W2>1 W3>1 E2>3 C3 C2 ?: none
R2>1 W3>1 W4>1 E3>4 E2>3 C4 C3 C2 ?: none";

// `X2`: what the commit of 2 dooms, the pivots that are active.
const DOOMS: &str = "\
W2>1 W3>1 E2>3 E3>2 X2: 2 3 2
W2>1 W3>1 W4>1 E2>3 E3>4 X4: 2 3 4
W2>1 W3>1 W4>1 E3>4 X4: none
W2>1 W3>1 W4>1 E2>3 E2>4 E3>2 E3>4 X4: 3 2 4
W2>1 W3>1 W4>1 W5>1 E2>4 E3>4 E4>5 E5>4 X5: 2 4 5
W2>1 W3>1 W4>1 W5>1 E2>3 E2>4 E3>5 E4>5 X5: 2 3 5, 2 4 5
W2>1 W3>1 W4>1 W5>1 E2>3 E3>5 E4>3 E4>5 E5>4 X5: 2 3 5, 5 4 5
W2>1 W3>1 W4>1 E2>3 E3>4 C2 X4: none
R2>1 W3>1 W4>1 E2>3 E3>4 X4: none";

// `F2`: the first commit to which 2 has a conflict, which is the least.
const FIRST_OUTS: &str = "\
W2>1 W3>1 E2>3 C3 F2: 2
W2>1 W3>1 W4>1 E2>3 E2>4 C4 C3 F2: 2
W2>1 W3>1 W4>1 E2>4 C3 C4 F2: 3
W2>1 W3>1 E2>3 F2: none
R2>1 W3>1 C3 M2>2 E2>3 F2: none
R2>1 W3>1 C3 E2>3 F2: 2
W2>1 F3: none";

#[test]
fn steps_have_their_answers(rt: HostRuntime) -> Result<(), Refusal> {
    for cases in [COMMITS, DOOMS, FIRST_OUTS] {
        for case in cases.lines() {
            let is_right = is_so(rt.alloc(), case, false)? && is_so(rt.alloc(), case, true)?;
            check(&rt, is_right, case);
        }
    }
    Ok(())
}

// `K2`: whether the commit of 2 is kept where all that no answer rests on is forgotten.
const FORGOTTEN: &str = "\
W2>1 C2 K2: no
W2>1 W3>1 C2 K2: yes
W2>1 W3>1 C2 C3 K3: no
W2>1 W3>1 E2>3 C3 W4>2 C2 K3: yes
W2>1 W3>1 C3 W4>2 C2 K3: no
R2>1 C2 K2: no";

#[test]
fn what_no_answer_rests_on_is_forgotten(rt: HostRuntime) -> Result<(), Refusal> {
    for case in FORGOTTEN.lines() {
        check(&rt, is_so(rt.alloc(), case, true)?, case);
    }
    Ok(())
}

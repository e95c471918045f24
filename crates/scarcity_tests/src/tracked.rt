//! What is told of transactions that may be part of a dangerous structure.

use crate::driver::{Call, assert_takes};
use crate::fixture::not_asked;
use conflict::conflicts::Conflicts;
use scarce::Scarce;
use std::alloc::Allocator;
use std::fmt;
use std::fmt::{Debug, Formatter, Write};
use value::refusal::{Cause, Mode, Refusal, TxnNo};

// A tracker, which shows of each transaction its conflict out, the structure that its commit would make, and those by
// which that would doom others.
#[derive(Drop)]
struct Tracking<A: Allocator>(Conflicts<A>);

// Writes the structures by which the commit of a transaction dooms others. More than 63 are never asked for.
fn show_dooms<A: Allocator, W: Write>(
    conflicts: &Conflicts<A>,
    txn: TxnNo,
    f: &mut Formatter<W>,
) -> fmt::Result {
    if conflicts.rivals(txn) > 63 {
        return f.write_str("too many");
    }
    let dooms = conflicts.dooms(txn);
    let causes = dooms.causes();
    write!(f, "{causes:?} ")
}

impl<A: Allocator> Debug for Tracking<A> {
    fn fmt<W: Write>(&self, f: &mut Formatter<W>) -> fmt::Result {
        for number in 1..9 {
            if self.0.last_commit() < 9 {
                let out = self.0.first_out(TxnNo(number));
                let cause = self.0.check(TxnNo(number));
                write!(f, "{out:?} {cause:?} ")?;
            }
            show_dooms(&self.0, TxnNo(number), f)?;
        }
        write!(f, "{} begun", self.0.last_begun())
    }
}

// A transaction begins that writes.
fn begin<A: Allocator + Copy>(
    alloc: A,
    conflicts: &mut Conflicts<A>,
    number: u64,
) -> Result<(), Refusal> {
    if conflicts.last_begun() >= number {
        return Err(not_asked());
    }
    conflicts.begin(alloc, TxnNo(number), Mode::ReadWrite, 0)
}

// Of each pair the first has read what the second wrote.
fn relate<A: Allocator + Copy>(
    alloc: A,
    conflicts: &mut Conflicts<A>,
    pairs: [(u64, u64); 2],
) -> Result<(), Refusal> {
    let [first, second] = pairs;
    let first = (TxnNo(first.0), TxnNo(first.1));
    let second = (TxnNo(second.0), TxnNo(second.1));
    if conflicts.have_committed(first.0, first.1) || conflicts.have_committed(second.0, second.1) {
        return Err(not_asked());
    }
    conflicts.edges(alloc, &[first, second])
}

// What is told of transactions 1 to 4: of one that begins after them, or of what they have read.
#[derive(Drop)]
struct Telling<A> {
    alloc: A,
    begins: bool,
}

impl<A: Allocator + Copy> Call for Telling<A> {
    type Lent = Tracking<A>;

    type Answer = ();

    // 1 has read what 2 wrote, and 2 what 3 wrote.
    fn lend(&self) -> Result<Tracking<A>, Refusal> {
        let mut conflicts = Conflicts::new(self.alloc, 0, 0);
        for number in 1..5 {
            begin(self.alloc, &mut conflicts, number)?;
        }
        relate(self.alloc, &mut conflicts, [(1, 2), (2, 3)])?;
        Ok(Tracking(conflicts))
    }

    // With the pairs each transaction has read what the next one wrote, and 4 what 1 wrote.
    fn call(&self, lent: &mut Tracking<A>) -> Result<(), Refusal> {
        if self.begins {
            begin(self.alloc, &mut lent.0, 5)
        } else {
            relate(self.alloc, &mut lent.0, [(3, 4), (4, 1)])
        }
    }
}

#[test]
fn conflicts_told(rt: HostRuntime) -> Result<(), Refusal> {
    let memory = Scarce::new(rt.alloc());
    let alloc = &memory;
    for (begins, least) in [(true, 1), (false, 2)] {
        assert_takes(&rt, &memory, &Telling { alloc, begins }, least)?;
    }
    Ok(())
}

// Whether the commit of a transaction dooms another by this structure alone, or none where there is none.
fn dooms_by<A: Allocator>(
    conflicts: &Conflicts<A>,
    committer: u64,
    structure: Option<(u64, u64, u64)>,
) -> bool {
    if conflicts.rivals(TxnNo(committer)) > 63 {
        return false;
    }
    let dooms = conflicts.dooms(TxnNo(committer));
    match (dooms.causes(), structure) {
        ([], None) => true,
        ([cause], Some((a, b, c))) => {
            *cause
                == Cause {
                    a: TxnNo(a),
                    b: TxnNo(b),
                    c: TxnNo(c),
                }
        }
        _ => false,
    }
}

// The middle of a structure has read what the committer wrote, and goes. The first one has read what the middle wrote.
#[test]
fn structures_of_what_is_told(rt: HostRuntime) -> Result<(), Refusal> {
    let telling = Telling {
        alloc: rt.alloc(),
        begins: false,
    };
    let mut lent = telling.lend()?;
    for (committer, structure) in [(1, None), (2, None), (3, Some((1, 2, 3))), (4, None)] {
        assert!(rt; dooms_by(&lent.0, committer, structure), "{committer}");
    }
    telling.call(&mut lent)?;
    for (committer, structure) in [
        (1, (3, 4, 1)),
        (2, (4, 1, 2)),
        (3, (1, 2, 3)),
        (4, (2, 3, 4)),
    ] {
        assert!(rt;
            dooms_by(&lent.0, committer, Some(structure)),
            "then {committer}"
        );
    }
    Ok(())
}

//! The replies to the actions of a session.

ghost use Rattle.std.specs.Prelude.{◌≡◌, IfOk, IfErr};
ghost use Rattle.value.specs.Refusals.{out_of_memory};

use crate::values::Values;
use std::alloc::{Allocator, Global};
use std::marker::Model;
use value::refusal::Refusal;

/// The rows of a SELECT, in the order of their keys.
#[derive_where(Debug)]
pub struct RowList<A: Allocator = Global> {
    rows: Vec<Values<A>, A>,
}

impl<A: Allocator> Drop for RowList<A> {
    fn drop(self) {
        let RowList { rows: _ } = self;
    }
}

impl<A: Allocator> Model for RowList<A> {
    ghost use Rattle.std.specs.Prelude.{List};
    ghost use Rattle.value.specs.declared.value.Value.{Value as Datum};

    ghost Value = { List (List (Datum A)) };

    ghost view = { λ l. l.rows.items };
}

impl<A: Allocator> RowList<A> {
    /// These rows.
    pub fn of(rows: Vec<Values<A>, A>) -> RowList<A>
        ensures { result ≡ rows.items }
    {
        RowList { rows }
    }

    /// The rows.
    pub fn as_slice(&self) -> &[Values<A>]
        ensures { result.now ≡ self.now }
    {
        self.rows.as_slice()
    }

    /// Equal rows.
    pub fn copy(&self, alloc: A) -> Result<RowList<A>, Refusal>
    where
        A: Copy,
        ensures ok { IfOk result (λ l. l ≡ self.now) }
        ensures err { IfErr result (λ e. e ≡ out_of_memory) }
    {
        let mut rows = Vec::with_capacity(alloc, self.rows.len())?;
        for row in &self.rows {
            rows.push(row.copy(alloc)?)?;
        }
        Ok(RowList { rows })
    }
}

/// The answer to an action of a session.
#[derive_where(Debug)]
pub enum Reply<A: Allocator = Global> {
    Begun,
    Committed,
    RolledBack,
    Pruned,
    Imported,
    /// One row.
    Inserted,
    /// How many rows satisfied the conditions.
    Updated(u64),
    /// How many rows satisfied the conditions.
    Deleted(u64),
    Rows(RowList<A>),
    /// The number of the safe snapshot.
    Safe(u64),
    /// Whether the snapshot is safe isn't known yet.
    Wait,
    /// The identifier of the snapshot.
    Exported(u64),
    Refused(Refusal),
}

impl<A: Allocator> Drop for Reply<A> {
    fn drop(self) {
        match self {
            Reply::Begun
            | Reply::Committed
            | Reply::RolledBack
            | Reply::Pruned
            | Reply::Imported
            | Reply::Inserted
            | Reply::Updated(_)
            | Reply::Deleted(_)
            | Reply::Rows(_)
            | Reply::Safe(_)
            | Reply::Wait
            | Reply::Exported(_)
            | Reply::Refused(_) => {}
        }
    }
}

impl<A: Allocator> Reply<A> {
    /// An equal reply.
    pub fn copy(&self, alloc: A) -> Result<Reply<A>, Refusal>
    where
        A: Copy,
        ensures ok { IfOk result (λ r. r ≡ self.now) }
        ensures err { IfErr result (λ e. e ≡ out_of_memory) }
    {
        Ok(match self {
            Reply::Begun => Reply::Begun,
            Reply::Committed => Reply::Committed,
            Reply::RolledBack => Reply::RolledBack,
            Reply::Pruned => Reply::Pruned,
            Reply::Imported => Reply::Imported,
            Reply::Inserted => Reply::Inserted,
            Reply::Updated(rows) => Reply::Updated(*rows),
            Reply::Deleted(rows) => Reply::Deleted(*rows),
            Reply::Rows(rows) => Reply::Rows(rows.copy(alloc)?),
            Reply::Safe(snapshot) => Reply::Safe(*snapshot),
            Reply::Wait => Reply::Wait,
            Reply::Exported(identifier) => Reply::Exported(*identifier),
            Reply::Refused(refusal) => Reply::Refused(*refusal),
        })
    }
}

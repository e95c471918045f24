//! Identifiers of snapshots.

ghost use Rattle.std.specs.Prelude.{◌≡◌, ◌+◌, ◌^◌, ◌<◌, ◌∷◌, [], ◌++◌, length, true, IfOk, IfErr, OnErr, OnOk};
ghost use Rattle.value.specs.Refusals.{out_of_memory};
ghost use Rattle.schema.specs.Definition.{Catalog};
ghost use Rattle.schema.specs.declared.tables.Tables.{Tables};
ghost use Rattle.history.specs.Transactions.{is_open};
ghost use Rattle.history.specs.Answer.{export_reply};
ghost use Rattle.transactions.specs.Answers.{both};
ghost use Rattle.transactions.specs.Courses.{on_course};
ghost use Rattle.transactions.specs.Ledger.{after_owned, turned_at, txn_at, world_on};
ghost use Rattle.transactions.specs.Versions.{HasSameCommits};

use crate::answers::answered::Answered;
use crate::answers::course::Course;
use crate::exports::snapshots::ExportedSnapshot;
use crate::kept::stretch::leave_without;
use crate::transaction::Transaction;
use crate::world::{World, turn};
use history::event::Action;
use statement::reply::Reply;
use std::alloc::Allocator;
use value::refusal::{Code, Refusal};

// A transaction's snapshot under an identifier.
fn exported<A: Allocator>(transaction: &Transaction<A>, id: u64) -> ExportedSnapshot
    ensures { result ≡ record {
      id = id;
      exporter = transaction.now.number;
      snapshot = transaction.now.snapshot;
      taken = transaction.now.taken;
      known = transaction.now.known;
    } }
{
    ExportedSnapshot {
        id,
        exporter: transaction.number,
        snapshot: transaction.snapshot,
        taken: transaction.taken,
        known: transaction.known,
    }
}

impl<A: Allocator> World<A> {
    // An event that takes the transaction at a place to a course, and adds an identifier.
    fn turn_exporter(
        &mut self,
        at: usize,
        course: Course,
        exported: ExportedSnapshot,
    ) -> Result<(), Refusal>
        requires within { at < length self.old.txns }
        requires room { self.old.place + 1 < 2 ^ 64 }
        ensures ok { OnOk result (self.new ≡ record self.old {
          txns = turned_at at (on_course course) self.old.txns;
          exports = self.old.exports ++
              exported ∷ [];
          place = self.old.place + 1;
        }) }
        ensures err { OnErr result (self.new ≡ self.old) }
        ensures memory { IfErr result (λ e. e ≡ out_of_memory) }
    {
        self.exports.push(exported)?;
        leave_without(&mut self.past, at);
        turn(&mut self.transactions, at, course);
        self.place += 1;
        Ok(())
    }

    // The number of the next identifier.
    fn next_identifier(&self) -> u64
        requires { self.now.place + 1 < 2 ^ 64 }
        ensures { result ≡ self.now.base.identifiers + length self.now.exports + 1 }
    {
        self.base.identifiers + self.exports.len() as u64 + 1
    }

    /// EXPORT of the open transaction at a place.
    pub(crate) fn export(&mut self, at: usize) -> Result<Answered<A>, Refusal>
        requires within { at < length self.old.txns }
        requires room { self.old.place + 1 < 2 ^ 64 }
        requires open { is_open (txn_at self.old.txns at).standing ≡ true }
        ensures reply { IfOk result (λ r. (c : Catalog) (X : Tables A) → r ≡
            both (export_reply (world_on c X self.old) (txn_at self.old.txns at))) }
        ensures world { IfOk result (λ r. (c : Catalog) (X : Tables A) → self.new ≡
            after_owned (world_on c X self.old) Action.Export r.reply (txn_at self.old.txns at)) }
        ensures log { OnOk result (HasSameCommits self.old self.new) }
        ensures err { OnErr result (self.new ≡ self.old) }
        ensures memory { IfErr result (λ e. e ≡ out_of_memory) }
    {
        let transaction = &self.transactions[at];
        if transaction.must_wait() {
            let course = transaction.course();
            self.turn(at, course);
            let refusal = Refusal::of_code(Code::ObjectNotInPrerequisiteState);
            return Ok(Answered {
                reply: Reply::Refused(refusal),
                recorded: Reply::Refused(refusal),
            });
        }
        let id = self.next_identifier();
        let exported = exported(transaction, id);
        let course = transaction.asks();
        self.turn_exporter(at, course, exported)?;
        Ok(Answered {
            reply: Reply::Exported(id),
            recorded: Reply::Exported(id),
        })
    }
}

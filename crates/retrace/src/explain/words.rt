//! Remarks on a refusal.

ghost use Rattle.std.specs.Prelude.{◌≡◌, ◌++◌, ◌∷◌, [], map, IfOk, IfErr, OnOk};
ghost use Rattle.value.specs.Refusals.{out_of_memory};
ghost use Rattle.retrace.specs.Explained as told;
ghost use Rattle.retrace.specs.Why as why;

use crate::explain::account::Account;
use crate::explain::danger::{Danger, danger_of, numbered};
use crate::explain::remark::{append_number, append_word};
use crate::explain::rival::{rival, taken};
use crate::run::Run;
use crate::witness::edge::Edge;
use crate::witness::meeting::read_by;
use crate::witness::trace::{Moment, Trace};
use history::session_id::SessionId;
use schema::changes::Change;
use std::alloc::Allocator;
use value::refusal::{Cause, Refusal, TxnNo};

/// Which of a conflict's transactions are introduced, with their session and the line of their BEGIN.
#[derive(Clone, Copy)]
struct Introduced {
    reader: bool,
    writer: bool,
}

// Appends a transaction, a word and another transaction.
fn append_before<A: Allocator>(
    first: TxnNo,
    word: &str,
    second: TxnNo,
    text: &mut Vec<u8, A>,
) -> Result<(), Refusal>
    ensures done { OnOk result (text.new.items ≡ text.old.items ++ told.before_told first.0 word.now second.0) }
    ensures memory { IfErr result (λ e. e ≡ out_of_memory) }
{
    append_number(first.0, text)?;
    append_word(word, text)?;
    append_number(second.0, text)
}

// Appends in which order the transactions of a structure would have to come, where its first isn't its last.
fn append_chain<A: Allocator>(cause: Cause, text: &mut Vec<u8, A>) -> Result<(), Refusal>
    ensures done { OnOk result (text.new.items ≡ text.old.items ++ told.chain_told cause) }
    ensures memory { IfErr result (λ e. e ≡ out_of_memory) }
{
    append_word("so ", text)?;
    append_before(cause.a, " comes before ", cause.b, text)?;
    append_word(" and ", text)?;
    append_before(cause.b, " before ", cause.c, text)?;
    append_word(", but ", text)
}

// Appends a transaction's snapshot.
fn append_snapshot<A: Allocator>(number: TxnNo, text: &mut Vec<u8, A>) -> Result<(), Refusal>
    ensures done { OnOk result (text.new.items ≡ text.old.items ++ told.snapshot_told number.0) }
    ensures memory { IfErr result (λ e. e ≡ out_of_memory) }
{
    append_number(number.0, text)?;
    append_word("'s snapshot.", text)
}

// Appends that a structure's last transaction had committed before its first took its snapshot.
fn append_seen<A: Allocator>(cause: Cause, text: &mut Vec<u8, A>) -> Result<(), Refusal>
    ensures done { OnOk result (text.new.items ≡ text.old.items ++ told.seen_told cause) }
    ensures memory { IfErr result (λ e. e ≡ out_of_memory) }
{
    append_word(" had committed before ", text)?;
    append_snapshot(cause.a, text)
}

impl<'h, A: Allocator> Account<'h, A> {
    // Appends the line of an event.
    fn append_line(&self, place: u64, text: &mut Vec<u8, A>) -> Result<(), Refusal>
        ensures done { OnOk result (text.new.items ≡ text.old.items ++ told.line_told self.now place) }
        ensures memory { IfErr result (λ e. e ≡ out_of_memory) }
    {
        append_word("line ", text)?;
        append_number(self.line(place), text)
    }

    // Appends the line of an event, in brackets.
    fn append_at(&self, moment: Moment, text: &mut Vec<u8, A>) -> Result<(), Refusal>
        ensures done { OnOk result (text.new.items ≡ text.old.items ++ told.at_told self.now moment) }
        ensures memory { IfErr result (λ e. e ≡ out_of_memory) }
    {
        append_word(" (", text)?;
        self.append_line(moment.place, text)?;
        append_word(")", text)
    }

    // Appends a transaction.
    fn append_number(&self, run: &Run<A>, text: &mut Vec<u8, A>) -> Result<(), Refusal>
        ensures done { OnOk result (text.new.items ≡ text.old.items ++ told.transaction_told self.now run.now) }
        ensures memory { IfErr result (λ e. e ≡ out_of_memory) }
    {
        append_word("transaction ", text)?;
        append_number(self.number(run), text)
    }

    // Appends the line of a transaction's BEGIN.
    fn append_begin(&self, run: &Run<A>, text: &mut Vec<u8, A>) -> Result<(), Refusal>
        ensures done { OnOk result (text.new.items ≡ text.old.items ++ told.begin_told self.now run.now) }
        ensures memory { IfErr result (λ e. e ≡ out_of_memory) }
    {
        append_word(", ", text)?;
        self.append_line(run.trace.begin, text)?;
        append_word(")", text)
    }

    // Appends a transaction's session, and the line of its BEGIN.
    fn append_session(&self, run: &Run<A>, text: &mut Vec<u8, A>) -> Result<(), Refusal>
        ensures done { OnOk result (text.new.items ≡ text.old.items ++ told.session_told self.now run.now) }
        ensures memory { IfErr result (λ e. e ≡ out_of_memory) }
    {
        append_word(" (session ", text)?;
        append_number(u64::from(run.trace.session.number()), text)?;
        self.append_begin(run, text)
    }

    // Appends a transaction, its session, and the line of its BEGIN.
    fn append_introduced(&self, run: &Run<A>, text: &mut Vec<u8, A>) -> Result<(), Refusal>
        ensures done { OnOk result (text.new.items ≡ text.old.items ++ told.introduced_told self.now run.now) }
        ensures memory { IfErr result (λ e. e ≡ out_of_memory) }
    {
        self.append_number(run, text)?;
        self.append_session(run, text)
    }

    // Appends a transaction, introduced or not.
    fn append_party(
        &self,
        run: &Run<A>,
        is_introduced: bool,
        text: &mut Vec<u8, A>,
    ) -> Result<(), Refusal>
        ensures done { OnOk result (text.new.items ≡ text.old.items ++ told.party_told self.now is_introduced run.now) }
        ensures memory { IfErr result (λ e. e ≡ out_of_memory) }
    {
        if is_introduced {
            self.append_introduced(run, text)
        } else {
            self.append_number(run, text)
        }
    }

    // Appends what a transaction read.
    fn append_read(
        &self,
        trace: &Trace<A>,
        edge: &Edge<A>,
        text: &mut Vec<u8, A>,
    ) -> Result<(), Refusal>
        ensures done { OnOk result (text.new.items ≡ text.old.items ++ told.read_told self.now trace.now edge.now) }
        ensures memory { IfErr result (λ e. e ≡ out_of_memory) }
    {
        append_word(" read ", text)?;
        self.append_hold(edge, read_by(trace, edge.read), text)?;
        self.append_at(edge.read, text)
    }

    // Appends which transaction read what.
    fn append_reader(
        &self,
        reader: &Run<A>,
        edge: &Edge<A>,
        is_introduced: bool,
        text: &mut Vec<u8, A>,
    ) -> Result<(), Refusal>
        ensures done { OnOk result (text.new.items ≡ text.old.items ++ told.reader_told self.now is_introduced reader.now edge.now) }
        ensures memory { IfErr result (λ e. e ≡ out_of_memory) }
    {
        self.append_party(reader, is_introduced, text)?;
        self.append_read(&reader.trace, edge, text)
    }

    // Appends what a transaction wrote.
    fn append_written(&self, edge: &Edge<A>, text: &mut Vec<u8, A>) -> Result<(), Refusal>
        ensures done { OnOk result (text.new.items ≡ text.old.items ++ told.written_told self.now edge.now) }
        ensures memory { IfErr result (λ e. e ≡ out_of_memory) }
    {
        append_word(" wrote ", text)?;
        self.append_item(&edge.item, text)?;
        self.append_at(edge.written, text)
    }

    // Appends which transaction wrote what.
    fn append_writer(
        &self,
        writer: &Run<A>,
        edge: &Edge<A>,
        is_introduced: bool,
        text: &mut Vec<u8, A>,
    ) -> Result<(), Refusal>
        ensures done { OnOk result (text.new.items ≡ text.old.items ++ told.writer_told self.now is_introduced writer.now edge.now) }
        ensures memory { IfErr result (λ e. e ≡ out_of_memory) }
    {
        self.append_party(writer, is_introduced, text)?;
        self.append_written(edge, text)
    }

    // Which transaction read what, and which wrote it.
    fn conflict(
        &self,
        alloc: A,
        reader: &Run<A>,
        writer: &Run<A>,
        edge: &Edge<A>,
        introduced: Introduced,
    ) -> Result<Vec<u8, A>, Refusal>
        ensures done { IfOk result (λ text. text.items ≡ told.conflict_told self.now introduced.reader introduced.writer reader.now writer.now edge.now) }
        ensures memory { IfErr result (λ e. e ≡ out_of_memory) }
    {
        let mut text = Vec::new(alloc);
        self.append_reader(reader, edge, introduced.reader, &mut text)?;
        append_word("; ", &mut text)?;
        self.append_writer(writer, edge, introduced.writer, &mut text)?;
        Ok(text)
    }

    // Adds the remark on a conflict, where it is one.
    fn push_conflict(
        &self,
        alloc: A,
        parties: (TxnNo, TxnNo),
        edge: &Option<Edge<A>>,
        introduced: Introduced,
        remarks: &mut Vec<Vec<u8, A>, A>,
    ) -> Result<(), Refusal>
        ensures done { OnOk result (map (λ r. r.items) remarks.new.items ≡ map (λ r. r.items) remarks.old.items ++ told.conflict_remarks self.now introduced.reader introduced.writer parties.0.0 parties.1.0 edge.now) }
        ensures memory { IfErr result (λ e. e ≡ out_of_memory) }
    {
        let (from, to) = parties;
        let base = self.history.base().transactions;
        let Some(reader) = numbered(self.runs, base, from) else {
            return Ok(());
        };
        let Some(writer) = numbered(self.runs, base, to) else {
            return Ok(());
        };
        if let Some(edge) = edge {
            remarks.push(self.conflict(alloc, reader, writer, edge, introduced)?)?;
        }
        Ok(())
    }

    // Whether a structure's last transaction had committed when its first took its snapshot.
    fn is_seen(&self, cause: Cause) -> bool
        ensures { result ≡ told.is_seen self.now cause }
    {
        let base = self.history.base().transactions;
        let Some(first) = numbered(self.runs, base, cause.a) else {
            return false;
        };
        let Some(last) = numbered(self.runs, base, cause.c) else {
            return false;
        };
        last.trace.commit != 0 && last.trace.commit <= first.trace.snapshot
    }

    // Appends which transaction is to be run again.
    fn append_again(&self, session: SessionId, text: &mut Vec<u8, A>) -> Result<(), Refusal>
        ensures done { OnOk result (text.new.items ≡ text.old.items ++ told.again_told self.now session) }
        ensures memory { IfErr result (λ e. e ≡ out_of_memory) }
    {
        if let Some(run) = self.last_of(session) {
            append_word(" Run ", text)?;
            self.append_number(run, text)?;
            append_word(" again.", text)?;
        }
        Ok(())
    }

    // Appends in which order the transactions of a structure would have to come.
    fn append_order(&self, cause: Cause, text: &mut Vec<u8, A>) -> Result<(), Refusal>
        ensures done { OnOk result (text.new.items ≡ text.old.items ++ told.order_told cause) }
        ensures memory { IfErr result (λ e. e ≡ out_of_memory) }
    {
        if cause.a == cause.c {
            append_word("so each would have to come before the other; ", text)
        } else {
            append_chain(cause, text)
        }
    }

    // Appends when a structure's last transaction committed.
    fn append_committed(&self, cause: Cause, text: &mut Vec<u8, A>) -> Result<(), Refusal>
        ensures done { OnOk result (text.new.items ≡ text.old.items ++ told.committed_told self.now cause) }
        ensures memory { IfErr result (λ e. e ≡ out_of_memory) }
    {
        if cause.a == cause.c || !self.is_seen(cause) {
            append_word(" committed first.", text)
        } else {
            append_seen(cause, text)
        }
    }

    // Appends which transaction committed first.
    fn append_first(&self, cause: Cause, text: &mut Vec<u8, A>) -> Result<(), Refusal>
        ensures done { OnOk result (text.new.items ≡ text.old.items ++ told.first_told self.now cause) }
        ensures memory { IfErr result (λ e. e ≡ out_of_memory) }
    {
        append_number(cause.c.0, text)?;
        self.append_committed(cause, text)
    }

    // What follows from a structure.
    fn consequence(&self, alloc: A, session: SessionId, cause: Cause) -> Result<Vec<u8, A>, Refusal>
        ensures done { IfOk result (λ text. text.items ≡ told.consequence_told self.now session cause) }
        ensures memory { IfErr result (λ e. e ≡ out_of_memory) }
    {
        let mut text = Vec::new(alloc);
        self.append_order(cause, &mut text)?;
        self.append_first(cause, &mut text)?;
        self.append_again(session, &mut text)?;
        Ok(text)
    }

    // Adds the remarks on a structure's conflicts.
    fn push_danger(
        &self,
        alloc: A,
        danger: &Danger<A>,
        remarks: &mut Vec<Vec<u8, A>, A>,
    ) -> Result<(), Refusal>
    where
        A: Copy,
        ensures done { OnOk result (map (λ r. r.items) remarks.new.items ≡ map (λ r. r.items) remarks.old.items ++ told.danger_remarks self.now danger.now) }
        ensures memory { IfErr result (λ e. e ≡ out_of_memory) }
    {
        let cause = danger.cause;
        let (first, second) = ((cause.a, cause.b), (cause.b, cause.c));
        let both = Introduced {
            reader: true,
            writer: true,
        };
        self.push_conflict(alloc, first, &danger.first, both, remarks)?;
        // The first conflict has introduced both others where `a` is `c`.
        let last = Introduced {
            reader: false,
            writer: cause.a != cause.c,
        };
        self.push_conflict(alloc, second, &danger.second, last, remarks)
    }

    // Adds the remarks on a dangerous structure.
    fn push_structure(
        &self,
        alloc: A,
        cause: Cause,
        remarks: &mut Vec<Vec<u8, A>, A>,
    ) -> Result<(), Refusal>
    where
        A: Copy,
        ensures done { OnOk result (map (λ r. r.items) remarks.new.items ≡ map (λ r. r.items) remarks.old.items ++ told.danger_remarks self.now (why.danger_of self.now.base self.now.runs cause)) }
        ensures memory { IfErr result (λ e. e ≡ out_of_memory) }
    {
        let base = self.history.base().transactions;
        let danger = danger_of(alloc, self.runs, base, cause)?;
        self.push_danger(alloc, &danger, remarks)
    }

    // Adds the remark on what follows from a structure.
    fn push_consequence(
        &self,
        alloc: A,
        session: SessionId,
        cause: Cause,
        remarks: &mut Vec<Vec<u8, A>, A>,
    ) -> Result<(), Refusal>
        ensures done { OnOk result (map (λ r. r.items) remarks.new.items ≡ map (λ r. r.items) remarks.old.items ++ (told.consequence_told self.now session cause ∷ [])) }
        ensures memory { IfErr result (λ e. e ≡ out_of_memory) }
    {
        let consequence = self.consequence(alloc, session, cause)?;
        remarks.push(consequence)?;
        Ok(())
    }

    /// Remarks on a refusal because of a dangerous structure.
    pub(crate) fn on_cause(
        &self,
        alloc: A,
        session: SessionId,
        cause: Cause,
    ) -> Result<Vec<Vec<u8, A>, A>, Refusal>
    where
        A: Copy,
        ensures done { IfOk result (λ rs. map (λ r. r.items) rs.items ≡ told.cause_remarks self.now session cause) }
        ensures memory { IfErr result (λ e. e ≡ out_of_memory) }
    {
        let mut remarks = Vec::new(alloc);
        self.push_structure(alloc, cause, &mut remarks)?;
        self.push_consequence(alloc, session, cause, &mut remarks)?;
        Ok(remarks)
    }

    // Appends whose snapshot doesn't show a commit.
    fn append_since(&self, run: &Run<A>, text: &mut Vec<u8, A>) -> Result<(), Refusal>
        ensures done { OnOk result (text.new.items ≡ text.old.items ++ told.since_told self.now run.now) }
        ensures memory { IfErr result (λ e. e ≡ out_of_memory) }
    {
        append_word(" and has committed since the snapshot of ", text)?;
        self.append_introduced(run, text)
    }

    // Appends whether the transaction that has a row has ended.
    fn append_state(
        &self,
        run: &Run<A>,
        rival: &Run<A>,
        text: &mut Vec<u8, A>,
    ) -> Result<(), Refusal>
        ensures done { OnOk result (text.new.items ≡ text.old.items ++ told.state_told self.now run.now rival.now) }
        ensures memory { IfErr result (λ e. e ≡ out_of_memory) }
    {
        if rival.trace.commit == 0 {
            append_word(" and hasn't ended", text)
        } else {
            self.append_since(run, text)
        }
    }

    // Which transaction has a row.
    fn holder(
        &self,
        alloc: A,
        run: &Run<A>,
        rival: &Run<A>,
        change: &Change<A>,
    ) -> Result<Vec<u8, A>, Refusal>
        ensures done { IfOk result (λ text. text.items ≡ told.holder_told self.now run.now rival.now change.now) }
        ensures memory { IfErr result (λ e. e ≡ out_of_memory) }
    {
        let mut text = Vec::new(alloc);
        self.append_introduced(rival, &mut text)?;
        append_word(" has written ", &mut text)?;
        self.append_row(change.table(), change.key(), &mut text)?;
        self.append_state(run, rival, &mut text)?;
        Ok(text)
    }

    // What follows where another transaction has the row.
    fn first_updater(&self, alloc: A, session: SessionId) -> Result<Vec<u8, A>, Refusal>
        ensures done { IfOk result (λ text. text.items ≡ told.first_updater_told self.now session) }
        ensures memory { IfErr result (λ e. e ≡ out_of_memory) }
    {
        let mut text = Vec::new(alloc);
        append_word("so the first to write the row goes on.", &mut text)?;
        self.append_again(session, &mut text)?;
        Ok(text)
    }

    // Adds the remark on which transaction has the row that another would have written.
    fn push_holder(
        &self,
        alloc: A,
        run: &Run<A>,
        remarks: &mut Vec<Vec<u8, A>, A>,
    ) -> Result<(), Refusal>
        ensures done { OnOk result (map (λ r. r.items) remarks.new.items ≡ map (λ r. r.items) remarks.old.items ++ told.change_remarks self.now run.now (why.taken self.now.runs run.now)) }
        ensures memory { IfErr result (λ e. e ≡ out_of_memory) }
    {
        let Some(change) = taken(self.runs, run) else {
            return Ok(());
        };
        if let Some(rival) = rival(self.runs, &run.trace, change) {
            remarks.push(self.holder(alloc, run, rival, change)?)?;
        }
        Ok(())
    }

    /// Remarks on a refusal because of a row.
    pub(crate) fn on_row(&self, alloc: A, session: SessionId) -> Result<Vec<Vec<u8, A>, A>, Refusal>
    where
        A: Copy,
        ensures done { IfOk result (λ rs. map (λ r. r.items) rs.items ≡ told.row_remarks self.now session) }
        ensures memory { IfErr result (λ e. e ≡ out_of_memory) }
    {
        let mut remarks = Vec::new(alloc);
        if let Some(run) = self.last_of(session) {
            self.push_holder(alloc, run, &mut remarks)?;
        }
        remarks.push(self.first_updater(alloc, session)?)?;
        Ok(remarks)
    }
}

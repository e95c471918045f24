//! The courses of transactions, as the records tell them.

ghost use Rattle.std.specs.Prelude.{◌≡◌, ℕ, ◌+◌, ◌<◌, ◌^◌, [], length, find, slice_get, slice_set, take, Some, true, None, IfOk, IfErr, IfSome, IfNone, OnOk};
ghost use Rattle.std.specs.List.{list_any};
ghost use Rattle.std.specs.Ordering.{nat_cmp};
ghost use Rattle.std.specs.BTreeMap.{get};
ghost use Rattle.value.specs.Refusals.{out_of_memory};
ghost use Rattle.history.specs.Answer.{is_refused};
ghost use Rattle.audit.specs.Course.{Track, AreLatest, begins, course_begun, courses_after, gone_on, is_its, with_record};

use history::event::{Action, Record};
use history::session_id::SessionId;
use statement::reply::Reply;
use statement::statement::Statement;
use std::alloc::Allocator;
use std::collections::BTreeMap;
use std::marker::Model;
use value::refusal::Refusal;

/// A statement that was answered without a refusal, and its answer.
#[derive(Drop)]
pub struct Answered<A: Allocator> {
    pub statement: Statement<A>,
    pub reply: Reply<A>,
}

/// The course of a transaction. Numbers and places are counted from 1 above the base.
pub struct Course<A: Allocator> {
    pub session: SessionId,
    pub number: u64,
    /// The place of its BEGIN.
    pub begin: u64,
    /// The place of its commit; 0 where it has none.
    pub end: u64,
    /// Its session has still to end it.
    pub owed: bool,
    pub committed: bool,
    /// Its snapshot is another's.
    pub imported: bool,
    pub statements: Vec<Answered<A>, A>,
}

impl<A: Allocator> Drop for Course<A> {
    fn drop(self) {
        let Course {
            session: _,
            number: _,
            begin: _,
            end: _,
            owed: _,
            committed: _,
            imported: _,
            statements: _,
        } = self;
    }
}

impl<A: Allocator> Model for Course<A> {
    ghost use Rattle.std.specs.Prelude.{map};
    ghost use Rattle.audit.specs.Course.{Track};

    ghost Value = { Track A };

    ghost view = { λ c. record {
      session = c.session;
      number = c.number;
      begin = c.begin;
      end = c.end;
      owed = c.owed;
      committed = c.committed;
      imported = c.imported;
      statements = map (λ a. (a.statement, a.reply))
          c.statements.items;
    } };
}

// Whether a reply is a refusal.
fn is_refused<A: Allocator>(reply: &Reply<A>) -> bool
    ensures { result ≡ is_refused reply.now }
{
    matches!(reply, Reply::Refused(_))
}

impl<A: Allocator> Course<A> {
    // A session's course of a number that begins at a place.
    fn begun(alloc: A, session: SessionId, number: u64, place: u64) -> Course<A>
        ensures { result ≡ course_begun session number place }
    {
        Course {
            session,
            number,
            begin: place,
            end: 0,
            owed: true,
            committed: false,
            imported: false,
            statements: Vec::new(alloc),
        }
    }

    // Whether it is the session's, which has still to end it.
    fn is_its(&self, session: SessionId) -> bool
        ensures { result ≡ is_its session self.now }
    {
        self.session == session && self.owed
    }

    // Ends with the reply to a COMMIT at a place.
    fn commit(&mut self, place: u64, reply: &Reply<A>)
        ensures { self.new ≡ gone_on place Action.Commit reply.now self.old }
    {
        self.owed = false;
        if let Reply::Committed = reply {
            self.committed = true;
            self.end = place;
        }
    }

    // Takes in a statement and its reply, where that is no refusal.
    fn answer(
        &mut self,
        alloc: A,
        statement: &Statement<A>,
        reply: &Reply<A>,
    ) -> Result<(), Refusal>
    where
        A: Copy,
        ensures ok { OnOk result ((place : ℕ) → self.new ≡
            gone_on place (Action.Run statement.now) reply.now self.old) }
        ensures memory { IfErr result (λ e. e ≡ out_of_memory) }
    {
        if !is_refused(reply) {
            let statement = statement.copy(alloc)?;
            let reply = reply.copy(alloc)?;
            self.statements.push(Answered { statement, reply })?;
        }
        Ok(())
    }

    // Takes in the reply to an IMPORT.
    fn import(&mut self, reply: &Reply<A>)
        ensures { (place n : ℕ) → self.new ≡ gone_on place (Action.Import n) reply.now self.old }
    {
        if let Reply::Imported = reply {
            self.imported = true;
        }
    }

    // Goes on with an answered action at a place.
    fn go_on(&mut self, alloc: A, place: u64, entry: &Record<A>) -> Result<(), Refusal>
    where
        A: Copy,
        ensures ok { OnOk result (self.new ≡ gone_on place entry.now.action entry.now.reply self.old) }
        ensures memory { IfErr result (λ e. e ≡ out_of_memory) }
    {
        match &entry.action {
            Action::Run(statement) => self.answer(alloc, statement, &entry.reply)?,
            Action::Import(_) => self.import(&entry.reply),
            Action::Commit => self.commit(place, &entry.reply),
            Action::Rollback => self.owed = false,
            _ => {}
        }
        Ok(())
    }
}

// The place of the session's course, which it has still to end.
fn find_its<A: Allocator>(
    courses: &[Course<A>],
    latest: &BTreeMap<u32, usize, A>,
    session: SessionId,
) -> Option<usize>
    requires { AreLatest (get nat_cmp latest.now) courses.now }
    ensures first { IfSome result (λ i. find (is_its session) (take i courses.now) ≡ None) }
    ensures some { IfSome result (λ i. (x : Track A) → slice_get courses.now i ≡ Some x → is_its session x ≡ true) }
    ensures within { IfSome result (λ i. i < length courses.now) }
    ensures none { IfNone result (find (is_its session) courses.now ≡ None) }
{
    let place = *latest.get(&session.number())?;
    let course = courses.get(place)?;
    if course.is_its(session) {
        Some(place)
    } else {
        None
    }
}

// Goes on with the course at a place of the list.
fn go_on_at<A: Allocator + Copy>(
    alloc: A,
    courses: &mut Vec<Course<A>, A>,
    i: usize,
    place: u64,
    entry: &Record<A>,
) -> Result<(), Refusal>
    requires { i < length courses.old.items }
    ensures ok { OnOk result ((x : Track A) → slice_get courses.old.items i ≡ Some x → courses.new.items ≡
        slice_set courses.old.items i (gone_on place entry.now.action entry.now.reply x)) }
    ensures memory { IfErr result (λ e. e ≡ out_of_memory) }
{
    let course = &mut courses[i];
    course.go_on(alloc, place, entry)
}

// Adds the course of a session whose record begins a transaction, at a place.
fn begin<A: Allocator + Copy>(
    alloc: A,
    courses: &mut Vec<Course<A>, A>,
    latest: &mut BTreeMap<u32, usize, A>,
    place: u64,
    entry: &Record<A>,
) -> Result<(), Refusal>
    requires latest { AreLatest (get nat_cmp latest.old) courses.old.items }
    requires none { find (is_its entry.now.session) courses.old.items ≡ None }
    ensures ok { OnOk result (courses.new.items ≡ begins place entry.now.session entry.now.action courses.old.items) }
    ensures latest { OnOk result (AreLatest (get nat_cmp latest.new) courses.new.items) }
    ensures memory { IfErr result (λ e. e ≡ out_of_memory) }
{
    if let Action::Begin(_) = &entry.action {
        let count = courses.len();
        latest.insert(entry.session.number(), count)?;
        courses.push(Course::begun(alloc, entry.session, count as u64 + 1, place))?;
    }
    Ok(())
}

// Goes on with one more record, at a place.
fn follow<A: Allocator + Copy>(
    alloc: A,
    courses: &mut Vec<Course<A>, A>,
    latest: &mut BTreeMap<u32, usize, A>,
    place: u64,
    entry: &Record<A>,
) -> Result<(), Refusal>
    requires { AreLatest (get nat_cmp latest.old) courses.old.items }
    ensures ok { OnOk result (courses.new.items ≡ with_record place entry.now courses.old.items) }
    ensures latest { OnOk result (AreLatest (get nat_cmp latest.new) courses.new.items) }
    ensures memory { IfErr result (λ e. e ≡ out_of_memory) }
{
    match find_its(courses.as_slice(), latest, entry.session) {
        Some(i) => {
            go_on_at(alloc, courses, i, place, entry)?;
            Ok(())
        }
        None => {
            begin(alloc, courses, latest, place, entry)?;
            Ok(())
        }
    }
}

/// The courses of all transactions, as the records tell them.
pub fn courses<A: Allocator + Copy>(
    alloc: A,
    records: &[Record<A>],
) -> Result<Vec<Course<A>, A>, Refusal>
    ensures ok { IfOk result (λ cs. cs.items ≡ courses_after 0 records.now []) }
    ensures memory { IfErr result (λ e. e ≡ out_of_memory) }
{
    let mut courses = Vec::new(alloc);
    let mut latest = BTreeMap::new(alloc);
    let mut place = 0u64;
    for entry in records {
        place += 1;
        follow(alloc, &mut courses, &mut latest, place, entry)?;
    }
    Ok(courses)
}

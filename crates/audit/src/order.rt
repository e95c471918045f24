//! A serial order, checked.

ghost use Rattle.std.specs.Prelude.{◌≡◌, ◌↔◌, ◌-◌, ◌==◌, ◌&&◌, ℕ, Bool, true, List, map, max, nat_lt, not, IsTrue, IfOk, IfErr, OnOk};
ghost use Rattle.std.specs.List.{find, list_all, list_any};
ghost use Rattle.std.specs.Option.{is_some};
ghost use Rattle.value.specs.Refusals.{out_of_memory};
ghost use Rattle.schema.specs.Plain.{is_sound};
ghost use Rattle.statement.specs.Evaluation.{after, outcome};
ghost use Rattle.statement.specs.Fits.{fits};
ghost use Rattle.history.specs.Answer.{IsLegal};
ghost use Rattle.history.specs.Events.{world};
ghost use Rattle.history.specs.Serial.{IsSerialList};
ghost use Rattle.audit.specs.Course.{Track};
ghost use Rattle.audit.specs.Replay.{AreInPlace, answers_again, are_fit, end_of, goes_next, if_committed, latest_with, present, replays, without};
ghost use Rattle.schema.specs.declared.tables.Tables.{Tables as AnyTables};
ghost use Rattle.audit.specs.Same.{same_answer};

use crate::answer::is_same_answer;
use crate::course::{Answered, Course, courses};
use history::list::History;
use schema::catalog::Catalog;
use schema::tables::Tables;
use statement::evaluate::evaluate;
use std::alloc::Allocator;
use value::refusal::{Refusal, TxnNo};

// Does a statement again, which may change the tables: whether it gets the same answer.
fn answers_so<A: Allocator + Copy>(
    alloc: A,
    catalog: &Catalog<A>,
    tables: &mut Tables<A>,
    answered: &Answered<A>,
) -> Result<bool, Refusal>
    requires fits { fits catalog.now answered.now.statement ≡ true }
    requires sound { is_sound catalog.now tables.old ≡ true }
    ensures same { IfOk result (λ b. b ≡ same_answer (outcome catalog.now answered.now.statement tables.old).reply
        answered.now.reply) }
    ensures done { OnOk result (tables.new ≡ after catalog.now answered.now.statement tables.old) }
    ensures memory { IfErr result (λ e. e ≡ out_of_memory) }
{
    let outcome = evaluate(alloc, catalog, &answered.statement, &*tables)?;
    let changes = outcome.changes.into_list(alloc)?;
    tables.apply_all(alloc, changes.as_slice())?;
    Ok(is_same_answer(&outcome.reply, &answered.reply))
}

// Does statements again, one after the other: whether they get the same answers.
fn answer_again<A: Allocator + Copy>(
    alloc: A,
    catalog: &Catalog<A>,
    tables: &mut Tables<A>,
    statements: &[Answered<A>],
) -> Result<bool, Refusal>
    requires fits { are_fit catalog.now (map (λ a. (a.statement, a.reply)) statements.now) ≡ true }
    requires sound { is_sound catalog.now tables.old ≡ true }
    ensures same { IfOk result (λ b. b ≡ answers_again catalog.now (map (λ a. (a.statement, a.reply)) statements.now)
        tables.old) }
    ensures done { IfOk result (λ b. b ≡ true → tables.new ≡
        end_of catalog.now (map (λ a. (a.statement, a.reply)) statements.now) tables.old) }
    ensures memory { IfErr result (λ e. e ≡ out_of_memory) }
{
    let mut left = statements;
    while let [answered, rest @ ..] = left {
        if !answers_so(alloc, catalog, tables, answered)? {
            return Ok(false);
        }
        left = rest;
    }
    Ok(true)
}

// A course, if its transaction committed.
fn if_committed<A: Allocator>(course: Course<A>) -> Option<Course<A>>
    ensures { result ≡ if_committed course }
{
    if course.committed { Some(course) } else { None }
}

// The courses of those that committed, each at the place before its number.
fn to_come<A: Allocator>(
    alloc: A,
    courses: Vec<Course<A>, A>,
) -> Result<Vec<Option<Course<A>>, A>, Refusal>
    ensures ok { IfOk result (λ left. left.items ≡ map if_committed courses.items) }
    ensures memory { IfErr result (λ e. e ≡ out_of_memory) }
{
    let mut left = Vec::new(alloc);
    for course in courses {
        left.push(if_committed(course))?;
    }
    Ok(left)
}

// Takes out the course with a number, counted from 1 above the base.
fn take_out<A: Allocator>(left: &mut Vec<Option<Course<A>>, A>, number: u64) -> Option<Course<A>>
    requires { AreInPlace left.old.items }
    ensures found { result ≡ find (λ y. y.number == number) (present left.old.items) }
    ensures others { present left.new.items ≡ without number (present left.old.items) }
    ensures in_place { AreInPlace left.new.items }
{
    let place = number.checked_sub(1)?;
    let course = left.get_mut(place as usize)?;
    course.take()
}

// Whether a course is there.
fn has_one<A: Allocator>(left: &[Option<Course<A>>]) -> bool
    ensures { result ≡ list_any is_some left.now }
{
    left.iter().any(|course| course.is_some())
}

// The latest BEGIN after one more, of those that haven't imported.
fn latest_with<A: Allocator>(latest: u64, course: &Course<A>) -> u64
    ensures { result ≡ latest_with latest course.now }
{
    if course.imported {
        latest
    } else {
        latest.max(course.begin)
    }
}

// Whether a transaction hadn't ended before the latest BEGIN, and gets its answers again.
fn goes_after<A: Allocator + Copy>(
    alloc: A,
    catalog: &Catalog<A>,
    tables: &mut Tables<A>,
    latest: u64,
    course: &Course<A>,
) -> Result<bool, Refusal>
    requires fits { are_fit catalog.now course.now.statements ≡ true }
    requires sound { is_sound catalog.now tables.old ≡ true }
    ensures same { IfOk result (λ b. b ≡ (not (nat_lt course.now.end latest) && answers_again catalog.now
        course.now.statements tables.old)) }
    ensures done { IfOk result (λ b. b ≡ true → tables.new ≡ end_of catalog.now course.now.statements tables.old) }
    ensures memory { IfErr result (λ e. e ≡ out_of_memory) }
{
    if course.end < latest {
        return Ok(false);
    }
    answer_again(alloc, catalog, tables, course.statements.as_slice())
}

/// The transactions of a replay that are still to come, and what those before them have come to.
#[derive(Drop)]
struct Replay<A: Allocator> {
    /// Each at the place before its number.
    left: Vec<Option<Course<A>>, A>,
    tables: Tables<A>,
    /// The latest BEGIN of those that haven't imported.
    latest: u64,
}

impl<A: Allocator + Copy> Replay<A> {
    // Goes on with the transaction of a number: whether it is there, hadn't ended before the latest
    // BEGIN, and gets its answers again.
    fn go_next(&mut self, alloc: A, catalog: &Catalog<A>, number: u64) -> Result<bool, Refusal>
        requires in_place { AreInPlace self.old.left.items }
        requires fit { list_all (λ x. are_fit catalog.now x.statements) (present self.old.left.items) ≡ true }
        requires sound { is_sound catalog.now self.old.tables ≡ true }
        ensures goes { IfOk result (λ b. (rest : ℕ → List (Track A) → AnyTables A → Bool) →
            goes_next catalog.now self.old.latest self.old.tables
            (find (λ y. y.number == number) (present self.old.left.items))
            (λ l Y. rest l (without number (present self.old.left.items)) Y) ≡
            (b && rest self.new.latest (present self.new.left.items) self.new.tables)) }
        ensures in_place { AreInPlace self.new.left.items }
        ensures fit { list_all (λ x. are_fit catalog.now x.statements) (present self.new.left.items) ≡ true }
        ensures sound { IfOk result (λ b. b ≡ true → is_sound catalog.now self.new.tables ≡ true) }
        ensures memory { IfErr result (λ e. e ≡ out_of_memory) }
    {
        let Some(course) = take_out(&mut self.left, number) else {
            return Ok(false);
        };
        if !goes_after(alloc, catalog, &mut self.tables, self.latest, &course)? {
            return Ok(false);
        }
        self.latest = latest_with(self.latest, &course);
        Ok(true)
    }
}

// Whether the courses with these numbers, above a base, are all that are left, each once, and go
// one after the other.
fn replays<A: Allocator + Copy>(
    alloc: A,
    catalog: &Catalog<A>,
    base: u64,
    replay: Replay<A>,
    numbers: &[TxnNo],
) -> Result<bool, Refusal>
    requires in_place { AreInPlace replay.left.items }
    requires fit { list_all (λ x. are_fit catalog.now x.statements) (present replay.left.items) ≡ true }
    requires sound { is_sound catalog.now replay.tables ≡ true }
    ensures answer { IfOk result (λ b. b ≡ replays catalog.now base replay.latest (present replay.left.items)
        (map (λ n. n.0) numbers.now) replay.tables) }
    ensures memory { IfErr result (λ e. e ≡ out_of_memory) }
{
    let mut replay = replay;
    let mut left = numbers;
    while let [number, rest @ ..] = left {
        if !replay.go_next(alloc, catalog, number.0.saturating_sub(base))? {
            return Ok(false);
        }
        left = rest;
    }
    Ok(!has_one(replay.left.as_slice()))
}

/// Whether these are, in this order, the committed transactions of a history, each once, and are a
/// serial order: run alone one after the other from the opening tables each gets its recorded
/// replies, and none had ended before one that stands before it began, unless that one has imported
/// its snapshot.
pub fn check_order<A: Allocator + Copy>(
    alloc: A,
    history: &History<A>,
    numbers: &[TxnNo],
) -> Result<bool, Refusal>
    requires { IsLegal history.now }
    ensures answer { IfOk result (λ b. IsTrue b ↔ IsSerialList (world history.now) (map (λ n. n.0) numbers.now)) }
    ensures memory { IfErr result (λ e. e ≡ out_of_memory) }
{
    let courses = courses(alloc, history.records())?;
    let left = to_come(alloc, courses)?;
    let tables = history.copy_tables(alloc)?;
    let replay = Replay {
        left,
        tables,
        latest: 0,
    };
    let base = history.base().transactions;
    replays(alloc, history.catalog(), base, replay, numbers)
}

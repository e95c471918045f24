//! Orders that share beginnings with those before them.

ghost use Rattle.std.specs.Prelude.{◌≡◌, ◌+◌, ◌<◌, ◌≤◌, List, ℕ, nat_le, filter, length, take, IfOk, IfSome, OnOk};
ghost use Rattle.explore.specs.Explored.{Explored, IsExplained, RunsTo, outcome, turns_of};
ghost use Rattle.explore.specs.Replies.{AreReplies};
ghost use Rattle.explore.specs.Texts.{outcome_text};
ghost use Rattle.explore.specs.Trails.{AreSaved, IsSaved};

use crate::exploring::outcome_text;
use crate::plan::Plan;
use crate::replies::Told;
use crate::running::do_turn;
use serial::laws::legal_histories_are_serializable;
use session::sessions::Core;
use std::alloc::{Allocator, Global};
use std::marker::Model;
use value::refusal::{Code, Refusal};

/// The core that the first turns of an order lead to, what it has told each session, and a cursor for each.
#[derive(Drop)]
pub(crate) struct Saved<A: Allocator = Global> {
    core: Core<A>,
    told: Told<A>,
    cursors: [usize; 64],
    turns: usize,
}

/// The run of an order's first turns, in a box, which moves lightly.
#[derive(Drop)]
pub(crate) struct Beginning<A: Allocator = Global> {
    saved: Box<Saved<A>, A>,
}

impl<A: Allocator> Model for Beginning<A> {
    ghost use Rattle.explore.specs.declared.trail.Saved.{Saved as AnySaved};

    ghost Value = { AnySaved A };

    ghost view = { λ b. b.saved.value };
}

/// The order that was run last, and the cores after some of its beginnings, the shortest first.
#[derive(Drop)]
pub(crate) struct Trail<A: Allocator = Global> {
    order: Vec<usize, A>,
    saved: Vec<Beginning<A>, A>,
}

// How many turns two orders begin with in common.
fn common(order: &[usize], other: &[usize]) -> usize
    ensures same { take result order.now ≡ take result other.now }
    ensures within { result ≤ length other.now }
{
    let mut turns = 0;
    while turns < order.len() && turns < other.len() && order[turns] == other[turns] {
        turns += 1;
    }
    turns
}

// Whether a session above the first one goes later.
fn leads(order: &[usize]) -> bool {
    match order {
        [] => false,
        [first, more @ ..] => more.iter().any(|later| first < later),
    }
}

// Whether orders that come later begin with the turns before a place too: behind it a session goes that is above the one
// there.
fn is_shared(order: &[usize], place: usize) -> bool {
    if place < order.len() {
        let (_, left) = order.split_at(place);
        leads(left)
    } else {
        false
    }
}

// A core is kept at each place of an order that has fewer turns than this, and at this many places, or up to twice as many,
// of a longer one.
const PLACES: usize = 64;

// Whether a core is kept at a place, where orders that come later begin alike. A long order has few such places, since
// each core takes memory, and looking for a later turn takes time.
fn is_a_place(order: &[usize], place: usize) -> bool {
    let apart = order.len() / PLACES;
    apart == 0 || place % apart == 0
}

// How many events a core has.
fn events_in<A: Allocator>(core: &Core<A>) -> usize
    ensures { result ≡ length core.now.records }
{
    core.history().records().len()
}

impl<A: Allocator + Copy> Saved<A> {
    // A copy, which goes on by itself.
    fn copy(&self, alloc: A) -> Result<Saved<A>, Refusal>
        ensures { IfOk result (λ copy. copy ≡ self.now) }
    {
        let core = self.core.copy(alloc)?;
        let told = self.told.copy(alloc)?;
        Ok(Saved {
            core,
            told,
            cursors: self.cursors,
            turns: self.turns,
        })
    }

    // The outcome of the core, where its replies are told.
    fn outcome(&self, alloc: A) -> Result<Vec<u8, A>, Refusal>
        requires { AreReplies self.now.core.records self.now.told }
        ensures outcome { IfOk result (λ text. text.items ≡ outcome_text self.now.core) }
        ensures explained { IfOk result (λ text. IsExplained A text.items) }
    {
        self.core.is_legal();
        legal_histories_are_serializable::<A>();
        let text = outcome_text(alloc, &self.core, &self.told)?;
        Ok(text)
    }
}

impl<A: Allocator> Beginning<A> {
    // What is saved, in a box.
    fn of(alloc: A, saved: Saved<A>) -> Result<Beginning<A>, Refusal>
        ensures { IfOk result (λ b. b ≡ saved) }
    {
        match Box::new(alloc, saved) {
            Ok(saved) => Ok(Beginning { saved }),
            Err(_) => Err(Refusal::of_code(Code::OutOfMemory)),
        }
    }

    // What is saved.
    fn saved(&self) -> &Saved<A>
        ensures { result.now ≡ self.now }
    {
        self.saved.as_ref()
    }

    // How many turns are done.
    fn turns(&self) -> usize
        ensures { result ≡ self.now.turns }
    {
        self.saved().turns
    }

    // A copy, which goes on by itself.
    fn copy(&self, alloc: A) -> Result<Beginning<A>, Refusal>
    where
        A: Copy,
        ensures { IfOk result (λ copy. copy ≡ self.now) }
    {
        let saved = self.saved().copy(alloc)?;
        Beginning::of(alloc, saved)
    }
}

impl<A: Allocator> Trail<A> {
    /// No order, and no core.
    pub(crate) fn new(alloc: A) -> Trail<A>
    where
        A: Copy,
        ensures { (e : Explored A) → AreSaved e result }
    {
        Trail {
            order: Vec::new(alloc),
            saved: Vec::new(alloc),
        }
    }

    // Forgets the cores after more turns than this.
    fn leave(&mut self, turns: usize)
        ensures order { self.new.order.items ≡ self.old.order.items }
        ensures saved { self.new.saved.items ≡ filter (λ s. nat_le s.turns turns) self.old.saved.items }
    {
        self.saved.retain(|saved| saved.turns() <= turns);
    }

    // Notes an order.
    fn note(&mut self, order: &[usize]) -> Result<(), Refusal>
        ensures order { OnOk result (self.new.order.items ≡ order.now) }
        ensures saved { self.new.saved.items ≡ self.old.saved.items }
    {
        self.order.truncate(0);
        self.order.extend_from_slice(order)?;
        Ok(())
    }

    // Goes over to another order, with the cores of their common beginnings.
    fn follow(&mut self, order: &[usize]) -> Result<(), Refusal>
        ensures saved { (e : Explored A) → AreSaved e self.old → OnOk result (AreSaved e self.new) }
        ensures order { OnOk result (self.new.order.items ≡ order.now) }
    {
        let turns = common(self.order.as_slice(), order);
        self.leave(turns);
        self.note(order)?;
        Ok(())
    }

    // Whether the last core comes after so many turns.
    fn has_last(&self, turns: usize) -> bool {
        match self.saved.last() {
            Some(last) => last.turns() == turns,
            None => false,
        }
    }

    // The last core; where orders that come later begin alike, a copy.
    fn take_last(&mut self, alloc: A) -> Result<Option<Beginning<A>>, Refusal>
    where
        A: Copy,
        ensures last { (e : Explored A) → AreSaved e self.old →
            IfOk result (λ found. IfSome found (IsSaved e self.old.order.items)) }
        ensures saved { (e : Explored A) → AreSaved e self.old → OnOk result (AreSaved e self.new) }
        ensures order { self.new.order.items ≡ self.old.order.items }
    {
        let Some(last) = self.saved.pop() else {
            return Ok(None);
        };
        if !is_shared(self.order.as_slice(), last.turns()) {
            return Ok(Some(last));
        }
        let copy = last.copy(alloc)?;
        self.saved.push(last)?;
        Ok(Some(copy))
    }

    // Keeps a copy of a core of its order, where orders that come later begin alike.
    fn keep(&mut self, alloc: A, run: &Beginning<A>) -> Result<(), Refusal>
    where
        A: Copy,
        ensures saved { (e : Explored A) → AreSaved e self.old → IsSaved e self.old.order.items run.now →
            OnOk result (AreSaved e self.new) }
        ensures order { self.new.order.items ≡ self.old.order.items }
    {
        let order = self.order.as_slice();
        let turns = run.turns();
        if self.has_last(turns) || !is_a_place(order, turns) || !is_shared(order, turns) {
            return Ok(());
        }
        let copy = run.copy(alloc)?;
        self.saved.push(copy)?;
        Ok(())
    }
}

impl<A: Allocator + Copy> Plan<A> {
    // The core before any turn.
    fn unbegun(&self, alloc: A) -> Result<Beginning<A>, Refusal>
        ensures { (order : List ℕ) → IfOk result (IsSaved self.now order) }
    {
        let core = self.begin(alloc)?;
        let saved = Saved {
            core,
            told: Told::nothing(alloc),
            cursors: [0; 64],
            turns: 0,
        };
        let unbegun = Beginning::of(alloc, saved)?;
        Ok(unbegun)
    }

    // The core from which a trail's order goes on.
    fn resume(&self, alloc: A, trail: &mut Trail<A>) -> Result<Beginning<A>, Refusal>
        requires { AreSaved self.now trail.old }
        ensures run { IfOk result (IsSaved self.now trail.old.order.items) }
        ensures saved { OnOk result (AreSaved self.now trail.new) }
        ensures order { OnOk result (trail.new.order.items ≡ trail.old.order.items) }
    {
        match trail.take_last(alloc)? {
            Some(found) => Ok(found),
            None => self.unbegun(alloc),
        }
    }

    // Does the next turn of an order, and tells its reply.
    fn do_next(&self, alloc: A, run: &mut Saved<A>, order: &[usize]) -> Result<(), Refusal>
        requires saved { IsSaved self.now order.now run.old }
        requires more { run.old.turns < length order.now }
        requires few { length order.now ≤ turns_of self.now }
        ensures saved { OnOk result (IsSaved self.now order.now run.new) }
        ensures next { OnOk result (run.new.turns ≡ run.old.turns + 1) }
    {
        let place = order[run.turns];
        let before = events_in(&run.core);
        do_turn(
            alloc,
            &mut run.core,
            self.lines(),
            self.events(),
            &mut run.cursors,
            place,
        )?;
        let records = run.core.history().records();
        run.told.tell_from(alloc, records, before)?;
        run.turns += 1;
        Ok(())
    }

    // Goes on with the next turn of an order.
    fn go_on(&self, alloc: A, run: &mut Beginning<A>, order: &[usize]) -> Result<(), Refusal>
        requires saved { IsSaved self.now order.now run.old }
        requires more { run.old.turns < length order.now }
        requires few { length order.now ≤ turns_of self.now }
        ensures saved { OnOk result (IsSaved self.now order.now run.new) }
        ensures next { OnOk result (run.new.turns ≡ run.old.turns + 1) }
    {
        self.do_next(alloc, run.saved.as_mut(), order)
    }

    // Does the turns of a trail's order that are left, and keeps the cores that orders to come begin with.
    fn finish(
        &self,
        alloc: A,
        trail: &mut Trail<A>,
        run: &mut Beginning<A>,
        order: &[usize],
    ) -> Result<(), Refusal>
        requires saved { AreSaved self.now trail.old }
        requires order { trail.old.order.items ≡ order.now }
        requires run { IsSaved self.now order.now run.old }
        requires few { length order.now ≤ turns_of self.now }
        ensures ran { OnOk result (RunsTo self.now order.now run.new.core) }
        ensures told { OnOk result (AreReplies run.new.core.records run.new.told) }
        ensures saved { OnOk result (AreSaved self.now trail.new) }
    {
        'going: while run.turns() < order.len() {
            trail.keep(alloc, run)?;
            self.go_on(alloc, run, order)?;
        }
        Ok(())
    }

    /// The outcome of an order, which goes on from the cores that are kept of the order before. Out of memory is the only
    /// refusal.
    pub(crate) fn outcome_after(
        &self,
        alloc: A,
        trail: &mut Trail<A>,
        order: &[usize],
    ) -> Result<Vec<u8, A>, Refusal>
        requires short { length order.now ≤ turns_of self.now }
        requires saved { AreSaved self.now trail.old }
        ensures outcome { IfOk result (λ text. text.items ≡ outcome self.now order.now) }
        ensures explained { IfOk result (λ text. IsExplained A text.items) }
        ensures saved { OnOk result (AreSaved self.now trail.new) }
    {
        trail.follow(order)?;
        let mut reached = self.resume(alloc, trail)?;
        self.finish(alloc, trail, &mut reached, order)?;
        let text = reached.saved().outcome(alloc)?;
        Ok(text)
    }
}

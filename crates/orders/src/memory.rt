//! What a search remembers: where no order goes on, and the longest order that it found.

ghost use Rattle.std.specs.Prelude.{◌≡◌, true, List, [], ◌∷◌, ◌++◌, OnOk, IfOk, IfErr};
ghost use Rattle.value.specs.Refusals.{out_of_memory};
ghost use Rattle.schema.specs.Definition.{Catalog as AnyCatalog};
ghost use Rattle.orders.specs.Explains.{Trace as AnyTrace};
ghost use Rattle.orders.specs.Seen.{AreDead};
ghost use Rattle.orders.specs.Walks.{IsDead};

use crate::cost::rows_of_all;
use crate::done::Done;
use crate::same::{are_same_flags, are_same_tables};
use crate::walk::Walk;
use schema::tables::Tables;
use std::alloc::Allocator;
use std::marker::Model;
use value::refusal::Refusal;

/// How many lists the places of stands are spread over.
const LISTS: usize = 16384;

/// How many rows are kept at most.
const MOST_ROWS: u64 = 4_000_000;

/// How many flags take as much room as a row.
const FLAGS: usize = 64;

/// How many rows are compared in a step.
const COMPARED: u64 = 64;

/// Where no order goes on: which transactions are done, and the tables that they came to.
#[derive(Drop)]
pub(crate) struct Dead<A: Allocator> {
    done: Vec<bool, A>,
    // A number made of those that are done.
    mixed: u64,
    tables: Tables<A>,
}

impl<A: Allocator> Model for Dead<A> {
    ghost use Rattle.orders.specs.Seen.{Stand};

    ghost Value = { Stand A };

    ghost view = { λ d. record { done = d.done.items; tables = d.tables } };
}

/// What is remembered. The lists find what may be the same by a number that is made of what is done; whether it is the
/// same is found by comparing all of it.
#[derive(Drop)]
pub(crate) struct Memory<A: Allocator> {
    dead: Vec<Dead<A>, A>,
    lists: Vec<Vec<usize, A>, A>,
    room: u64,
    longest: Vec<usize, A>,
}

impl<A: Allocator> Model for Memory<A> {
    ghost use Rattle.std.specs.Prelude.{List};
    ghost use Rattle.orders.specs.Seen.{Stand};

    ghost Value = { List (Stand A) };

    ghost view = { λ m. m.dead.items };
}

/// Whether it is known that no order goes on, and how much was compared for that, in steps.
#[derive(Clone, Copy)]
pub(crate) struct Known {
    pub(crate) known: bool,
    pub(crate) compared: u64,
}

// So many lists without places.
fn empty_lists<A: Allocator + Copy>(alloc: A) -> Result<Vec<Vec<usize, A>, A>, Refusal>
    ensures memory { IfErr result (λ e. e ≡ out_of_memory) }
{
    let mut lists = Vec::with_capacity(alloc, LISTS)?;
    for _ in 0..LISTS {
        lists.push(Vec::new(alloc))?;
    }
    Ok(lists)
}

// The list in which a place stands, by what is done there.
fn list_of<A: Allocator>(done: &Done<A>) -> usize {
    (done.mixed() % LISTS as u64) as usize
}

// How much room is taken where a walk stands, counted in rows.
fn room_of<A: Allocator>(walk: &Walk<A>) -> u64 {
    let flags = (walk.done().as_slice().len() / FLAGS) as u64;
    rows_of_all(walk.tables())
        .saturating_add(flags)
        .saturating_add(1)
}

// Equal flags.
fn copy_flags<A: Allocator>(alloc: A, flags: &[bool]) -> Result<Vec<bool, A>, Refusal>
    ensures ok { IfOk result (λ copy. copy.items ≡ flags.now) }
    ensures memory { IfErr result (λ e. e ≡ out_of_memory) }
{
    Ok(Vec::from_slice(alloc, flags)?)
}

impl<A: Allocator> Dead<A> {
    // Where a walk stands.
    fn of(alloc: A, walk: &Walk<A>) -> Result<Dead<A>, Refusal>
    where
        A: Copy,
        ensures ok { IfOk result (λ d. d ≡ record { done = walk.now.done; tables = walk.now.tables }) }
        ensures memory { IfErr result (λ e. e ≡ out_of_memory) }
    {
        let done = copy_flags(alloc, walk.done().as_slice())?;
        let tables = walk.tables().copy(alloc)?;
        Ok(Dead {
            done,
            mixed: walk.done().mixed(),
            tables,
        })
    }

    // Which transactions are done.
    fn known_done(&self) -> &[bool]
        ensures { result.now ≡ self.now.done }
    {
        self.done.as_slice()
    }

    // The tables that they came to.
    fn known_tables(&self) -> &Tables<A>
        ensures { result.now ≡ self.now.tables }
    {
        &self.tables
    }

    // Whether it is where a walk stands.
    fn is_at(&self, alloc: A, walk: &Walk<A>) -> Result<bool, Refusal>
    where
        A: Copy,
        ensures ok { IfOk result (λ b. b ≡ true → self.now ≡ record { done = walk.now.done; tables = walk.now.tables }) }
        ensures memory { IfErr result (λ e. e ≡ out_of_memory) }
    {
        if !are_same_flags(self.known_done(), walk.done().as_slice()) {
            return Ok(false);
        }
        are_same_tables(alloc, self.known_tables(), walk.tables())
    }
}

impl<A: Allocator> Memory<A> {
    /// Nothing is remembered.
    pub(crate) fn new(alloc: A) -> Result<Memory<A>, Refusal>
    where
        A: Copy,
        ensures ok { IfOk result (λ m. m ≡ []) }
        ensures memory { IfErr result (λ e. e ≡ out_of_memory) }
    {
        let lists = empty_lists(alloc)?;
        Ok(Memory {
            dead: Vec::new(alloc),
            lists,
            room: MOST_ROWS,
            longest: Vec::new(alloc),
        })
    }

    // Whether what is remembered at a place is where a walk stands.
    fn is_at(&self, alloc: A, place: usize, walk: &Walk<A>) -> Result<bool, Refusal>
    where
        A: Copy,
        ensures dead { IfOk result (λ b. b ≡ true → (c : AnyCatalog) → (ts : List (AnyTrace A)) →
            AreDead c ts self.now → IsDead c ts walk.now.done walk.now.tables) }
        ensures memory { IfErr result (λ e. e ≡ out_of_memory) }
    {
        match self.dead.get(place) {
            Some(dead) => dead.is_at(alloc, walk),
            None => Ok(false),
        }
    }

    // Whether the same are done where what is remembered at a place is, and where a walk stands.
    fn is_alike(&self, place: usize, walk: &Walk<A>) -> bool {
        match self.dead.get(place) {
            Some(dead) => {
                dead.mixed == walk.done().mixed()
                    && are_same_flags(dead.known_done(), walk.done().as_slice())
            }
            None => false,
        }
    }

    /// Whether it is remembered that no order goes on from where a walk stands.
    pub(crate) fn knows(&self, alloc: A, walk: &Walk<A>) -> Result<Known, Refusal>
    where
        A: Copy,
        ensures dead { IfOk result (λ b. b.known ≡ true → (c : AnyCatalog) → (ts : List (AnyTrace A)) →
            AreDead c ts self.now → IsDead c ts walk.now.done walk.now.tables) }
        ensures memory { IfErr result (λ e. e ≡ out_of_memory) }
    {
        let mut compared: u64 = 0;
        let each = rows_of_all(walk.tables()) / COMPARED;
        if let Some(places) = self.lists.get(list_of(walk.done())) {
            for place in places {
                if self.is_alike(*place, walk) {
                    compared = compared.saturating_add(each);
                    if self.is_at(alloc, *place, walk)? {
                        return Ok(Known {
                            known: true,
                            compared,
                        });
                    }
                }
            }
        }
        Ok(Known {
            known: false,
            compared,
        })
    }

    // Notes the place of what is remembered next.
    fn note(&mut self, list: usize) -> Result<(), Refusal>
        ensures same { OnOk result (self.new ≡ self.old) }
        ensures memory { IfErr result (λ e. e ≡ out_of_memory) }
    {
        let place = self.dead.len();
        if let Some(places) = self.lists.get_mut(list) {
            places.push(place)?;
        }
        Ok(())
    }

    // Keeps the order of a walk, where none was longer.
    fn keep_longest(&mut self, alloc: A, walk: &Walk<A>) -> Result<(), Refusal>
    where
        A: Copy,
        ensures same { OnOk result (self.new ≡ self.old) }
        ensures memory { IfErr result (λ e. e ≡ out_of_memory) }
    {
        if walk.len() > self.longest.len() {
            self.longest = walk.places(alloc)?;
        }
        Ok(())
    }

    // Takes room for so many rows: whether there was so much.
    fn take_room(&mut self, rows: u64) -> bool
        ensures { self.new ≡ self.old }
    {
        if rows > self.room {
            return false;
        }
        self.room -= rows;
        true
    }

    // Keeps where a walk stands.
    fn keep(&mut self, alloc: A, walk: &Walk<A>) -> Result<(), Refusal>
    where
        A: Copy,
        ensures ok { OnOk result (self.new ≡
            self.old ++ record { done = walk.now.done; tables = walk.now.tables } ∷ []) }
        ensures memory { IfErr result (λ e. e ≡ out_of_memory) }
    {
        self.dead.push(Dead::of(alloc, walk)?)?;
        Ok(())
    }

    /// Remembers that no order goes on from where a walk stands, as long as there is room.
    pub(crate) fn remember(&mut self, alloc: A, walk: &Walk<A>) -> Result<(), Refusal>
    where
        A: Copy,
        ensures kept { OnOk result ((c : AnyCatalog) → (ts : List (AnyTrace A)) → AreDead c ts self.old →
            IsDead c ts walk.now.done walk.now.tables → AreDead c ts self.new) }
        ensures memory { IfErr result (λ e. e ≡ out_of_memory) }
    {
        self.keep_longest(alloc, walk)?;
        if !self.take_room(room_of(walk)) {
            return Ok(());
        }
        self.note(list_of(walk.done()))?;
        self.keep(alloc, walk)
    }

    /// The longest order from which none went on.
    pub(crate) fn into_longest(self) -> Vec<usize, A> {
        self.longest
    }
}

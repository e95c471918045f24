//! Where a search for an order stands.

ghost use Rattle.std.specs.Prelude.{◌≡◌, ◌+◌, ◌-◌, ◌^◌, min, List, [], ◌∷◌, ◌++◌, true, false, length, map, replicate, slice_set, OnOk, IfOk, IfErr};
ghost use Rattle.std.specs.Option.{option_map};
ghost use Rattle.value.specs.Refusals.{out_of_memory};
ghost use Rattle.schema.specs.Plain.{is_sound};
ghost use Rattle.orders.specs.Explains.{are_fit};
ghost use Rattle.orders.specs.Undone.{HasRun, put_back};
ghost use Rattle.orders.specs.Walks.{HasPopped, HasTakenBack, HasTurned, behind, taken_back};

use crate::alone::run_alone;
use crate::done::Done;
use crate::transaction::Transaction;
use crate::undo::take_back;
use schema::catalog::Catalog;
use schema::changes::Change;
use schema::tables::Tables;
use std::alloc::Allocator;
use std::marker::Model;
use value::refusal::Refusal;

/// A transaction that was done: its place, and what takes it back.
#[derive(Drop)]
pub struct Passed<A: Allocator> {
    place: usize,
    back: Vec<Change<A>, A>,
}

impl<A: Allocator> Model for Passed<A> {
    ghost use Rattle.orders.specs.Walks.{Passing};

    ghost Value = { Passing A };

    ghost view = { λ p. record { place = p.place; back = p.back.items } };
}

/// Where a search stands.
#[derive(Drop)]
pub struct Walk<A: Allocator> {
    path: Vec<Passed<A>, A>,
    done: Done<A>,
    tables: Tables<A>,
    from: usize,
    // How many transactions were run or taken back, and rows walked and put back.
    work: u64,
}

impl<A: Allocator> Model for Walk<A> {
    ghost use Rattle.orders.specs.Walks.{Standing};

    ghost Value = { Standing A };

    ghost view = { λ w. record { path = w.path.items; done = w.done; tables = w.tables; from = w.from } };
}

impl<A: Allocator> Walk<A> {
    /// Before the first of so many transactions.
    pub fn start(alloc: A, tables: &Tables<A>, count: usize) -> Result<Walk<A>, Refusal>
    where
        A: Copy,
        ensures ok { IfOk result (λ w. w ≡
            record { path = []; done = replicate count false; tables = tables.now; from = 0 }) }
        ensures memory { IfErr result (λ e. e ≡ out_of_memory) }
    {
        let done = Done::new(alloc, count)?;
        Ok(Walk {
            path: Vec::new(alloc),
            done,
            tables: tables.copy(alloc)?,
            from: 0,
            work: 0,
        })
    }

    /// Which transactions are done.
    pub fn done(&self) -> &Done<A>
        ensures { result.now ≡ self.now.done }
    {
        &self.done
    }

    /// The tables that they came to.
    pub fn tables(&self) -> &Tables<A>
        ensures { result.now ≡ self.now.tables }
    {
        &self.tables
    }

    /// The place from which on transactions are still to be tried.
    pub fn from(&self) -> usize
        ensures { result ≡ self.now.from }
    {
        self.from
    }

    /// How many transactions are done.
    pub fn len(&self) -> usize
        ensures { result ≡ length self.now.path }
    {
        self.path.len()
    }

    /// How many transactions were run or taken back, and rows walked, put back and compared.
    pub fn work(&self) -> u64 {
        self.work
    }

    /// Counts so much as work.
    pub fn count(&mut self, work: u64)
        ensures { self.new ≡ self.old }
    {
        self.work = self.work.saturating_add(work);
    }

    /// The changes that take the last transaction back.
    pub fn last_changes(&self) -> &[Change<A>] {
        match self.path.last() {
            Some(passed) => passed.back.as_slice(),
            None => &[],
        }
    }

    /// Passes over a transaction.
    pub fn pass_over(&mut self, place: usize)
        ensures { self.new ≡ record self.old { from = behind place } }
    {
        self.from = place.saturating_add(1);
    }

    // Goes on with a transaction that was run.
    fn push(&mut self, place: usize, back: Vec<Change<A>, A>) -> Result<(), Refusal>
        ensures ok { OnOk result (self.new ≡ record {
          path = self.old.path ++ record { place = place; back = back.items } ∷ [];
          done = slice_set self.old.done place true;
          tables = self.old.tables;
          from = 0;
        }) }
        ensures memory { IfErr result (λ e. e ≡ out_of_memory) }
    {
        self.path.push(Passed { place, back })?;
        self.done.add(place);
        self.from = 0;
        Ok(())
    }

    // Runs a transaction alone: what takes it back, where its answers agree.
    fn run(
        &mut self,
        alloc: A,
        catalog: &Catalog<A>,
        transaction: &Transaction<A>,
    ) -> Result<Option<Vec<Change<A>, A>>, Refusal>
    where
        A: Copy,
        requires fits { are_fit catalog.now transaction.now.statements ≡ true }
        requires sound { is_sound catalog.now self.old.tables ≡ true }
        ensures ok { IfOk result (λ back. HasRun catalog.now transaction.now.statements self.old.tables
            (option_map (λ v. v.items) back) self.new.tables) }
        ensures others { OnOk result (self.new ≡ record self.old { tables = self.new.tables }) }
        ensures memory { IfErr result (λ e. e ≡ out_of_memory) }
    {
        self.work = self.work.saturating_add(1);
        run_alone(
            alloc,
            catalog,
            &mut self.tables,
            transaction.answered(),
            &mut self.work,
        )
    }

    /// Runs the transaction of a place alone, and goes on with it where its answers agree: whether they do.
    pub fn go(
        &mut self,
        alloc: A,
        catalog: &Catalog<A>,
        transaction: &Transaction<A>,
        place: usize,
    ) -> Result<bool, Refusal>
    where
        A: Copy,
        requires fits { are_fit catalog.now transaction.now.statements ≡ true }
        requires sound { is_sound catalog.now self.old.tables ≡ true }
        ensures ok { IfOk result (λ b. HasTurned catalog.now transaction.now self.old place b self.new) }
        ensures memory { IfErr result (λ e. e ≡ out_of_memory) }
    {
        let turn = self.run(alloc, catalog, transaction)?;
        match turn {
            Some(back) => {
                self.push(place, back)?;
                Ok(true)
            }
            None => Ok(false),
        }
    }

    // Goes on behind a place, whose transaction isn't done any more.
    fn leave(&mut self, place: usize)
        ensures { self.new ≡ record self.old {
          done = slice_set self.old.done place false;
          from = behind place;
        } }
    {
        self.done.remove(place);
        self.from = place.saturating_add(1);
    }

    // Takes the last transaction off the path.
    fn pop(&mut self) -> Option<Passed<A>>
        ensures { HasPopped self.old result self.new }
    {
        let Some(passed) = self.path.pop() else {
            return None;
        };
        Some(passed)
    }

    // Takes changes back.
    fn put_back(&mut self, alloc: A, back: &[Change<A>]) -> Result<(), Refusal>
    where
        A: Copy,
        ensures ok { OnOk result (self.new ≡ record self.old { tables = put_back back.now self.old.tables }) }
        ensures memory { IfErr result (λ e. e ≡ out_of_memory) }
    {
        self.work = self
            .work
            .saturating_add(1)
            .saturating_add(back.len() as u64);
        take_back(alloc, &mut self.tables, back)
    }

    // Takes a transaction back that was taken off the path, and goes on behind its place, which it gives.
    fn undo(&mut self, alloc: A, passed: Passed<A>) -> Result<usize, Refusal>
    where
        A: Copy,
        ensures ok { IfOk result (λ place. (place ≡ passed.place) × (self.new ≡ taken_back self.old self.old.path passed)) }
        ensures memory { IfErr result (λ e. e ≡ out_of_memory) }
    {
        let Passed { place, back } = passed;
        self.put_back(alloc, back.as_slice())?;
        self.leave(place);
        Ok(place)
    }

    /// Takes the last transaction back, and goes on behind its place, which it gives; none where none was done.
    pub fn take_back(&mut self, alloc: A) -> Result<Option<usize>, Refusal>
    where
        A: Copy,
        ensures ok { IfOk result (λ place. HasTakenBack self.old place self.new) }
        ensures memory { IfErr result (λ e. e ≡ out_of_memory) }
    {
        match self.pop() {
            Some(passed) => {
                let place = self.undo(alloc, passed)?;
                Ok(Some(place))
            }
            None => Ok(None),
        }
    }

    /// The places of the transactions that are done, in their order.
    pub fn places(&self, alloc: A) -> Result<Vec<usize, A>, Refusal>
    where
        A: Copy,
        ensures ok { IfOk result (λ places. places.items ≡ map (λ p. p.place) self.now.path) }
        ensures memory { IfErr result (λ e. e ≡ out_of_memory) }
    {
        let mut places = Vec::with_capacity(alloc, self.path.len())?;
        for passed in &self.path {
            places.push(passed.place)?;
        }
        Ok(places)
    }
}

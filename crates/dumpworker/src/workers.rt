//! The workers of a dump: each draws a piece, makes its text, and hands it over.

ghost use Rattle.std.specs.Prelude.{◌≡◌, ◌^◌, ◌<◌, ◌≤◌, length, OnOk};
ghost use Rattle.dumpworker.specs.Drawn.{HasNoneLeft, first_hand};
ghost use denote.Param.Send.{IsSend, IsSync, Frees};

use crate::counter::{Counter, Drawer};
use crate::shelf::{Job, Shelf, Stopped};
use crate::source::Source;
use collector::Device;
use dumpplan::{Gate, Jobs};
use schema::reader::SnapshotReader;
use std::alloc::Allocator;
use std::sync::{Mutex, Wait};
use std::thread;
use std::thread::Threads;

// More than any plan has pieces.
const DRAWS: u64 = 1 << 57;

/// How many workers write a dump, and what each of them works with.
#[derive(Drop)]
pub(crate) struct Workers<'w, T, G, A: Allocator> {
    pub(crate) rt: &'w T,
    pub(crate) alloc: A,
    pub(crate) jobs: Jobs,
    /// The gate that is asked about each piece.
    pub(crate) gate: &'w G,
}

impl<'w, T, G, A> Workers<'w, T, G, A>
where
    A: Allocator + Copy,
    G: Gate,
    T: Wait,
{
    // Draws pieces until there are none, or the shelf is stopped. Gives its right back, with all that it
    // has drawn.
    fn work<R, W, D>(
        &self,
        source: &Source<'_, R, A>,
        shelf: &Mutex<Shelf<'_, R, W, A, D>>,
        counter: &Counter<A>,
        mut drawer: Drawer,
    ) -> (Drawer, Result<(), Stopped>)
    where
        R: SnapshotReader<A>,
        W: Device,
        D: Job,
        requires texts { source.now ≡ D.texts }
        requires table { drawer.seat.table_id ≡ counter.now.table.shared.table_id }
        requires draws { 2 ^ 57 ≤ drawer.seat.me.0.left }
        ensures { OnOk result.1 (HasNoneLeft (length source.now) result.0.seat.me.0) }
    {
        for _ in 0..DRAWS {
            let index = counter.draw(&mut drawer);
            if index >= source.count() {
                return (drawer, Ok(()));
            }
            let number = index + 1;
            self.gate.before(number);
            let made = source.text(self.alloc, number);
            let taken = shelf.lock(self.rt).take(number, made);
            self.gate.after(number);
            if let Err(stopped) = taken {
                return (drawer, Err(stopped));
            }
        }
        (drawer, Ok(()))
    }
}

impl<'w, T, G, A> Workers<'w, T, G, A>
where
    A: Allocator + Copy + Send + Sync,
    G: Gate,
    T: Threads + Wait + Sync,
{
    /// Runs as many workers as there are jobs. The calling thread is one; a thread that can't be started is left out.
    pub(crate) fn work_in_scope<R, W, D>(
        &self,
        source: &Source<'_, R, A>,
        shelf: &Mutex<Shelf<'_, R, W, A, D>>,
        counter: &Counter<A>,
        mut drawer: Drawer,
    )
    where
        R: SnapshotReader<A> + Sync,
        W: Device + Send,
        D: Job + Send + Sync,
        requires texts { source.now ≡ D.texts }
        requires table { drawer.seat.table_id ≡ counter.now.table.shared.table_id }
        requires draws { drawer.seat.me.0 ≡ first_hand }
    {
        let jobs = self.jobs.get();
        thread::scope(
            thread::scope_env(),
            self.rt,
            move |scope|
                requires texts { source.now ≡ D.texts }
                requires table { drawer.seat.table_id ≡ counter.now.table.shared.table_id }
                requires draws { drawer.seat.me.0 ≡ first_hand }
                requires jobs { (1 ≤ jobs) × (jobs ≤ 64) }
                requires bounds { IsSend A.row × IsSync A.row × Frees A.Allocator A.dealloc_token × IsSync R.row ×
                    IsSend W.row × IsSync G.row × IsSync T.row × IsSend D.row × IsSync D.row }
            {
                for _ in 1..jobs {
                    let other = counter.another(&mut drawer);
                    let _ = scope.spawn(
                        move ||
                            requires texts { source.now ≡ D.texts }
                            requires table { other.seat.table_id ≡ counter.now.table.shared.table_id }
                            requires draws { other.seat.me.0.left ≡ 2 ^ 57 }
                            requires bounds { IsSend A.row × IsSync A.row × Frees A.Allocator A.dealloc_token ×
                                IsSync R.row × IsSend W.row × IsSync G.row × IsSync T.row × IsSend D.row ×
                                IsSync D.row }
                        {
                            let _ = self.work(source, shelf, counter, other);
                        },
                    );
                }
                let _ = self.work(source, shelf, counter, drawer);
            },
        );
    }
}

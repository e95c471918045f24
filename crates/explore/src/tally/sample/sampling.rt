//! Interleavings drawn at random, each with the same chance, by their numbers.

ghost use Rattle.std.specs.Prelude.{◌≡◌, ◌+◌, ◌*◌, ◌%◌, ◌^◌, ◌<◌, ◌++◌, [], List, length, replicate, slice_index_or, IfOk, OnOk, IsPermutation};
ghost use Rattle.explore.specs.Interleavings.{IsInterleaving};
ghost use Rattle.rand.specs.Shuffle.{shuffled};
ghost use Rattle.rand_core.specs.Steps.{stream_of, steps_u64_low};
ghost use Rattle.rand_pcg.specs.Pcg.{pcg64};
ghost use Rattle.explore.specs.Sampling.{draws, drawn, generator_at, in_a_row};

use crate::tally::runs::Schedules;
use rand::seq::SliceRandom;
use rand_core::SeedableRng;
use rand_pcg::Pcg64;
use std::alloc::{AllocError, Allocator, Global};
use std::marker::Model;

/// Interleavings of several sessions' lines, drawn at random, with replacement. The value has how many lines each
/// session has, the seed, and how many are drawn. One seed gives the same interleavings everywhere.
#[derive(Drop)]
pub struct Sample<A: Allocator = Global> {
    lines: Vec<u32, A>,
    seed: u64,
    count: u64,
}

impl<A: Allocator> Model for Sample<A> {
    ghost use Rattle.explore.specs.Sampling.{Sampled};

    ghost Value = { Sampled };

    ghost view = { λ s. record { lines = s.lines.items; seed = s.seed; count = s.count } };
}

// Appends a session as often as it has lines.
fn append_turns<A: Allocator>(
    session: usize,
    lines: u32,
    order: &mut Vec<usize, A>,
) -> Result<(), AllocError>
    ensures { OnOk result (order.new.items ≡ order.old.items ++ replicate lines session) }
{
    for _ in 0..lines {
        order.push(session)?;
    }
    Ok(())
}

// The sessions one after the other, each as often as it has lines.
fn sessions_in_a_row<A: Allocator>(alloc: A, lines: &[u32]) -> Result<Vec<usize, A>, AllocError>
    ensures { IfOk result (λ order. order.items ≡ in_a_row 0 lines.now) }
{
    let mut order = Vec::new(alloc);
    for (session, own) in lines.iter().enumerate() {
        append_turns(session, *own, &mut order)?;
    }
    Ok(order)
}

// How many words of the generator, which has 2^128, lie before the draw with a number, of `turns` turns.
fn words_before(number: u64, turns: usize) -> u128
    ensures { result ≡ number * (2 * turns + 1) % 2 ^ 128 }
{
    u128::from(number).wrapping_mul(2 * u128::from(turns as u64) + 1)
}

// The generator of a seed, at the draw with a number, of `turns` turns.
fn generator_at(seed: u64, number: u64, turns: usize) -> Pcg64
    ensures { result ≡ generator_at seed turns number }
{
    let mut generator = Pcg64::seed_from_u64(seed);
    generator.advance(words_before(number, turns));
    generator
}

// Puts the turns of an order into a random order.
fn shuffle(order: &mut [usize], mut generator: Pcg64)
    ensures permutation { IsPermutation order.old order.new }
    ensures drawn { order.new ≡ (shuffled order.old 0 (stream_of (steps_u64_low pcg64) generator)).0 }
{
    order.shuffle(&mut generator);
}

impl<A: Allocator> Sample<A> {
    /// `count` interleavings of sessions that have these numbers of lines.
    pub fn of(lines: Vec<u32, A>, seed: u64, count: u64) -> Sample<A>
        ensures { result ≡ record { lines = lines.items; seed = seed; count = count } }
    {
        Sample { lines, seed, count }
    }

    /// The interleaving that is drawn with a number. Its only refusal is out of memory.
    pub fn order(&self, alloc: A, number: u64) -> Result<Vec<usize, A>, AllocError>
        ensures drawn { IfOk result (λ order. order.items ≡ drawn self.now number) }
        ensures interleaving { IfOk result (λ order. IsInterleaving self.now.lines order.items) }
    {
        let mut order = sessions_in_a_row(alloc, self.lines.as_slice())?;
        let generator = generator_at(self.seed, number, order.len());
        shuffle(order.as_mut_slice(), generator);
        Ok(order)
    }
}

impl<A: Allocator> Schedules<A> for Sample<A> {
    ghost use Rattle.explore.specs.Sampling.{draws};

    ghost orders = { λ sampled. draws sampled };

    fn count(&self) -> u64 {
        self.count
    }

    fn order_at(&self, alloc: A, number: u64) -> Result<Vec<usize, A>, AllocError> {
        self.order(alloc, number)
    }
}

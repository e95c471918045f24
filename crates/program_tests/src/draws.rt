//! That each interleaving is drawn with the same chance: Pearson's test. A bound is passed by one seed in a thousand.
//! What the statistic is was worked out outside, from the generator's and the shuffle's definitions.

use explore::tally::interleave::interleavings::Interleavings;
use explore::tally::runs::Schedules;
use explore::tally::sample::sampling::Sample;
use std::alloc::Global;
use std::test::Fail;

// How many draws an interleaving has on average.
const EXPECTED: u64 = 1000;

// How often an interleaving is drawn.
fn times(alloc: Global, sample: &Sample, order: &[usize]) -> Result<u64, Fail> {
    let mut times: u64 = 0;
    for number in 0..sample.count() {
        if sample.order(alloc, number)?.as_slice() == order {
            times = times.saturating_add(1);
        }
    }
    Ok(times)
}

// The sum of the squares of the distances from what is expected, over what is expected, in thousandths.
fn statistic(alloc: Global, all: &Interleavings, sample: &Sample) -> Result<u64, Fail> {
    let mut squares: u64 = 0;
    for number in 0..all.len() {
        let order = all.order(alloc, number)?;
        let distance = times(alloc, sample, order.as_slice())?.abs_diff(EXPECTED);
        squares = squares.saturating_add(distance.saturating_mul(distance));
    }
    Ok(squares)
}

#[test]
fn two_sessions_are_drawn_with_equal_chances(rt: HostRuntime) -> Result<(), Fail> {
    let all = Interleavings::of([2, 2].to_vec(rt.alloc())?).ok_or("six")?;
    let sample = Sample::of([2, 2].to_vec(rt.alloc())?, 1, 6 * EXPECTED);
    assert_eq!(rt; all.len(), 6);
    let statistic = statistic(rt.alloc(), &all, &sample)?;
    assert_eq!(rt; statistic, 1578);
    assert!(rt; statistic < 20_515);
    Ok(())
}

#[test]
fn three_sessions_are_drawn_with_equal_chances(rt: HostRuntime) -> Result<(), Fail> {
    let all = Interleavings::of([1, 2, 1].to_vec(rt.alloc())?).ok_or("twelve")?;
    let sample = Sample::of([1, 2, 1].to_vec(rt.alloc())?, 7, 12 * EXPECTED);
    assert_eq!(rt; all.len(), 12);
    let statistic = statistic(rt.alloc(), &all, &sample)?;
    assert_eq!(rt; statistic, 12_562);
    assert!(rt; statistic < 31_264);
    Ok(())
}

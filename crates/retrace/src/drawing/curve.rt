//! Arrows as curves, and where their labels stand.

use crate::drawing::layout::HALF;
use std::alloc::{AllocError, Allocator};
use std::io::{self, Write};

/// A point of a picture.
#[derive(Clone, Copy)]
pub(crate) struct Point {
    pub(crate) x: u64,
    pub(crate) y: u64,
}

/// A curve from one point to another, which is drawn to two others.
#[derive(Clone, Copy)]
pub(crate) struct Curve {
    from: Point,
    first: Point,
    second: Point,
    to: Point,
}

/// A rectangle of a picture that something takes.
#[derive(Clone, Copy)]
pub(crate) struct Taken {
    pub(crate) left: u64,
    pub(crate) top: u64,
    pub(crate) width: u64,
    pub(crate) height: u64,
}

// A point moved down.
fn below(point: Point, by: u64) -> Point {
    Point {
        x: point.x,
        y: point.y.saturating_add(by),
    }
}

// A point moved up.
fn above(point: Point, by: u64) -> Point {
    Point {
        x: point.x,
        y: point.y.saturating_sub(by),
    }
}

// The product of three numbers.
fn product(a: u64, b: u64, c: u64) -> u64 {
    a.saturating_mul(b).saturating_mul(c)
}

// The weighted middle of four numbers, where the weights make 512.
fn weighed(weights: [u64; 4], numbers: [u64; 4]) -> u64 {
    let mut sum = 0u64;
    for (weight, number) in weights.iter().zip(numbers.iter()) {
        sum = sum.saturating_add(weight.saturating_mul(*number));
    }
    sum / 512
}

impl Curve {
    /// The arrow from the middle of one bar to that of another: from edge to edge, or above both where they are in one
    /// lane.
    pub(crate) fn between(from: Point, to: Point) -> Curve {
        if from.y == to.y {
            let (from, to) = (above(from, HALF), above(to, HALF));
            return Curve {
                from,
                first: above(from, 44),
                second: above(to, 44),
                to,
            };
        }
        let (from, to) = if from.y < to.y {
            (below(from, HALF), above(to, HALF + 3))
        } else {
            (above(from, HALF), below(to, HALF + 3))
        };
        let middle = from.y.saturating_add(to.y) / 2;
        Curve {
            from,
            first: Point {
                x: from.x,
                y: middle,
            },
            second: Point { x: to.x, y: middle },
            to,
        }
    }

    /// Its point after `eighths` eighths of it.
    pub(crate) fn point(&self, eighths: u64) -> Point {
        let done = eighths.min(8);
        let left = 8 - done;
        let weights = [
            product(left, left, left),
            product(left, left, done).saturating_mul(3),
            product(left, done, done).saturating_mul(3),
            product(done, done, done),
        ];
        Point {
            x: weighed(
                weights,
                [self.from.x, self.first.x, self.second.x, self.to.x],
            ),
            y: weighed(
                weights,
                [self.from.y, self.first.y, self.second.y, self.to.y],
            ),
        }
    }

    /// Writes its path.
    pub(crate) fn write_path<W: Write>(&self, out: &mut W) -> io::Result<()> {
        write!(out, "M{} {}", self.from.x, self.from.y)?;
        write!(out, " C{} {}", self.first.x, self.first.y)?;
        write!(out, " {} {}", self.second.x, self.second.y)?;
        write!(out, " {} {}", self.to.x, self.to.y)
    }
}

impl Taken {
    // Whether two rectangles meet.
    fn meets(&self, other: &Taken) -> bool {
        self.left < other.left.saturating_add(other.width)
            && other.left < self.left.saturating_add(self.width)
            && self.top < other.top.saturating_add(other.height)
            && other.top < self.top.saturating_add(self.height)
    }
}

/// The rectangles that are taken.
#[derive(Drop)]
pub(crate) struct Room<A: Allocator> {
    taken: Vec<Taken, A>,
}

impl<A: Allocator> Room<A> {
    /// Nothing is taken.
    pub(crate) fn new(alloc: A) -> Room<A> {
        Room {
            taken: Vec::new(alloc),
        }
    }

    /// Takes a rectangle.
    pub(crate) fn take(&mut self, taken: Taken) -> Result<(), AllocError> {
        self.taken.push(taken)?;
        Ok(())
    }

    // Whether a rectangle meets none that is taken.
    fn is_free(&self, wanted: &Taken) -> bool {
        !self.taken.iter().any(|taken| wanted.meets(taken))
    }

    /// Where the middle of a label of this width stands on a curve: where it meets nothing, as far as that can be; and
    /// takes it.
    pub(crate) fn place(&mut self, curve: &Curve, width: u64) -> Result<Point, AllocError> {
        let mut chosen = curve.point(3);
        for eighths in [3u64, 4, 2, 5, 6, 1, 7] {
            let point = curve.point(eighths);
            if self.is_free(&label_at(point, width)) {
                chosen = point;
                break;
            }
        }
        self.take(label_at(chosen, width))?;
        Ok(chosen)
    }
}

// What a label takes that stands at a point.
fn label_at(point: Point, width: u64) -> Taken {
    Taken {
        left: point.x.saturating_sub(width / 2),
        top: point.y.saturating_sub(8),
        width,
        height: 16,
    }
}

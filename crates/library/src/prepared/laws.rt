//! What holds of all that is read once, as the contracts of functions that do nothing.

ghost use Rattle.library.specs.FillingLaws.{LiteralsStand};

use std::alloc::Allocator;

/// Until a place is given another value, what a session asks for is what was read.
pub fn literals_stand<A: Allocator>()
    ensures { LiteralsStand A }
{}

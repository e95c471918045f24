//! The name of a server's history in this memory, which a caller picks for proofs.

use crate::Scarce;
use pass::word::Naming;
use std::alloc::Global;
use std::marker::Brand;

impl<'m> Naming<&'m Scarce<Global>> for Brand {
    ghost use Rattle.pass.specs.Rules.{no_opening, no_table};

    ghost table = { no_table };

    ghost opening = { no_opening };

    ghost most = { 0 };
}

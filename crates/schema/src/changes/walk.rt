//! Walks over the changes of a table.

ghost use Rattle.std.specs.Prelude.{◌≡◌, [], None, drop, map, slice_get, unwrap_or};
ghost use Rattle.std.specs.Option.{option_map, option_copied};
ghost use Rattle.schema.specs.Coming.{left, said_of};

use super::Change;
use crate::row::Row;
use std::alloc::{Allocator, Global};
use std::collections::btree_map::Range;
use std::marker::Model;
use value::key::Key;

/// A walk over changes of a table in key order. To a contract it is what is still to come: of each change its key,
/// and its new row or that it has none.
#[derive(Drop)]
pub struct ChangeWalk<'c, A: Allocator = Global> {
    // Those of a map, where there is one; else those of a list.
    keyed: Option<Range<'c, Key<A>, Option<Row<A>>>>,
    listed: Option<&'c [Change<A>]>,
}

impl<'c, A: Allocator> Model for ChangeWalk<'c, A> {
    ghost use Rattle.std.specs.Prelude.{Option, List};
    ghost use Rattle.value.specs.declared.value.Value.{Value as Datum};
    ghost use Rattle.schema.specs.declared.row.Row.{Row};
    ghost use Rattle.schema.specs.Coming.{left};

    ghost Value = { List (Datum A × Option (Row A)) };

    ghost view = { λ w. left w.keyed w.listed };
}

// The next change of a map.
fn next_keyed<'c, A: Allocator>(
    keyed: &mut Range<'c, Key<A>, Option<Row<A>>>,
) -> Option<(&'c Key<A>, Option<&'c Row<A>>)>
    ensures first { option_map (λ p. (p.0.now, option_copied p.1)) result ≡ slice_get keyed.old 0 }
    ensures rest { keyed.new ≡ drop 1 keyed.old }
{
    match keyed.next() {
        Some((key, row)) => Some((key, row.as_ref())),
        None => None,
    }
}

// The next change of a list.
fn next_listed<'c, A: Allocator>(
    listed: &mut &'c [Change<A>],
) -> Option<(&'c Key<A>, Option<&'c Row<A>>)>
    ensures first { option_map (λ p. (p.0.now, option_copied p.1)) result ≡ slice_get (map said_of listed.old.now) 0 }
    ensures rest { map said_of listed.new.now ≡ drop 1 (map said_of listed.old.now) }
{
    let list = *listed;
    match list {
        [] => None,
        [change, more @ ..] => {
            *listed = more;
            Some((change.key(), change.row()))
        }
    }
}

impl<'c, A: Allocator> ChangeWalk<'c, A> {
    /// Those of a map, if there is one.
    pub(crate) fn of_map(keyed: Option<Range<'c, Key<A>, Option<Row<A>>>>) -> ChangeWalk<'c, A>
        ensures { result ≡ unwrap_or keyed.entry [] }
    {
        let listed: Option<&'c [Change<A>]> = None;
        ChangeWalk { keyed, listed }
    }

    /// Those of a list, if there is one.
    pub(crate) fn of_list(listed: Option<&'c [Change<A>]>) -> ChangeWalk<'c, A>
        ensures { result ≡ left None listed.entry }
    {
        let keyed: Option<Range<'c, Key<A>, Option<Row<A>>>> = None;
        ChangeWalk { keyed, listed }
    }

    /// The next change: its key, and its new row or that it has none.
    pub fn next(&mut self) -> Option<(&'c Key<A>, Option<&'c Row<A>>)>
        ensures first { option_map (λ p. (p.0.now, option_copied p.1)) result ≡ slice_get self.old 0 }
        ensures rest { self.new ≡ drop 1 self.old }
    {
        match &mut self.keyed {
            Some(keyed) => next_keyed(keyed),
            None => match &mut self.listed {
                Some(listed) => next_listed(listed),
                None => None,
            },
        }
    }
}

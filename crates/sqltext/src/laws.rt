//! What holds of all that is parsed, as the contracts of functions that do nothing.

ghost use Rattle.sqltext.specs.Laws.{SameReservedWords, CutsAsSpelled, ReadsWhatIsSpelled, SpellsOneTree, RefusesTheFirstFault, ParsesWhatIsSpelled, RefusesWhatIsNot, ReadsSpelledTables, SpellsOneTable, RefusesTheFirstFaultOfATable, CreatesWhatIsSpelled, CreatesNothingElse};

use std::alloc::Allocator;

/// The reserved words are those that tables and columns may not be called.
pub fn reserved_words_are_no_names()
    ensures { SameReservedWords }
{}

/// A text is cut into the tokens whose spellings, the longest that fit, make it up with blanks between, and into no others.
pub fn texts_are_cut_as_spelled()
    ensures { CutsAsSpelled }
{}

/// The tokens of a statement are read as its tree, and no others are.
pub fn what_is_spelled_is_read<A: Allocator>()
    ensures read { ReadsWhatIsSpelled A }
    ensures one { SpellsOneTree A }
{}

/// A syntax error is at the first token after which no statement can follow.
pub fn the_first_fault_is_refused<A: Allocator>()
    ensures { RefusesTheFirstFault A }
{}

/// A text whose tokens spell a statement is parsed as that statement, and any other is refused at its first fault.
pub fn texts_are_parsed_as_spelled<A: Allocator>()
    ensures parses { ParsesWhatIsSpelled A }
    ensures refuses { RefusesWhatIsNot A }
{}

/// The tokens of a CREATE TABLE are read as its table, and no others are.
pub fn spelled_tables_are_read()
    ensures read { ReadsSpelledTables }
    ensures one { SpellsOneTable }
{}

/// A syntax error in a CREATE TABLE is at the first token after which none can follow.
pub fn the_first_fault_of_a_table_is_refused()
    ensures { RefusesTheFirstFaultOfATable }
{}

/// A text whose tokens spell a CREATE TABLE says its table, and any other is refused.
pub fn tables_are_created_as_spelled()
    ensures creates { CreatesWhatIsSpelled }
    ensures refuses { CreatesNothingElse }
{}

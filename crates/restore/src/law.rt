//! What a dump reads as, of all dumps.

ghost use Rattle.std.specs.Prelude.{◌≡◌, ℕ, List, Ok, Err, true};
ghost use Rattle.schema.specs.Definition.{Catalog};
ghost use Rattle.schema.specs.declared.tables.Tables.{Tables};
ghost use Rattle.schema.specs.Plain.{is_sound};
ghost use Rattle.schema.specs.WellFormed.{is_catalog};
ghost use Rattle.dumpplan.specs.Lines.{dump_text, dump_text1};
ghost use Rattle.restore.specs.Faults.{IsFirstFault, AreFaultless};
ghost use Rattle.restore.specs.Reading.{lines_of, ended_lines, said_by, read_dump};
ghost use Rattle.restore.specs.declared.error.RestoreFault.{RestoreFault};

use std::alloc::Allocator;

/// A dump of a catalog and its sound tables, in either version, reads as that catalog and these tables.
pub fn reads_what_is_dumped<A: Allocator>()
    ensures counted { (c : Catalog) (X : Tables A) → is_catalog c ≡ true → is_sound c X ≡ true →
        read_dump (dump_text c X) ≡ Ok (c, X) }
    ensures uncounted { (c : Catalog) (X : Tables A) → is_catalog c ≡ true → is_sound c X ≡ true →
        read_dump (dump_text1 c X) ≡ Ok (c, X) }
{}

/// The lines of a dump alone say what it reads as: the first line that has a fault, by itself and the lines before it,
/// with its code; and where no line has one, the catalog of its CREATE TABLE lines and the rows of its rows' lines.
pub fn reads_by_its_lines<A: Allocator>()
    ensures faulty { (dump : List ℕ) (f : RestoreFault) → IsFirstFault A (lines_of dump) f →
        read_dump {A = A} dump ≡ Err f }
    ensures only_faulty { (dump : List ℕ) (f : RestoreFault) → read_dump {A = A} dump ≡ Err f →
        IsFirstFault A (lines_of dump) f }
    ensures whole { (dump : List ℕ) → AreFaultless A (lines_of dump) →
        read_dump {A = A} dump ≡ Ok (said_by (ended_lines dump)) }
    ensures only_whole { (dump : List ℕ) (c : Catalog) (X : Tables A) → read_dump dump ≡ Ok (c, X) →
        AreFaultless A (lines_of dump) }
{}

//! Laws of the definitions. Each function does nothing; what it ensures is the law.

ghost use Rattle.std.specs.Prelude.{◌≡◌, ℕ, IsTrue, List};
ghost use Rattle.std.specs.List.{list_all};
ghost use Rattle.value.specs.declared.value.Value.{Value as AnyValue};
ghost use Rattle.schema.specs.Definition.{Catalog as AnyCatalog};
ghost use Rattle.schema.specs.Plain.{is_sound, row_at};
ghost use Rattle.schema.specs.declared.tables.Tables.{Tables as AnyTables};
ghost use Rattle.statement.specs.Agreement.{reads_key, reads_value};
ghost use Rattle.statement.specs.Cover.{covers, covers_value};
ghost use Rattle.statement.specs.Evaluation.{after, outcome};
ghost use Rattle.statement.specs.Fits.{Fits};
ghost use Rattle.statement.specs.Footprint.{footprint};
ghost use Rattle.statement.specs.Laws.{AgreeFor, HasSameReadings, is_keyed, names_reference, writes_key};
ghost use Rattle.statement.specs.Marks.{marks_reference};
ghost use Rattle.statement.specs.declared.reading.Reading.{Reading as AnyReading};
ghost use Rattle.statement.specs.declared.statement.Statement.{Statement as AnyStatement};

use std::alloc::Allocator;

/// The footprint suffices: on tables that agree where a statement reads, sound or not, it gets the same
/// reply, writes the same keys and marks the same references; and the written keys then have the
/// same rows, or none.
pub fn footprint_suffices<A: Allocator>()
    ensures outcome { (c : AnyCatalog) → (q : AnyStatement A) → (X Y : AnyTables A) → AgreeFor c q X Y →
        outcome c q X ≡ outcome c q Y }
    ensures rows { (c : AnyCatalog) → (q : AnyStatement A) → (X Y : AnyTables A) → AgreeFor c q X Y → (t : ℕ) →
        (k : AnyValue A) → IsTrue (writes_key (outcome c q X).changes t k) →
        row_at (after c q X) t k ≡ row_at (after c q Y) t k }
{}

/// A statement that fits keeps tables sound.
pub fn soundness_is_kept<A: Allocator>()
    ensures { (c : AnyCatalog) → (q : AnyStatement A) → (X : AnyTables A) → Fits c q → IsTrue (is_sound c X) →
        IsTrue (is_sound c (after c q X)) }
{}

/// Each key that a statement writes is in its footprint.
pub fn writes_are_read<A: Allocator>()
    ensures { (c : AnyCatalog) → (q : AnyStatement A) → (X : AnyTables A) → Fits c q → IsTrue (list_all is_keyed X) →
        (t : ℕ) → (k : AnyValue A) → IsTrue (writes_key (outcome c q X).changes t k) →
        IsTrue (reads_key (footprint c q) t k) }
{}

/// A row that a statement writes is marked for each reference that it had before and for each that
/// it has after.
pub fn writes_are_marked<A: Allocator>()
    ensures before { (c : AnyCatalog) → (q : AnyStatement A) → (X : AnyTables A) → (t j : ℕ) → (k p : AnyValue A) →
        IsTrue (writes_key (outcome c q X).changes t p) → IsTrue (names_reference c X t j k p) →
        IsTrue (marks_reference (outcome c q X).marks t j k) }
    ensures after { (c : AnyCatalog) → (q : AnyStatement A) → (X : AnyTables A) → (t j : ℕ) → (k p : AnyValue A) →
        IsTrue (writes_key (outcome c q X).changes t p) → IsTrue (names_reference c (after c q X) t j k p) →
        IsTrue (marks_reference (outcome c q X).marks t j k) }
{}

/// What was read is covered: each key, and each reference.
pub fn reads_are_covered<A: Allocator>()
    ensures keys { (rs : List (AnyReading A)) → (t : ℕ) → (k : AnyValue A) → IsTrue (reads_key rs t k) →
        IsTrue (covers rs t k) }
    ensures references { (rs : List (AnyReading A)) → (t j : ℕ) → (k : AnyValue A) → IsTrue (reads_value rs t j k) →
        IsTrue (covers_value rs t j k) }
{}

/// The cover is of the set of what was read: neither order nor repetition of reads changes it.
pub fn cover_is_of_the_set<A: Allocator>()
    ensures keys { (rs qs : List (AnyReading A)) → HasSameReadings rs qs → (t : ℕ) → (k : AnyValue A) →
        covers rs t k ≡ covers qs t k }
    ensures references { (rs qs : List (AnyReading A)) → HasSameReadings rs qs → (t j : ℕ) → (k : AnyValue A) →
        covers_value rs t j k ≡ covers_value qs t j k }
{}

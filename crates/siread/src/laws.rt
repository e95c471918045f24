//! Laws of what is kept of reads. Each function does nothing; what it ensures is the law.

ghost use Rattle.std.specs.Prelude.{◌≡◌, ℕ, List, ◌++◌};
ghost use Rattle.value.specs.declared.value.Value.{Value as AnyValue};
ghost use Rattle.statement.specs.Cover.{covers, covers_value};
ghost use Rattle.statement.specs.declared.reading.Reading.{Reading as AnyReading};
ghost use Rattle.siread.specs.Reads.{CoverAlike};

use std::alloc::Allocator;

/// Readings that cover alike cover the same keys and the same references, now and with any more readings after both. A
/// caller who knows that what locks keep for a transaction covers alike with all that it has read knows that again
/// after each read, and the cover of the locks is the cover of all that it has read.
pub fn reads_cover_alike<A: Allocator>()
    ensures keys { (rs qs : List (AnyReading A)) → CoverAlike rs qs → (t : ℕ) → (k : AnyValue A) →
        covers rs t k ≡ covers qs t k }
    ensures references { (rs qs : List (AnyReading A)) → CoverAlike rs qs → (t j : ℕ) → (k : AnyValue A) →
        covers_value rs t j k ≡ covers_value qs t j k }
    ensures more { (rs qs xs : List (AnyReading A)) → CoverAlike rs qs → CoverAlike (rs ++ xs) (qs ++ xs) }
    ensures chain { (rs qs ps : List (AnyReading A)) → CoverAlike rs qs → CoverAlike qs ps → CoverAlike rs ps }
    ensures itself { (rs : List (AnyReading A)) → CoverAlike rs rs }
{}

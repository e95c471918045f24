//! Whatever a dump reads as is sound.

ghost use Rattle.std.specs.Prelude.{◌≡◌, ℕ, List, true, Ok};
ghost use Rattle.schema.specs.Definition.{Catalog};
ghost use Rattle.schema.specs.Plain.{is_sound};
ghost use Rattle.schema.specs.declared.tables.Tables.{Tables};
ghost use Rattle.restore.specs.Reading.{read_dump};

use std::alloc::Allocator;

/// What a dump reads as is sound.
pub fn reads_sound_tables<A: Allocator>()
    ensures { (dump : List ℕ) (c : Catalog) (X : Tables A) → read_dump dump ≡ Ok (c, X) → is_sound c X ≡ true }
{}

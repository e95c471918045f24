//! Laws of the definitions. Each function does nothing; what it ensures is the law.

ghost use Rattle.std.specs.Prelude.{◌≡◌, ℕ, ◌-◌, ◌≤◌, true, false, length, List, Option, Some};
ghost use Rattle.value.specs.declared.value.Value.{Value as AnyValue};
ghost use Rattle.schema.specs.Definition.{columns_of, Catalog as AnyCatalog};
ghost use Rattle.schema.specs.Plain.{is_sound, row_at};
ghost use Rattle.schema.specs.declared.tables.Tables.{Tables as AnyTables};
ghost use Rattle.statement.specs.declared.reply.Reply.{Reply as AnyReply};
ghost use Rattle.statement.specs.declared.statement.Statement.{Statement as AnyStatement};
ghost use Rattle.orders.specs.Explains.{alone, are_fit};
ghost use Rattle.orders.specs.declared.ways.way.Way.{Way as AnyWay};
ghost use Rattle.orders.specs.Counts.{OneCounts, are_apart, chosen_in, has_key, number_at};
ghost use Rattle.orders.specs.Symbolic.{first_ways, is_looked_at, ways_of};
ghost use Rattle.orders.specs.Ways.{Comes, Holds, OneHolds, allows, cell, effect};

use std::alloc::Allocator;

/// What a way says of the row of a key it says of each column: the way allows the state that the column has before, and
/// the column has afterwards what the way's effect says.
pub fn ways_are_of_columns<A: Allocator>()
    ensures before { (k : AnyValue A) → (w : AnyWay A) → (before now : Option (List (AnyValue A))) → Holds k w before now → (n : ℕ) →
        allows w n (cell k before n) ≡ true }
    ensures after { (k : AnyValue A) → (w : AnyWay A) → (before now : Option (List (AnyValue A))) → Holds k w before now → (n : ℕ) →
        Comes (effect k w n) (cell k before) n (cell k now n) }
{}

/// The ways of a transaction cover what it may do: in each run alone, from sound tables, that gets answers that agree with
/// those recorded, one of the ways is what happened to the row of the key.
pub fn ways_cover<A: Allocator>()
    ensures { (c : AnyCatalog) → (t : ℕ) → (k : AnyValue A) → (qs : List (AnyStatement A × AnyReply A)) →
        (X Y : AnyTables A) → is_sound c X ≡ true → are_fit c qs ≡ true → alone c qs X ≡ Some Y →
        OneHolds k (ways_of c t k qs) (row_at X t k) (row_at Y t k) }
{}

/// Where no statement of a transaction looks at the row of a key, it stays as it was, and the ways are that there is none
/// and that there is one, of which nothing is asked.
pub fn others_keep_rows<A: Allocator>()
    ensures ways { (c : AnyCatalog) → (t : ℕ) → (k : AnyValue A) → (qs : List (AnyStatement A × AnyReply A)) →
        is_looked_at t k qs ≡ false → ways_of c t k qs ≡ first_ways (length (columns_of c t) - 1) }
    ensures row { (c : AnyCatalog) → (t : ℕ) → (k : AnyValue A) → (qs : List (AnyStatement A × AnyReply A)) →
        (X Y : AnyTables A) → is_looked_at t k qs ≡ false → alone c qs X ≡ Some Y →
        row_at Y t k ≡ row_at X t k }
{}

/// The ways count right: one of them is what happened to the row of the key, and of the statements that chose the row it
/// counts, or may count, each whose answer tells only of all rows together.
pub fn ways_count<A: Allocator>()
    ensures { (c : AnyCatalog) → (t : ℕ) → (k : AnyValue A) → (qs : List (AnyStatement A × AnyReply A)) →
        (X Y : AnyTables A) → is_sound c X ≡ true → are_fit c qs ≡ true → alone c qs X ≡ Some Y →
        OneCounts c t k qs X Y (ways_of c t k qs) }
{}

/// As many rows of a table were chosen by a statement as its answer tells: keys that are apart and whose rows were chosen
/// are no more, and where all such keys stand in a list, it has no fewer.
pub fn answers_tell_numbers<A: Allocator>()
    ensures least { (c : AnyCatalog) → (t : ℕ) → (qs : List (AnyStatement A × AnyReply A)) → (X Y : AnyTables A) →
        (j n : ℕ) → (ks : List (AnyValue A)) → alone c qs X ≡ Some Y → number_at t qs j ≡ Some n → are_apart ks ≡ true →
        ((k : AnyValue A) → has_key k ks ≡ true → chosen_in c t k qs X j ≡ true) → length ks ≤ n }
    ensures most { (c : AnyCatalog) → (t : ℕ) → (qs : List (AnyStatement A × AnyReply A)) → (X Y : AnyTables A) →
        (j n : ℕ) → (ks : List (AnyValue A)) → is_sound c X ≡ true → are_fit c qs ≡ true → alone c qs X ≡ Some Y →
        number_at t qs j ≡ Some n →
        ((k : AnyValue A) → chosen_in c t k qs X j ≡ true → has_key k ks ≡ true) → n ≤ length ks }
{}

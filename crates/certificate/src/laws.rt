//! Laws of the definitions. Each function does nothing; what it ensures is the law.

ghost use Rattle.std.specs.Prelude.{◌≡◌, ◌⊎◌, ◌++◌, [], ◌∷◌, ℕ, true, Option, Some, None, List, slice_get};
ghost use Rattle.schema.specs.Definition.{Catalog as AnyCatalog};
ghost use Rattle.schema.specs.declared.tables.Tables.{Tables as AnyTables};
ghost use Rattle.schema.specs.Plain.{is_sound};
ghost use Rattle.value.specs.declared.value.Value.{Value as AnyValue};
ghost use Rattle.orders.specs.Explains.{Trace, Explains, all_fit};
ghost use Rattle.certificate.specs.Additions as addition;
ghost use Rattle.certificate.specs.Board.{Board};
ghost use Rattle.certificate.specs.declared.certificate.Assumption.{Assumption};
ghost use Rattle.certificate.specs.Frames.{Frame, IsAssumed, Sound, contrary, is_fair, supposed};
ghost use Rattle.certificate.specs.Knowledge.{Cell, Known};
ghost use Rattle.certificate.specs.Order.{Exact, IsBefore, IsExcluded, IsFound, IsThere, Play, Turn, Valid};
ghost use Rattle.certificate.specs.Recorded.{board_of, numbers};
ghost use Rattle.certificate.specs.Rules as rule;
ghost use Rattle.certificate.specs.Sums as sum;
ghost use Rattle.certificate.specs.declared.known.Spot.{Spot as AnySpot};

use std::alloc::Allocator;

/// An order that explains a recording makes of each key a play: each transaction does one of its ways there, and begins
/// where the one before it ended.
pub fn explained_is_played<A: Allocator>()
    ensures { (c : AnyCatalog) → (X : AnyTables A) → (ts : List (Trace A)) → (order : List ℕ) → all_fit c ts ≡ true →
        is_sound c X ≡ true → Explains c X ts order →
        (turns : AnySpot A → ℕ → Turn (Option (AnyValue A))) × Play (board_of c X ts) order turns }
{}

/// On the board of a recording what is called the same is the same.
pub fn boards_are_exact<A: Allocator>()
    ensures { (c : AnyCatalog) → (X : AnyTables A) → (ts : List (Trace A)) → Exact (board_of c X ts) }
{}

/// What a rule tells of a play holds of it, where what is known does.
pub fn rules_hold<W, S, P>()
    ensures joined { (b : Board W S P) → Exact b → (order : List ℕ) → (turns : P → ℕ → Turn S) → Play b order turns →
        (k : Known S P) → Valid b order turns k → (x y z : ℕ) → rule.is_joined b k x y z ≡ true → IsBefore b order turns x z }
    ensures source { (b : Board W S P) → Exact b → (order : List ℕ) → (turns : P → ℕ → Turn S) → Play b order turns →
        (k : Known S P) → Valid b order turns k → (x y : ℕ) → (c : Cell P) → rule.is_source b k x y c ≡ true →
        IsThere b order turns x × IsBefore b order turns x y }
    ensures later { (b : Board W S P) → Exact b → (order : List ℕ) → (turns : P → ℕ → Turn S) → Play b order turns →
        (k : Known S P) → Valid b order turns k → (y x : ℕ) → (c : Cell P) → rule.is_later b k y x c ≡ true →
        IsBefore b order turns y x }
    ensures earlier { (b : Board W S P) → Exact b → (order : List ℕ) → (turns : P → ℕ → Turn S) → Play b order turns →
        (k : Known S P) → Valid b order turns k → (x z y : ℕ) → (c : Cell P) → rule.is_earlier b k x z y c ≡ true →
        IsBefore b order turns x z }
    ensures common { (b : Board W S P) → Exact b → (order : List ℕ) → (turns : P → ℕ → Turn S) → Play b order turns →
        (k : Known S P) → Valid b order turns k → (x y : ℕ) → (c : Cell P) → rule.is_common b k x y c ≡ true →
        IsBefore b order turns x y }
    ensures needless { (b : Board W S P) → Exact b → (order : List ℕ) → (turns : P → ℕ → Turn S) → Play b order turns →
        (k : Known S P) → Valid b order turns k → (w : W) → (n : ℕ) → (s : P) → (column y : ℕ) →
        slice_get (b.ways y s) n ≡ Some w → rule.is_needless b k w (record { spot = s; column = column }) y ≡ true →
        IsExcluded b order turns (record { place = y; spot = s; way = n }) }
    ensures found { (b : Board W S P) → Exact b → (order : List ℕ) → (turns : P → ℕ → Turn S) → Play b order turns →
        (k : Known S P) → Valid b order turns k → (v : S) → (c : Cell P) → (y : ℕ) → rule.is_found b k v c y ≡ true →
        IsFound b order turns (record { place = y; cell = c; state = v }) }
{}

/// No play has what a contradiction tells, where what is known holds of it.
pub fn contradictions_refute<W, S, P>()
    ensures cycle { (b : Board W S P) → Exact b → (order : List ℕ) → (turns : P → ℕ → Turn S) → Play b order turns →
        (k : Known S P) → Valid b order turns k → (x y : ℕ) → rule.is_cycle b k x y ≡ true → ⊥ }
    ensures sourceless { (b : Board W S P) → Exact b → (order : List ℕ) → (turns : P → ℕ → Turn S) → Play b order turns →
        (k : Known S P) → Valid b order turns k → (c : Cell P) → (y : ℕ) → rule.is_sourceless b k c y ≡ true → ⊥ }
    ensures wayless { (b : Board W S P) → Exact b → (order : List ℕ) → (turns : P → ℕ → Turn S) → Play b order turns →
        (k : Known S P) → Valid b order turns k → (y : ℕ) → (s : P) → rule.is_wayless b k y s ≡ true → ⊥ }
{}

/// No play has a statement that surely chose more rows of a table than its answer tells, or can't have chosen so many; nor
/// does a transaction go a way by which one of its statements would have.
pub fn numbers_hold<W, S, P>()
    ensures overfull { (b : Board W S P) → Exact b → (order : List ℕ) → (turns : P → ℕ → Turn S) → Play b order turns →
        (k : Known S P) → Valid b order turns k → (y j n : ℕ) → (s : P) → (ss : List P) →
        sum.is_overfull b k y j n s ss ≡ true → ⊥ }
    ensures lacking { (b : Board W S P) → Exact b → (order : List ℕ) → (turns : P → ℕ → Turn S) → Play b order turns →
        (k : Known S P) → Valid b order turns k → (y j n : ℕ) → (s : P) → (ss : List P) →
        sum.is_lacking b k y j n s ss ≡ true → ⊥ }
    ensures more { (b : Board W S P) → Exact b → (order : List ℕ) → (turns : P → ℕ → Turn S) → Play b order turns →
        (k : Known S P) → Valid b order turns k → (w : W) → (m y j n : ℕ) → (s : P) → (ss : List P) →
        slice_get (b.ways y s) m ≡ Some w → sum.would_overfill b k w y j n s ss ≡ true →
        IsExcluded b order turns (record { place = y; spot = s; way = m }) }
    ensures fewer { (b : Board W S P) → Exact b → (order : List ℕ) → (turns : P → ℕ → Turn S) → Play b order turns →
        (k : Known S P) → Valid b order turns k → (w : W) → (m y j n : ℕ) → (s : P) → (ss : List P) →
        slice_get (b.ways y s) m ≡ Some w → sum.would_lack b k w y j n s ss ≡ true →
        IsExcluded b order turns (record { place = y; spot = s; way = m }) }
{}

/// No play has a reader that found a number above the most, or below the least, that the numbers between it and a base come
/// to: a base is the opening, or a transaction that leaves a known number, and all who may stand between the two only add.
pub fn additions_hold<W, S, P>()
    ensures { (b : Board W S P) → Exact b → (reads : addition.Numbers W S) → addition.AreCounted b reads →
        (order : List ℕ) → (turns : P → ℕ → Turn S) → Play b order turns → (k : Known S P) → Valid b order turns k →
        (c : Cell P) → (y : ℕ) → addition.is_beyond b reads k c y ≡ true → ⊥ }
{}

/// On the board of a recording bigints are the numbers, and a way wants the one to which a condition holds a column.
pub fn bigints_are_counted<A: Allocator>()
    ensures { (c : AnyCatalog) → (X : AnyTables A) → (ts : List (Trace A)) → addition.AreCounted (board_of c X ts) numbers }
{}

/// What is known under suppositions stays so: by a rule, by one more supposition, and where one has come to a
/// contradiction and its contrary is known.
pub fn suppositions_are_sound<W, S, P>()
    ensures more { (b : Board W S P) → (order : List ℕ) → (turns : P → ℕ → Turn S) → Play b order turns →
        (fs : List (Frame S P)) → (f : Frame S P) → (a : Assumption) → Sound b order turns (fs ++ f ∷ []) →
        Sound b order turns ((fs ++ f ∷ []) ++ record { known = supposed f.known a; assumed = Some a } ∷ []) }
    ensures told { (b : Board W S P) → (order : List ℕ) → (turns : P → ℕ → Turn S) → Play b order turns →
        (fs : List (Frame S P)) → (f : Frame S P) → (k : Known S P) →
        (Valid b order turns f.known → Valid b order turns k) → Sound b order turns (fs ++ f ∷ []) →
        Sound b order turns (fs ++ record f { known = k } ∷ []) }
    ensures closed { (b : Board W S P) → (order : List ℕ) → (turns : P → ℕ → Turn S) → Play b order turns →
        (fs : List (Frame S P)) → (f g : Frame S P) → (a : Assumption) → g.assumed ≡ Some a → is_fair a ≡ true →
        (Valid b order turns g.known → ⊥) → Sound b order turns ((fs ++ f ∷ []) ++ g ∷ []) →
        Sound b order turns (fs ++ record f { known = contrary f.known a } ∷ []) }
    ensures first { (b : Board W S P) → (order : List ℕ) → (turns : P → ℕ → Turn S) → Play b order turns →
        (f : Frame S P) → f.assumed ≡ None → (Valid b order turns f.known → ⊥) → Sound b order turns (f ∷ []) → ⊥ }
{}

//! Laws of what is forgotten. Each function does nothing; what it ensures is the law.

ghost use Rattle.std.specs.Prelude.{◌≡◌, ◌&&◌, ℕ, ◌≤◌, nat_le, Bool, List, false, map};
ghost use Rattle.std.specs.List.{filter, list_any};
ghost use Rattle.value.specs.Isolation.{Node, dooms, first_cause, first_part, is_dangerous};
ghost use Rattle.conflict.specs.Later.{Alike, AnswersAlike, CanTell, IsFrom, IsOldest, Told, told};
ghost use Rattle.conflict.specs.Tracked.{Each, IsProper, Party, Tracked, after_forget, edge, least_out, node, reads};
ghost use Rattle.conflict.specs.World.{AreIdle, AreSpared, first_commit_out, least_of, shows};

/// What is left by forgetting answers alike with all that was reported, whatever is reported later of snapshots from
/// there on. Two that answer alike still do so once the same is reported to both, and from a later snapshot on. So a
/// caller who knows that a tracker answers alike with all that was ever reported knows it again after each call.
pub fn forgetting_changes_no_answer()
    ensures forget { (o : ℕ) (s : Tracked) → IsProper s → IsOldest o s → Alike o (after_forget o s) s }
    ensures told { (o : ℕ) (s r : Tracked) (x : Told) → Alike o s r → IsFrom o x → CanTell x r →
        Alike o (told x s) (told x r) }
    ensures later { (o p : ℕ) (s r : Tracked) → o ≤ p → Alike o s r → Alike p s r }
    ensures chain { (o : ℕ) (s r q : Tracked) → Alike o s r → Alike o r q → Alike o s q }
    ensures itself { (o : ℕ) (s : Tracked) → Alike o s s }
    ensures answers { (o : ℕ) (s r : Tracked) → Alike o s r → AnswersAlike o s r }
{}

/// What is reported keeps transactions in their order, and free of dangerous structures.
pub fn what_is_told_is_proper()
    ensures { (s : Tracked) (x : Told) → IsProper s → CanTell x s → IsProper (told x s) }
{}

/// Where isolation knows the same of transactions of any kind and of those that are tracked, except for the places of
/// their ends, and the same three of them are dangerous structures, the same structure is named of both. So what a
/// tracker answers is what a history's transactions say.
pub fn structures_are_those_of_the_tracked<T>()
    ensures { (n : T → Node) (e : T → T → Bool) (f : T → Party) (ts : List T) →
        ((t : T) → record (n t) { place = 0 } ≡ node (f t)) →
        Each (λ a. Each (λ b. Each (λ c. is_dangerous n e a b c ≡ is_dangerous node edge (f a) (f b) (f c)) ts) ts) ts
        → first_cause n e ts ≡ first_cause node edge (map f ts) }
{}

/// Where isolation knows the same of transactions of any kind and of those that are tracked, and the
/// same of them have read what others wrote, a commit dooms the same by the same causes.
pub fn dooms_are_those_of_the_tracked<T>()
    ensures { (n : T → Node) (r : T → T → Bool) (f : T → Party) (ts : List T) (c : T) →
        ((t : T) → record (n t) { place = 0 } ≡ node (f t)) →
        Each (λ a. Each (λ b. r a b ≡ reads (f a) (f b)) ts) ts →
        Each (λ a. r a c ≡ reads (f a) (f c)) ts →
        dooms n r ts c ≡ dooms node reads (map f ts) (f c) }
{}

/// The first commit to which a transaction has a conflict out is the one that the tracker answers for it. From it alone
/// come the serial key of a commit, and whether it spoils a snapshot.
pub fn first_outs_are_those_of_the_tracked<T>()
    ensures tracked { (n : T → Node) (e : T → T → Bool) (f : T → Party) (ts : List T) (t : T) →
        ((u : T) → record (n u) { place = 0 } ≡ node (f u)) →
        Each (λ u. e t u ≡ edge (f t) (f u)) ts →
        first_commit_out n e ts t ≡ least_out (map f ts) (f t) }
    ensures key { (n : T → Node) (e : T → T → Bool) (ts : List T) (t : T) →
        first_part n e t ts ≡ least_of (n t).commit (first_commit_out n e ts t) }
    ensures spoils { (n : T → Node) (e : T → T → Bool) (ts : List T) (t : T) (s : ℕ) →
        list_any (λ u. e t u && nat_le (n u).commit s) ts ≡ shows s (first_commit_out n e ts t) }
{}

/// What may be left out of the transactions that are tracked. Those that are aborted, and readers of
/// safe snapshots, leave the structure as it is that is named; those that are over or only read leave
/// dooms as they are; and a transaction's first conflict out rests on those alone to which it has one.
pub fn what_is_left_out_changes_no_answer<T>()
    ensures structures { (n : T → Node) (e : T → T → Bool) (keep : T → Bool) (ts : List T) → AreIdle n e keep ts →
        first_cause n e (filter keep ts) ≡ first_cause n e ts }
    ensures dooms { (n : T → Node) (r : T → T → Bool) (keep : T → Bool) (ts : List T) (c : T) →
        AreSpared n r keep c ts → dooms n r (filter keep ts) c ≡ dooms n r ts c }
    ensures first_out { (n : T → Node) (e : T → T → Bool) (keep : T → Bool) (ts : List T) (t : T) →
        Each (λ u. keep u ≡ false → e t u ≡ false) ts →
        first_commit_out n e (filter keep ts) t ≡ first_commit_out n e ts t }
{}

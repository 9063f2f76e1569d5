//! Laws of windows, for those who write them into pieces of the output or into the whole. Their
//! functions do nothing: the contract is the law.
ghost use Rattle.std.specs.Prelude.{◌≡◌, ◌≤◌, ◌+◌, ◌++◌, ℕ, List, length, map, slice_index, slice_range, All};
ghost use Rattle.reloc_apply.specs.Windows.{over, filled, spelled};
ghost use Rattle.reloc_apply.specs.Apart.{AreApart, LiesIn, IsOutside, moved, size_of};
ghost use Rattle.reloc_apply.specs.declared.window.Form.{Form as Spelling};
ghost use Rattle.reloc_apply.specs.declared.window.Patch.{Patch as Written};

/// The spelling of a value has the bytes of its window.
#[tactic(auto, using(crate::proofs::Over::spelled_size))]
pub fn window_size()
    ensures { (form : Spelling) (value : ℕ) → length (spelled form value) ≡ size_of form }
{}

/// What is written within the middle one of three pieces is written there, at the moved place, in
/// the whole.
#[tactic(auto, using(crate::proofs::Over::over_within))]
pub fn window_within()
    ensures { (front bytes rest new : List ℕ) (at : ℕ) → at + length new ≤ length bytes
        → over (length front + at) new (front ++ bytes ++ rest) ≡ front ++ over at new bytes ++ rest }
{}

/// Windows that lie in the middle one of three pieces are filled there, at their moved places, in
/// the whole.
#[tactic(auto, using(crate::proofs::Over::within_all))]
pub fn windows_within()
    ensures { (front bytes rest : List ℕ) (ps : List Written) → All (LiesIn (length bytes)) ps
        → filled (map (moved (length front)) ps) (front ++ bytes ++ rest) ≡ front ++ filled ps bytes ++ rest }
{}

/// The windows of two pieces that stand side by side are filled piece by piece.
#[tactic(auto, using(crate::proofs::Over::both_all))]
pub fn parts_filled()
    ensures { (ps qs : List Written) (xs ys : List ℕ) → All (LiesIn (length xs)) ps
        → filled (ps ++ map (moved (length xs)) qs) (xs ++ ys) ≡ filled ps xs ++ filled qs ys }
{}

/// Windows that lie in the bytes don't change how many there are.
#[tactic(auto, using(crate::proofs::Over::long_all))]
pub fn filled_length()
    ensures { (ps : List Written) (bytes : List ℕ) → All (LiesIn (length bytes)) ps
        → length (filled ps bytes) ≡ length bytes }
{}

/// Windows are written one after another.
#[tactic(auto, using(crate::proofs::Over::filled_append))]
pub fn filled_in_turn()
    ensures { (ps qs : List Written) (bytes : List ℕ) → filled (ps ++ qs) bytes ≡ filled qs (filled ps bytes) }
{}

/// Windows of an output that lie apart: each lies in it, they do so when they are moved together,
/// and the windows of two pieces that stand side by side do.
#[tactic(auto, using(crate::proofs::Apart::lie_in_all, crate::proofs::Apart::apart_moved, crate::proofs::Apart::apart_append))]
pub fn windows_apart()
    ensures inside { (at end : ℕ) (ps : List Written) → AreApart at end ps → All (LiesIn end) ps }
    ensures together { (n at end : ℕ) (ps : List Written) → AreApart at end ps
        → AreApart (n + at) (n + end) (map (moved n) ps) }
    ensures beside { (at middle end : ℕ) (ps qs : List Written) → AreApart at middle ps → AreApart middle end qs
        → AreApart at end (ps ++ qs) }
{}

/// Where windows lie apart, each of them holds its spelling when all are filled. A byte that is in
/// none of them is as before.
#[tactic(auto, using(crate::proofs::Held::held_all, crate::proofs::Held::others_all))]
pub fn windows_alone_change()
    ensures held { (ps : List Written) (bytes : List ℕ) → AreApart 0 (length bytes) ps
        → All (λ p. slice_range (filled ps bytes) p.place (p.place + size_of p.form) ≡ spelled p.form p.value) ps }
    ensures others { (i : ℕ) (ps : List Written) (bytes : List ℕ) → All (LiesIn (length bytes)) ps → All (IsOutside i) ps
        → slice_index (filled ps bytes) i ≡ slice_index bytes i }
{}

//! What holds of every library, as calls that do nothing: their contracts are the laws.
ghost use Rattle.std.specs.Prelude.{◌≡◌, ◌<◌, ◌≤◌, ◌+◌, ℕ, List, length, Some, IfSome, MatchOption, All, AllPairs, Contains};
ghost use Rattle.wl_base.specs.declared.span.Span.{Span as Where};
ghost use Rattle.lib_index.specs.Library.{Contents, IsLibrary, least_of, leasts, offer_of};

/// Bytes are one library at most.
pub fn library_is_unambiguous()
    ensures { (library other : Contents) (bytes : List ℕ) → IsLibrary library bytes → IsLibrary other bytes → library ≡ other }
{}

/// The members lie in the file, behind one another, and what is offered for a name is one of them.
pub fn members_lie_in_order()
    ensures within { (library : Contents) (bytes : List ℕ) → IsLibrary library bytes
        → All (λ m. m.start + m.len ≤ length bytes) library.members }
    ensures apart { (library : Contents) (bytes : List ℕ) → IsLibrary library bytes
        → AllPairs (λ m n. m.start + m.len < n.start) library.members }
    ensures offered { (library : Contents) (bytes : List ℕ) → IsLibrary library bytes
        → (name : List ℕ) → IfSome (offer_of library name) (λ k. k < length library.members) }
{}

/// What is offered for a name is the least member that the entries give for it, and nothing exactly
/// where they don't give it.
pub fn the_least_is_offered()
    ensures value { (members : List Where) (entries : List (List ℕ × ℕ)) (name : List ℕ)
        → offer_of (record { members = members; offered = leasts entries }) name ≡ least_of entries name }
    ensures given { (entries : List (List ℕ × ℕ)) (name : List ℕ) (k : ℕ)
        → least_of entries name ≡ Some k → Contains entries (name, k) }
    ensures least { (entries : List (List ℕ × ℕ)) (name : List ℕ) (j : ℕ)
        → Contains entries (name, j) → MatchOption (least_of entries name) ⊥ (λ k. k ≤ j) }
{}

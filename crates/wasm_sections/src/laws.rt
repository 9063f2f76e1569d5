//! What holds of every frame, as calls that do nothing: their contracts are the laws.
ghost use Rattle.std.specs.Prelude.{◌≡◌, ◌+◌, ◌<◌, ◌≤◌, List, ℕ, length, Ok, All, AllPairs};
ghost use Rattle.wasm_sections.specs.Sections.{rank_of, AreSections, IsFrame};
ghost use Rattle.wasm_sections.specs.Reading.{sections_at};
ghost use Rattle.wasm_sections.specs.declared.section.SectionSpan.{SectionSpan as Section};

/// What is read is a run of sections, and a run of sections is read.
pub fn sections_are_read()
    ensures found { (last end : ℕ) (bytes : List ℕ) (ss : List Section)
        → sections_at (length bytes) last end bytes ≡ Ok ss → AreSections last end ss bytes }
    ensures only { (last end : ℕ) (bytes : List ℕ) (ss : List Section)
        → AreSections last end ss bytes → sections_at (length bytes) last end bytes ≡ Ok ss }
{}

/// Bytes are a frame of one list of sections at most.
pub fn frame_is_unambiguous()
    ensures { (ss others : List Section) (bytes : List ℕ) → IsFrame ss bytes → IsFrame others bytes → ss ≡ others }
{}

/// In a frame the payloads lie in the file behind its header, one behind the other, and the ids that
/// aren't custom come in their order, each once at most.
pub fn sections_lie_in_order()
    ensures within { (ss : List Section) (bytes : List ℕ) → IsFrame ss bytes
        → All (λ s. (8 < s.payload.start) × (s.payload.start + s.payload.len ≤ length bytes)) ss }
    ensures apart { (ss : List Section) (bytes : List ℕ) → IsFrame ss bytes
        → AllPairs (λ s t. s.payload.start + s.payload.len < t.payload.start) ss }
    ensures known { (ss : List Section) (bytes : List ℕ) → IsFrame ss bytes → All (λ s. s.id ≤ 13) ss }
    ensures rising { (ss : List Section) (bytes : List ℕ) → IsFrame ss bytes
        → AllPairs (λ s t. 0 < rank_of t.id → rank_of s.id < rank_of t.id) ss }
{}

//! What holds of the grammar and of reading, as calls that do nothing: their contracts are the laws.
ghost use Rattle.std.specs.Prelude.{◌≡◌, ◌++◌, List, ℕ};
ghost use Rattle.wasm_grammar.specs.Readers.{IsUnambiguous};
ghost use Rattle.wasm_grammar.specs.Stays.{Stays};
ghost use Rattle.linking_section.specs.Linking.{SpellsSegmentInfo, SpellsInit, SpellsMember, SpellsGroup, SpellsSymbol, SpellsLinking};
ghost use Rattle.linking_section.specs.Reading.{linking_at};
ghost use Rattle.linking_section.specs.declared.linking.Linking.{Linking};

/// No spelling has two items, and none begins another.
pub fn items_are_unambiguous()
    ensures segment { IsUnambiguous SpellsSegmentInfo }
    ensures init { IsUnambiguous SpellsInit }
    ensures member { IsUnambiguous SpellsMember }
    ensures group { IsUnambiguous SpellsGroup }
    ensures symbol { IsUnambiguous SpellsSymbol }
{}

/// No payload says two things.
pub fn linking_is_unambiguous()
    ensures { (payload : List ℕ) (l m : Linking) → SpellsLinking l payload → SpellsLinking m payload → l ≡ m }
{}

/// A foreign item is the answer, whatever follows it, and wherever the payload stands.
pub fn linking_is_steady()
    ensures { (end other : ℕ) (payload more : List ℕ)
        → Stays (linking_at end payload) (linking_at other (payload ++ more)) }
{}

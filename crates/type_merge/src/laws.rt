//! What holds of the types that were added, as calls that do nothing: their contracts are the laws.
ghost use Rattle.std.specs.Prelude.{◌≡◌, ℕ, List, [], Some, fold};
ghost use Rattle.wasm_types.specs.declared.function.FuncType.{FuncType};
ghost use Rattle.wasm_grammar.specs.wl_base.Choice.{distinct_onto};
ghost use Rattle.wasm_types.specs.Same.{same_type};
ghost use Rattle.type_merge.specs.Types.{merged, type_number, with_type};

/// Types that are added one after another to no types are the merged types.
#[tactic(auto, using(crate::proofs::Numbers::in_turn))]
pub fn added_in_turn()
    ensures { (all : List FuncType) → fold with_type [] all ≡ merged all }
{}

/// A type keeps its number, whatever is added behind it.
#[tactic(auto, using(crate::proofs::Numbers::numbers_stay))]
pub fn numbers_stay()
    ensures { (types more : List FuncType) (t : FuncType) (n : ℕ) → type_number types t ≡ Some n
        → type_number (distinct_onto same_type types more) t ≡ Some n }
{}

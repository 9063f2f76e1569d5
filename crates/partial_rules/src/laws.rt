//! What holds of partial links, as calls that do nothing: their contracts are the laws.
ghost use Rattle.std.specs.Prelude.{◌≡◌, ◌≤◌, ◌^◌, ℕ, Bool, IsTrue, List, None, Ok, length};
ghost use Rattle.object_file.specs.ObjectOf.{IsObject};
ghost use Rattle.object_file.specs.Objects.{object_from};
ghost use Rattle.object_rules.specs.Rules.{broken_rule};
ghost use Rattle.made_symbols.specs.declared.mode.Mode.TheVariants.{Plain};
ghost use Rattle.mark_bits.specs.declared.chunk.Chunk.{Chunk};
ghost use Rattle.name_rules.specs.Entries.{InputSymbol};
ghost use Rattle.link_rules.specs.Program.{Program};
ghost use Rattle.link_rules.specs.Marks.{exported};
ghost use Rattle.link_rules.specs.LinkOf.{exporting};
ghost use Rattle.partial_rules.specs.Relocatable.{Relocatable, relocatable_bytes};
ghost use Rattle.partial_rules.specs.WellFormed.{Coded, IsWritable};
ghost use Rattle.partial_rules.specs.Sections.{sections_told};
ghost use Rattle.partial_rules.specs.ReadAs.{parts_told};
ghost use Rattle.partial_rules.specs.Moving.{Moving, IsMoving};
ghost use Rattle.partial_rules.specs.Alike.{AlikePrograms, LiveMeant};

use live_mark::reached_exactly;

/// Two programs that are one but for where their symbols and parts stand give the same output: where the first links to some bytes, the
/// second links to the same.
///
/// It asks for a moving of the one to the other, for these chunks and definitions, that the two are alike under it, and that something is
/// meant by all that live parts of the first refer to.
pub fn alike_programs_give_the_same_output()
    ensures { (m : Moving) (chunks : Chunk → Bool) (definitions : InputSymbol → Bool) (p q : Program) (bytes : List ℕ)
        → IsMoving m (λ c. IsTrue (chunks c)) (λ e. IsTrue (definitions e))
        → AlikePrograms m (λ c. IsTrue (chunks c)) (λ e. IsTrue (definitions e)) p q → LiveMeant p
        → exporting Plain p (exported Plain p) ≡ Ok bytes → exporting Plain q (exported Plain q) ≡ Ok bytes }
{
    reached_exactly();
}

/// The bytes of a relocatable object are an object, and are read as its parts.
///
/// It asks that the object is well formed (`IsWritable`), that there are at most 2^30 bytes, and that the parts break no rule of objects.
pub fn relocatable_bytes_are_an_object()
    ensures { (input : ℕ) (r : Relocatable) (codes : List Coded)
        → IsWritable r codes → length (relocatable_bytes r) ≤ 2 ^ 30 → broken_rule (sections_told r) (relocatable_bytes r) (parts_told r codes) ≡ None
        → IsObject input (relocatable_bytes r) (object_from input (sections_told r) (parts_told r codes)) }
{}

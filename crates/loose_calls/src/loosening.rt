//! What calls name in a link, by whether calls are loose.
ghost use Rattle.std.specs.Prelude.{◌≡◌, ◌++◌, ◌<◌, ◌^◌, false, Bool, IfOk, OnOk, All, bytes_eq, length};
ghost use Rattle.std.specs.List.{list_any};
ghost use Rattle.program_tables.specs.link_program.link_names.Numbered.{AreNumbers};
ghost use Rattle.program_tables.specs.link_program.name_rules.Entries.{entries as all_entries, name_of};
ghost use Rattle.program_tables.specs.link_program.name_rules.Meanings.{resolve};
ghost use Rattle.program_tables.specs.link_program.name_entries.View.{InputsRise};
ghost use Rattle.program_tables.specs.link_program.name_entries.Fits.{IsTable};
ghost use Rattle.program_tables.specs.link_program.name_meanings.Means.{IsResolution};
ghost use Rattle.program_tables.specs.link_program.Program.{variant_names};
ghost use Rattle.program_tables.specs.Loose.{IsLoose, variants_in};
ghost use Rattle.loose_calls.specs.Interned.{Stays};

use crate::finding::calls_in;
use crate::interning::intern_all;
use program_tables::{EntryTable, Loose, Mode, Names, Object, Resolution};
use std::alloc::Global;
use wl_base::OutOfMemory;

/// What calls of the symbols of all objects name. In a link with loose calls a call of a function by another type than its definition
/// has names a variant, whose name goes behind all others.
pub fn loosened(
    alloc: Global,
    names: &mut Names,
    entries: &EntryTable,
    objects: &[Object],
    resolution: &Resolution,
    loose_calls: bool,
    mode: Mode,
) -> Result<Loose, OutOfMemory>
    ghost allow: { Bool }
    requires numbers { AreNumbers mode objects.now names.old }
    requires rise { InputsRise 0 objects.now }
    requires table { IsTable objects.now names.old entries.now }
    requires resolution { IsResolution mode (all_entries mode objects.now) resolution.now (resolve mode allow (all_entries mode objects.now) objects.now) }
    ensures loose { IfOk result (IsLoose mode loose_calls allow names.new.names resolution.now.imports objects.now) }
    ensures names { OnOk result (names.new.names ≡ names.old.names ++ variant_names (variants_in mode loose_calls allow objects.now)) }
    ensures stays { OnOk result (Stays names.old names.new) }
    ensures few { OnOk result (length names.new.names < 2 ^ 32) }
    ensures apart { OnOk result (All (λ v. list_any (bytes_eq (name_of v)) names.old.names ≡ false) (variants_in mode loose_calls allow objects.now)) }
{
    if !loose_calls {
        names.count();
        return Ok(Loose::none(alloc));
    }
    let calls = calls_in(alloc, entries.view(objects, names), resolution, mode)?;
    let named = intern_all(alloc, names, calls.variants.as_slice())?;
    Ok(Loose {
        called: calls.called,
        symbols: named.symbols,
        types: named.types,
    })
}

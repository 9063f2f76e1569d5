//! What of the object rests on its types: the types themselves, imports, and the types of functions.
ghost use Rattle.std.specs.Prelude.{◌≡◌, false, IfOk};
ghost use Rattle.partial_items.specs.link_program.made_symbols.declared.mode.Mode.TheVariants.{Plain};
ghost use Rattle.partial_items.specs.link_program.name_entries.Fits.{FitsObjects};
ghost use Rattle.partial_items.specs.link_program.link_rules.Program.{Program as Rules};
ghost use Rattle.partial_items.specs.link_program.Program.{IsProgramOf};
ghost use Rattle.relink_out.specs.Found.{AreFound};
ghost use Rattle.relink_out.specs.Typed.{AreTyped};

use crate::found::Found;
use partial_items::{
    Entries, Program, TypeNumbers, functions_of, imports_of, type_numbers, types_of,
};
use std::alloc::Global;
use wasm_types::Import;
use wl_base::{OutOfMemory, Seq};

/// What of the object rests on its types.
#[derive(Drop)]
pub struct Typed {
    pub types: TypeNumbers,
    /// By the number of a type among the program's, its number in the object.
    pub numbers: Seq<u32>,
    pub imports: Seq<Import>,
    /// The number of the type of each function.
    pub functions: Seq<u32>,
}

/// What of the object rests on its types, by what was found. `entries` is the view of the program's objects.
pub fn typed_of(
    alloc: Global,
    program: Program<'_>,
    entries: Entries<'_>,
    found: &Found,
) -> Result<Typed, OutOfMemory>
    requires fits { FitsObjects entries }
    requires objects { entries.objects.now ≡ program.objects.now }
    ensures { IfOk result (λ x. (p : Rules) → IsProgramOf Plain program.entry p → p.plan.loose_calls ≡ false
        → AreFound p program.entry.names.now.names found.now → AreTyped program.entry p x) }
{
    let functions = found.kept.functions();
    let opens = found.opens.as_slice();
    let symbols = found.standing.symbols();
    let all = program.tables.types.as_slice();
    let table = types_of(alloc, program, entries, opens, functions)?;
    let mut types = TypeNumbers::new(table);
    let numbers = type_numbers(alloc, &mut types, all)?;
    let own = numbers.as_slice();
    let function_types = functions_of(alloc, program, own, functions)?;
    let imports = imports_of(alloc, &mut types, entries, opens, symbols)?;
    Ok(Typed {
        types,
        numbers,
        imports,
        functions: function_types,
    })
}

//! What of the object has symbols and names: its exports, symbols and init functions.
ghost use Rattle.std.specs.Prelude.{◌≡◌, false, IfOk};
ghost use Rattle.partial_items.specs.link_program.made_symbols.declared.mode.Mode.TheVariants.{Plain};
ghost use Rattle.partial_items.specs.link_program.name_entries.View.{InputsRise};
ghost use Rattle.partial_items.specs.link_program.name_entries.Fits.{FitsObjects};
ghost use Rattle.partial_items.specs.link_program.link_rules.Program.{Program as Rules};
ghost use Rattle.partial_items.specs.link_program.Program.{IsProgramOf};
ghost use Rattle.relink_out.specs.Found.{AreFound};
ghost use Rattle.relink_out.specs.Named.{AreNamed};

use crate::found::Found;
use linking_section::InitFunc;
use partial_items::{Entries, Look, Program, Row, exports_of, inits_of, rows_of};
use std::alloc::Global;
use wasm_module::Export;
use wl_base::{OutOfMemory, Seq};

/// What of the object has symbols and names.
#[derive(Drop)]
pub struct Named {
    pub exports: Seq<Export>,
    pub symbols: Seq<Row>,
    pub inits: Seq<InitFunc>,
}

/// What of the object has symbols and names, by what was found. `entries` is the view of the program's objects.
pub fn named_of(
    alloc: Global,
    program: Program<'_>,
    entries: Entries<'_>,
    found: &Found,
) -> Result<Named, OutOfMemory>
    requires rise { InputsRise 0 program.objects.now }
    requires fits { FitsObjects entries }
    requires objects { entries.objects.now ≡ program.objects.now }
    requires names { entries.names.now ≡ program.names.now }
    ensures { IfOk result (λ x. (p : Rules) → IsProgramOf Plain program.entry p → p.plan.loose_calls ≡ false
        → AreFound p program.entry.names.now.names found.now → AreNamed p x) }
{
    let look = Look {
        sight: &found.sight,
        kept: &found.kept,
        chunks: &program.tables.chunks,
        functions: found.functions,
        globals: found.globals,
    };
    let standing = found.standing.symbols();
    let symbols = rows_of(alloc, look, entries, standing)?;
    let exports = exports_of(alloc, program, &found.kept, found.functions)?;
    let inits = inits_of(alloc, &found.standing, entries)?;
    Ok(Named {
        exports,
        symbols,
        inits,
    })
}

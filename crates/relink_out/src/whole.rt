//! The tree of the object, whose rows lend names and bytes.
ghost use Rattle.std.specs.Prelude.{◌≡◌, false, IfOk};
ghost use Rattle.partial_items.specs.link_program.made_symbols.declared.mode.Mode.TheVariants.{Plain};
ghost use Rattle.partial_items.specs.link_program.name_entries.View.{InputsRise};
ghost use Rattle.partial_items.specs.link_program.name_entries.Fits.{FitsObjects};
ghost use Rattle.partial_items.specs.link_program.link_rules.Program as rules;
ghost use Rattle.partial_items.specs.link_program.Program.{IsProgramOf};
ghost use Rattle.partial_items.specs.link_program.Stand.{PartsStand};
ghost use Rattle.partial_items.specs.partial_rules.Relocatable.{relocatable_bytes};
ghost use Rattle.partial_items.specs.partial_rules.Partial.{relocatable};
ghost use Rattle.relink_out.specs.Judged.{IsJudged};
ghost use Rattle.relink_out.specs.Found.{AreFound};
ghost use Rattle.relink_out.specs.Typed.{AreTyped};
ghost use Rattle.relink_out.specs.Named.{AreNamed};
ghost use Rattle.relink_out.specs.Held.{AreHeld};

use crate::found::Found;
use crate::held::Held;
use crate::named::Named;
use crate::rows::{name_rows, part_rows};
use crate::typed::Typed;
use crate::writing::{Judged, write};
use partial_items::{Entries, Numbers, Program, Tree};
use std::alloc::Global;
use std::thread::Threads;
use wl_base::{OutOfMemory, Seq};
use wl_fan::Workers;

/// The bytes of the object, or how many there would be, by what was found and made. `entries` is the view of the program's objects, and these are
/// its files.
pub fn written_of<R: Threads + Sync>(
    rt: &R,
    alloc: Global,
    program: Program<'_>,
    entries: Entries<'_>,
    files: &[Seq<u8>],
    found: &Found,
    typed: &Typed,
    named: &Named,
    held: &Held,
    workers: Workers,
) -> Result<Judged, OutOfMemory>
    ghost p: { rules.Program }
    requires program { IsProgramOf Plain program p }
    requires strict { p.plan.loose_calls ≡ false }
    requires stand { PartsStand p }
    requires rise { InputsRise 0 program.objects.now }
    requires fits { FitsObjects entries }
    requires objects { entries.objects.now ≡ program.objects.now }
    requires files { files.now ≡ p.files }
    requires found { AreFound p program.names.now.names found.now }
    requires typed { AreTyped program p typed.now }
    requires named { AreNamed p named.now }
    requires held { AreHeld program found.now held.now }
    ensures { IfOk result (IsJudged (relocatable_bytes (relocatable p))) }
{
    let numbers = Numbers {
        symbols: held.symbols.as_slice(),
        types: typed.numbers.as_slice(),
    };
    let parts = part_rows(alloc, program, files, found, &numbers)?;
    let names = name_rows(alloc, program, entries, found, named, held)?;
    let tree = Tree {
        types: typed.types.types(),
        imports: typed.imports.as_slice(),
        functions: typed.functions.as_slice(),
        globals: parts.globals.as_slice(),
        exports: named.exports.as_slice(),
        bodies: parts.bodies.as_slice(),
        segments: parts.segments.as_slice(),
        infos: names.infos.as_slice(),
        symbols: names.symbols.as_slice(),
        inits: named.inits.as_slice(),
        groups: names.groups.as_slice(),
    };
    let judged = write(rt, alloc, &tree, workers)?;
    Ok(judged)
}

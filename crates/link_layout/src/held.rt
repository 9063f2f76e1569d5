//! What is written into the windows of a shared output. It is a loop of its own, so that a plain output's windows need no test of the mode.
ghost use Rattle.std.specs.Prelude.{◌≡◌, ◌∷◌, [], ℤ, length, slice_index_or, flat_map, IfSome};
ghost use Rattle.link_program.specs.index_layout.Numbers.{number_by};
ghost use Rattle.link_program.specs.made_symbols.declared.mode.Mode.TheVariants.{Shared};
ghost use Rattle.link_program.specs.reloc_apply.Windows.{IsSum, Puts};
ghost use Rattle.link_program.specs.declared.keys.GlobalKey.TheVariants as globals;
ghost use Rattle.link_program.specs.Keys.{same_global_key};
ghost use Rattle.link_program.specs.Moved.{moved_window};
ghost use Rattle.link_program.specs.Seen.{NamesOne, no_symbol};
ghost use Rattle.link_program.specs.declared.named.Named.TheVariants.{Symbol};
ghost use Rattle.link_layout.specs.Seen.{AreTargets};
ghost use Rattle.link_layout.specs.FirstGlobals.{is_import_at};
ghost use Rattle.link_layout.specs.Rows.{cell_number, shared_window};
ghost use Rattle.link_layout.specs.Put.{written_on};
ghost use Rattle.link_layout.specs.Sources.{shared_windows};
ghost use Rattle.link_layout.specs.Layout.{looked, AreThere};

use crate::Layout;
use crate::gathering::Source;
use link_program::{GlobalKey, Named, row_at, symbol_at};
use reloc_apply::{Form, Patches, Window};
use reloc_section::kinds;
use wl_base::LayoutError;

/// Puts what is written into a window behind the others: that of data holds 0 until the output is loaded.
#[tactic(auto, using(crate::proofs::Patched::puts_held, crate::proofs::Patched::puts_unsigned, crate::proofs::Patched::puts_signed))]
fn put(patches: &mut Patches, window: &Window) -> Result<(), LayoutError>
    requires { IsSum window.now }
    ensures { Puts result patches.new.patches (written_on Shared patches.old.patches (window.now ∷ [])) }
{
    match window.form {
        Form::Word4 => patches.push_held(window),
        Form::Unsigned5 | Form::Signed5 => patches.push(window),
    }
}

/// The same of a window so much later.
fn put_moved(patches: &mut Patches, window: Window, by: u64) -> Result<(), LayoutError>
    requires { IsSum window }
    ensures { Puts result patches.new.patches (written_on Shared patches.old.patches (moved_window by window ∷ [])) }
{
    let Some(place) = by.checked_add(window.place) else {
        return Err(LayoutError::OutOfMemory);
    };
    put(patches, &Window { place, ..window })
}

/// Whether a global is this import.
fn is_import(key: GlobalKey, wanted: u32) -> bool
    ensures { result ≡ same_global_key (globals.Import wanted) key }
{
    match key {
        GlobalKey::Import(number) => wanted == number,
        GlobalKey::Own { input: _, index: _ } | GlobalKey::Got(_) | GlobalKey::Datum(_) => false,
    }
}

/// Whether the global of a number is this import.
fn is_import_at(keys: &[GlobalKey], number: usize, wanted: u32) -> bool
    ensures { result ≡ is_import_at keys.now number wanted }
{
    match keys.get(number) {
        Some(key) => is_import(*key, wanted),
        None => false,
    }
}

/// The number of an import, if it is one of the first three globals. Those are the linker's, which most windows name.
#[tactic(auto, using(crate::proofs::FirstGlobals::first, crate::proofs::FirstGlobals::second, crate::proofs::FirstGlobals::third))]
fn among_first(keys: &[GlobalKey], wanted: u32) -> Option<u32>
    ensures { IfSome result (λ n. n ≡ number_by same_global_key keys.now (globals.Import wanted)) }
{
    if is_import_at(keys, 0, wanted) {
        return Some(0);
    }
    if is_import_at(keys, 1, wanted) {
        return Some(1);
    }
    if is_import_at(keys, 2, wanted) {
        return Some(2);
    }
    None
}

impl Layout<'_> {
    /// The number of an import among the globals.
    fn import_number(self, wanted: u32) -> u32
        ensures { result ≡ number_by same_global_key self.entry.numbering.now.globals (globals.Import wanted) }
    {
        match among_first(self.numbering.globals(), wanted) {
            Some(number) => number,
            None => self.numbering.global_number(GlobalKey::Import(wanted)),
        }
    }

    /// The number of a global.
    fn key_number(self, key: GlobalKey) -> u32
        ensures { result ≡ number_by same_global_key self.entry.numbering.now.globals key }
    {
        match key {
            GlobalKey::Import(wanted) => self.import_number(wanted),
            GlobalKey::Own { input: _, index: _ } | GlobalKey::Got(_) | GlobalKey::Datum(_) => {
                self.numbering.global_number(key)
            }
        }
    }

    /// The number of the global that the symbol at a place means, or of its cell.
    fn cell_number(self, at: u32) -> u32
        ensures { result ≡ cell_number (looked self.entry) at (slice_index_or self.entry.program.tables.now.symbols at no_symbol) }
    {
        let symbol = symbol_at(self.program.tables.symbols.as_slice(), at);
        let key = self.global_or_cell(at, symbol.kind, symbol.lead);
        self.key_number(key)
    }

    /// The window of a reference to a global.
    fn global_window(self, place: u32, at: u32) -> Window
        ensures is { (addend : ℤ) → result ≡ shared_window (looked self.entry) (Symbol 7 place addend at) }
        ensures sum { IsSum result }
    {
        Window {
            place: u64::from(place),
            form: Form::Unsigned5,
            target: i64::from(self.cell_number(at)),
            addend: 0,
        }
    }

    /// A window, by the numbers that usual references stand for.
    fn shared_window(self, targets: &[u64], named: &Named) -> Window
        requires targets { AreTargets (looked self) targets.now }
        requires one { NamesOne self.program.tables.now.symbols self.program.tables.now.types named.now }
        requires types { length self.numbering.now.type_numbers ≡ length self.program.tables.now.types }
        ensures is { result ≡ shared_window (looked self.entry) named.now }
        ensures sum { IsSum result }
    {
        if let Named::Symbol {
            kind,
            place,
            addend: _,
            symbol: at,
        } = *named
        {
            if kind == kinds::GLOBAL_INDEX_LEB {
                return self.global_window(place, at);
            }
        }
        self.window_by(targets, named)
    }
}

/// Puts what is written into the windows of a source behind the others.
fn push_held_source(
    patches: &mut Patches,
    layout: Layout<'_>,
    targets: &[u64],
    source: Source,
) -> Result<(), LayoutError>
    requires there { AreThere layout }
    requires targets { AreTargets (looked layout) targets.now }
    ensures { Puts result patches.new.patches (written_on Shared patches.old.patches (shared_windows (looked layout.entry) source)) }
{
    let row = row_at(layout.program.tables, source.number);
    for named in row {
        let window = layout.shared_window(targets, named);
        put_moved(patches, window, source.place)?;
    }
    Ok(())
}

/// Puts what is written into the windows of sources behind the others.
pub(crate) fn push_held_sources(
    patches: &mut Patches,
    layout: Layout<'_>,
    targets: &[u64],
    sources: &[Source],
) -> Result<(), LayoutError>
    requires there { AreThere layout }
    requires targets { AreTargets (looked layout) targets.now }
    ensures { Puts result patches.new.patches (written_on Shared patches.old.patches (flat_map (shared_windows (looked layout.entry)) sources.now)) }
{
    for source in sources {
        push_held_source(patches, layout, targets, *source)?;
    }
    Ok(())
}

//! Which symbols are called by another type than their definition has.
ghost use Rattle.std.specs.Prelude.{◌≡◌, ◌<◌, ◌+◌, ◌∷◌, ◌++◌, [], Some, ◌==◌, ◌&&◌, not, Bool, true, IsSome, length, slice_index_or, OnOk, IfOk};
ghost use Rattle.program_tables.specs.link_program.linking_section.declared.symbol.SymbolKind.TheVariants as kinds;
ghost use Rattle.program_tables.specs.link_program.linking_section.Flags.{kind_code};
ghost use Rattle.program_tables.specs.link_program.object_columns.Seen.{symbol_seen};
ghost use Rattle.program_tables.specs.link_program.name_rules.Entries.{InputSymbol, entries as all_entries};
ghost use Rattle.program_tables.specs.link_program.name_rules.Meanings.{resolve};
ghost use Rattle.program_tables.specs.link_program.name_entries.View.{rows_of, entry_at};
ghost use Rattle.program_tables.specs.link_program.name_entries.Fits.{Fits, FitsObjects};
ghost use Rattle.program_tables.specs.link_program.name_meanings.Means.{IsResolution};
ghost use Rattle.program_tables.specs.Loose.{all_symbols, loosens};
ghost use Rattle.loose_calls.specs.Found.{is_here, variant_seen, Grows, AreCalls, CanAsk};

use crate::variant::{Variant, variant_of};
use made_symbols::Mode;
use name_cases::{Judges, SymbolKind, has_other_type, judges_of};
use program_tables::{Entries, EntryRef, Meaning, Resolution};
use std::alloc::Global;
use wl_base::{OutOfMemory, Seq};

/// The symbols that calls name, by the numbers of all symbols, and the variants among them.
#[derive(Drop)]
pub(crate) struct Calls {
    pub(crate) called: Seq<u32>,
    pub(crate) variants: Seq<Variant>,
}

/// What is asked of symbols.
#[derive(Clone, Copy)]
pub(crate) struct Asking<'a> {
    pub(crate) entries: Entries<'a>,
    pub(crate) mode: Mode,
    pub(crate) resolution: &'a Resolution,
    pub(crate) judges: &'a Judges,
    /// How many symbols all objects have.
    pub(crate) count: u32,
}

/// Whether it is a definition.
fn is_here(meaning: Meaning) -> bool
    ensures { result ≡ is_here meaning }
{
    match meaning {
        Meaning::Here { .. } | Meaning::Made(_) => true,
        Meaning::Import(_) | Meaning::Null | Meaning::Nothing => false,
    }
}

/// Whether it is a function.
fn is_function(kind: SymbolKind) -> bool
    ensures { result ≡ (kind_code kind == kind_code kinds.Function) }
{
    kind == SymbolKind::Function
}

/// Whether it is a function that is no definition: another type than the definition has no other symbol.
fn can_differ(entry: EntryRef<'_>) -> bool
    ensures { result ≡ ((kind_code (symbol_seen entry.entry.symbol).kind == kind_code kinds.Function) && not entry.entry.defines) }
{
    is_function(entry.symbol.kind) && !entry.defines
}

/// How many there are; 2^32 or more are answered as want of memory.
fn few(count: usize) -> Result<u32, OutOfMemory>
    ensures { IfOk result (λ few. few ≡ count) }
{
    match u32::try_from(count) {
        Ok(few) => Ok(few),
        Err(_) => Err(OutOfMemory),
    }
}

impl Asking<'_> {
    /// Whether the symbol at a place of an object means a definition of another type.
    pub(crate) fn is_loose(self, object: u32, place: u32) -> bool
        ghost allow: { Bool }
        requires asked { CanAsk allow self }
        requires there { IsSome (entry_at self.entries.objects.now object place) }
        requires object { object < length self.entries.objects.now }
        ensures { (e : InputSymbol) → entry_at self.entry.entries.objects.now object place ≡ Some e
            → result ≡ loosens self.entry.mode true allow self.entry.entries.objects.now e }
    {
        let Some(entry) = self.entries.entry(object, place) else {
            unreachable!()
        };
        if !can_differ(entry) {
            return false;
        }
        let meaning = self.resolution.meaning(entry.input, place);
        if !is_here(meaning) {
            return false;
        }
        has_other_type(self.judges, self.entries, self.mode, object, place)
    }
}

impl Calls {
    /// One symbol more, of which a call names the symbol itself.
    fn add_itself(&mut self) -> Result<(), OutOfMemory>
        ensures called { OnOk result (self.new.called ≡ self.old.called ++ length self.old.called ∷ []) }
        ensures variants { OnOk result (self.new.variants ≡ self.old.variants) }
    {
        self.called.push(few(self.called.len())?)?;
        Ok(())
    }

    /// One symbol more, of which a call names its variant.
    fn add_variant(
        &mut self,
        alloc: Global,
        asking: Asking<'_>,
        object: u32,
        place: u32,
    ) -> Result<(), OutOfMemory>
        requires fits { FitsObjects asking.entries }
        requires there { IsSome (entry_at asking.entries.objects.now object place) }
        ensures called { OnOk result (self.new.called ≡ self.old.called ++ (asking.entry.count + length self.old.variants) ∷ []) }
        ensures variants { OnOk result ((e : InputSymbol) → entry_at asking.entry.entries.objects.now object place ≡ Some e
            → self.new.variants ≡ self.old.variants ++ variant_seen e ∷ []) }
    {
        let Some(number) = asking.count.checked_add(few(self.variants.len())?) else {
            return Err(OutOfMemory);
        };
        self.called.push(number)?;
        self.variants
            .push(variant_of(alloc, asking.entries, object, place)?)?;
        Ok(())
    }

    /// One symbol more. A call of it names its variant where it is `loose`.
    fn add(
        &mut self,
        alloc: Global,
        asking: Asking<'_>,
        object: u32,
        place: u32,
        loose: bool,
    ) -> Result<(), OutOfMemory>
        requires fits { FitsObjects asking.entries }
        requires there { IsSome (entry_at asking.entries.objects.now object place) }
        ensures { OnOk result ((e : InputSymbol) → entry_at asking.entry.entries.objects.now object place ≡ Some e
            → Grows (λ e. loose) asking.entry.count (e ∷ []) self.old self.new) }
    {
        if loose {
            self.add_variant(alloc, asking, object, place)?;
        } else {
            self.add_itself()?;
        }
        Ok(())
    }

    /// The symbols of an object.
    fn add_object(
        &mut self,
        alloc: Global,
        asking: Asking<'_>,
        object: u32,
    ) -> Result<(), OutOfMemory>
        ghost allow: { Bool }
        requires asked { CanAsk allow asking }
        requires object { object < length asking.entries.objects.now }
        ensures { OnOk result (Grows (loosens asking.entry.mode true allow asking.entry.entries.objects.now) asking.entry.count
            (slice_index_or (rows_of asking.entry.entries.objects.now) object []) self.old self.new) }
    {
        for place in 0..asking.entries.symbols(object) {
            let loose = asking.is_loose(object, place);
            self.add(alloc, asking, object, place, loose)?;
        }
        Ok(())
    }
}

/// How many symbols all objects have.
pub(crate) fn count_symbols(entries: Entries<'_>) -> Result<u32, OutOfMemory>
    requires { FitsObjects entries }
    ensures { IfOk result (λ count. count ≡ length (all_symbols entries.entry.objects.now)) }
{
    let mut count: u32 = 0;
    for object in 0..entries.count() {
        let Some(more) = count.checked_add(entries.symbols(object)) else {
            return Err(OutOfMemory);
        };
        count = more;
    }
    Ok(count)
}

/// What calls of the symbols of all objects name.
fn all_calls(alloc: Global, asking: Asking<'_>) -> Result<Calls, OutOfMemory>
    ghost allow: { Bool }
    requires { CanAsk allow asking }
    ensures { IfOk result (λ calls. AreCalls asking.entry.mode allow asking.entry.entries.objects.now calls) }
{
    let mut calls = Calls {
        called: Seq::new(alloc),
        variants: Seq::new(alloc),
    };
    for object in 0..asking.entries.count() {
        calls.add_object(alloc, asking, object)?;
    }
    Ok(calls)
}

/// The same, by the meanings of all symbols. `allow` is whether undefined functions may be imported, as they were resolved.
pub(crate) fn calls_in(
    alloc: Global,
    entries: Entries<'_>,
    resolution: &Resolution,
    mode: Mode,
) -> Result<Calls, OutOfMemory>
    ghost allow: { Bool }
    requires fits { Fits mode entries }
    requires resolution { IsResolution mode (all_entries mode entries.objects.now) resolution.now (resolve mode allow (all_entries mode entries.objects.now) entries.objects.now) }
    ensures { IfOk result (λ calls. AreCalls mode allow entries.entry.objects.now calls) }
{
    let judges = judges_of(alloc, entries, mode)?;
    let count = count_symbols(entries)?;
    let asking = Asking {
        entries,
        mode,
        resolution,
        judges: &judges,
        count,
    };
    let calls = all_calls(alloc, asking)?;
    Ok(calls)
}

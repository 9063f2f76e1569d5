//! What windows hold.
ghost use Rattle.std.specs.Prelude.{◌≡◌, ◌<◌, ◌^◌, [], length, slice_index_or, IsTrue};
ghost use Rattle.link_program.specs.name_rules.Entries.{InputSymbol};
ghost use Rattle.link_program.specs.wl_base.Answers.{Answers};
ghost use Rattle.link_program.specs.reloc_apply.Windows.{IsSum};
ghost use Rattle.patch_pieces.specs.Judged.{judged_patches};
ghost use Rattle.link_program.specs.link_rules.ModeOf.{mode_of};
ghost use Rattle.link_program.specs.link_rules.Marks.{by_mode};
ghost use Rattle.link_program.specs.link_rules.Values as values;
ghost use Rattle.link_program.specs.link_rules.Values.{asks, form_of, made_address, made_data};
ghost use Rattle.link_program.specs.link_rules.Output.{layout, source_windows, held};
ghost use Rattle.link_program.specs.Told.{told_definition};
ghost use Rattle.link_program.specs.Seen.{NamesOne, no_symbol};
ghost use Rattle.link_program.specs.Moved.{moved_windows};
ghost use Rattle.link_program.specs.Live.{Stage, AreLive};
ghost use Rattle.link_layout.specs.Seen.{column_at, address_of, slot_meant, address_meant, target_of, is_address, is_null, addend_of, window_to, symbol_window, type_window, window_of, usual, AreTargets};
ghost use Rattle.link_layout.specs.Layout.{looked, IsLayout};

use crate::Placed;
use crate::cells::are_told;
use crate::keys::global_named;
use crate::patches::all_patches;
use link_numbers::{Numbering, keys_are_told};
use link_program::{
    Definition, Lead, Named, Program, Symbol, chunk_number, function_meant, mode_of, symbol_at,
};
use linking_section::SymbolKind;
use made_symbols::{Mode, Role, count, role};
use mark_bits::{Chunk, kinds as chunk_kinds};
use memory_layout::Places;
use patch_pieces::Pieces;
use reloc_apply::{Form, Window};
use reloc_section::kinds;
use std::alloc::Global;
use std::thread::Threads;
use wl_base::LayoutError;
use wl_fan::Workers;

/// A program with all numbers of its output and the places of its segments, by reference.
#[derive(Clone, Copy)]
pub struct Layout<'a> {
    pub program: Program<'a>,
    pub numbering: &'a Numbering,
    pub placed: &'a Placed,
}

/// The address of a linker-made datum, by what it stands for.
fn address_by(places: &Places, role: Role) -> u32
    ensures { result ≡ made_address places.now role }
{
    match role {
        Role::HeapBase => places.heap_base,
        Role::DataEnd => places.data_end,
        Role::GlobalBase | Role::DsoHandle => places.base,
        Role::StackLow => places.stack_low,
        Role::StackHigh => places.stack_high,
        Role::HeapEnd => (u64::from(places.pages) * 65_536).min(u64::from(u32::MAX)) as u32,
        Role::CallCtors
        | Role::ApplyDataRelocs
        | Role::StackPointer
        | Role::MemoryBase
        | Role::TableBase
        | Role::IndirectFunctionTable => 0,
    }
}

/// The address of the linker-made datum of a number, in a plain output.
#[tactic(auto, using(crate::proofs::MadeData::named, crate::proofs::MadeData::none))]
fn plain_address(places: &Places, number: u32) -> u32
    ensures { result ≡ slice_index_or (made_data places.now) number 0 }
{
    if number < count(Mode::Plain) {
        address_by(places, role(Mode::Plain, number))
    } else {
        0
    }
}

/// The same in either output: in a shared one the linker's one datum stands where its data begin.
fn made_address(mode: Mode, places: &Places, number: u32) -> u32
    ensures { result ≡ slice_index_or (by_mode mode (made_data places.now) []) number 0 }
{
    match mode {
        Mode::Plain => plain_address(places, number),
        Mode::Shared => 0,
    }
}

/// The address at a place, or 0.
#[tactic(auto, using(link_program::proofs::ReadAt::read))]
fn address_at(addresses: &[u32], at: usize) -> u32
    ensures { result ≡ slice_index_or addresses.now at 0 }
{
    match addresses.get(at) {
        Some(address) => *address,
        None => 0,
    }
}

/// The address of the part of a number; where there is none, that of the first segment.
fn column_at(placed: &Placed, number: Option<u32>) -> u32
    ensures { result ≡ column_at placed.now number }
{
    match number {
        Some(number) => address_at(placed.addresses.as_slice(), number as usize),
        None => address_at(placed.places.addresses.as_slice(), 0),
    }
}

/// The form of a relocation's type (Linking.md, "Relocation Sections").
fn form_of(kind: u8) -> Form
    ensures { result ≡ form_of kind }
{
    match kind {
        kinds::TABLE_INDEX_SLEB
        | kinds::MEMORY_ADDR_SLEB
        | kinds::MEMORY_ADDR_REL_SLEB
        | kinds::TABLE_INDEX_REL_SLEB => Form::Signed5,
        kinds::TABLE_INDEX_I32 | kinds::MEMORY_ADDR_I32 => Form::Word4,
        _ => Form::Unsigned5,
    }
}

/// Whether a relocation's type asks for an address.
fn is_address(kind: u8) -> bool
    ensures { result ≡ is_address (asks kind) }
{
    matches!(
        kind,
        kinds::MEMORY_ADDR_LEB
            | kinds::MEMORY_ADDR_SLEB
            | kinds::MEMORY_ADDR_I32
            | kinds::MEMORY_ADDR_REL_SLEB
    )
}

/// Whether a symbol is null.
fn is_null(lead: Lead) -> bool
    ensures { result ≡ is_null lead }
{
    matches!(lead, Lead::Null)
}

/// The addend of a relocation's type: only addresses have one, and that of a null datum isn't added. A processor can't foresee which it is,
/// so there is one choice and no branch for each.
fn addend_of(kind: u8, lead: Lead, addend: i32) -> i32
    ensures { result ≡ addend_of lead addend (asks kind) }
{
    if is_address(kind) & !is_null(lead) {
        addend
    } else {
        0
    }
}

/// The usual type of a reference to a symbol of a kind.
pub(crate) fn usual(kind: SymbolKind) -> u8
    ensures { result ≡ usual kind }
{
    match kind {
        SymbolKind::Function => kinds::FUNCTION_INDEX_LEB,
        SymbolKind::Datum => kinds::MEMORY_ADDR_LEB,
        SymbolKind::GlobalVar => kinds::GLOBAL_INDEX_LEB,
        SymbolKind::Section => kinds::SECTION_OFFSET_I32,
        SymbolKind::Table => kinds::TABLE_NUMBER_LEB,
    }
}

/// The first of the types that ask for the same as this one, where that is an address; any other as it is.
fn first_alike(kind: u8) -> u8
    ensures { asks result ≡ asks kind }
{
    if is_address(kind) {
        kinds::MEMORY_ADDR_LEB
    } else {
        kind
    }
}

/// Whether a reference of a type is known to stand for the same number as one of the usual type of the kind.
fn is_usual(kind: u8, of: SymbolKind) -> bool
    ensures { IsTrue result → asks kind ≡ asks (usual of) }
{
    first_alike(kind) == usual(of)
}

/// The target of a usual reference to the symbol of a place.
#[tactic(auto, using(link_program::proofs::ReadAt::read))]
fn usual_at(targets: &[u64], at: u32) -> u64
    ensures { result ≡ slice_index_or targets.now at 0 }
{
    match targets.get(at as usize) {
        Some(target) => *target,
        None => 0,
    }
}

/// The window of a reference that stands for this number.
fn window_to(place: u32, kind: u8, addend: i32, lead: Lead, target: u64) -> Window
    requires { target < 2 ^ 33 }
    ensures is { result ≡ window_to place kind addend lead target }
    ensures sum { IsSum result }
{
    Window {
        place: u64::from(place),
        form: form_of(kind),
        target: target as i64,
        addend: i64::from(addend_of(kind, lead, addend)),
    }
}

impl<'a> Layout<'a> {
    /// The address of a definition, by the data alone.
    fn address_seen(self, definition: Definition) -> u64
        ensures is { result ≡ address_of (looked self.entry) definition }
        ensures small { result < 2 ^ 33 }
    {
        if definition.input == 0 {
            let mode = mode_of(self.program.plan);
            return u64::from(made_address(mode, &self.placed.places, definition.place));
        }
        let chunk = Chunk {
            input: definition.input,
            kind: chunk_kinds::SEGMENT,
            index: definition.index,
        };
        let number = chunk_number(&self.program.tables.chunks, chunk);
        u64::from(column_at(self.placed, number)) + u64::from(definition.offset)
    }

    /// The slot that a symbol means; that of null is 0.
    fn slot_meant(self, symbol: Symbol) -> u32
        ensures { result ≡ slot_meant (looked self.entry) symbol.name symbol.lead }
    {
        match symbol.lead {
            Lead::Here(_) | Lead::Import(_) => self.numbering.slot(function_meant(symbol)),
            Lead::Null | Lead::Nothing => 0,
        }
    }

    /// The address that a symbol means; that of null is 0.
    fn address_meant(self, lead: Lead) -> u64
        ensures is { result ≡ address_meant (looked self.entry) lead }
        ensures small { result < 2 ^ 33 }
    {
        match lead {
            Lead::Here(definition) => self.address_seen(definition),
            Lead::Import(_) | Lead::Null | Lead::Nothing => 0,
        }
    }

    /// The number that a reference stands for, by its relocation's type. The table is number 0.
    pub(crate) fn target_of(self, kind: u8, symbol: Symbol) -> u64
        ensures is { result ≡ target_of (looked self.entry) symbol (asks kind) }
        ensures small { result < 2 ^ 33 }
    {
        match kind {
            kinds::FUNCTION_INDEX_LEB => {
                u64::from(self.numbering.function_number(function_meant(symbol)))
            }
            kinds::TABLE_INDEX_SLEB | kinds::TABLE_INDEX_I32 | kinds::TABLE_INDEX_REL_SLEB => {
                u64::from(self.slot_meant(symbol))
            }
            kinds::MEMORY_ADDR_LEB
            | kinds::MEMORY_ADDR_SLEB
            | kinds::MEMORY_ADDR_I32
            | kinds::MEMORY_ADDR_REL_SLEB => self.address_meant(symbol.lead),
            kinds::GLOBAL_INDEX_LEB => {
                u64::from(self.numbering.global_number(global_named(symbol)))
            }
            _ => 0,
        }
    }

    /// The window of a reference to a type, by the data alone.
    fn type_window(self, place: u32, number: u32) -> Window
        requires { number < length self.numbering.now.type_numbers }
        ensures is { result ≡ type_window place (slice_index_or self.entry.numbering.now.type_numbers number 0) }
        ensures sum { IsSum result }
    {
        Window {
            place: u64::from(place),
            form: Form::Unsigned5,
            target: i64::from(self.numbering.type_number(number)),
            addend: 0,
        }
    }

    /// The number that a reference to the symbol of a place stands for.
    #[inline(never)]
    fn target_at(self, kind: u8, at: u32) -> u64
        ensures is { result ≡ target_of (looked self.entry) (slice_index_or self.entry.program.tables.now.symbols at no_symbol) (asks kind) }
        ensures small { result < 2 ^ 33 }
    {
        self.target_of(kind, symbol_at(self.program.tables.symbols.as_slice(), at))
    }

    /// The same, where the symbol is of this kind: the number of a usual reference is there already.
    fn target_by(self, targets: &[u64], kind: u8, at: u32, of: SymbolKind) -> u64
        requires targets { AreTargets (looked self) targets.now }
        requires there { at < length self.program.tables.now.symbols }
        requires of { of ≡ (slice_index_or self.program.tables.now.symbols at no_symbol).kind }
        ensures is { result ≡ target_of (looked self.entry) (slice_index_or self.entry.program.tables.now.symbols at no_symbol) (asks kind) }
        ensures small { result < 2 ^ 33 }
    {
        if is_usual(kind, of) {
            usual_at(targets, at)
        } else {
            self.target_at(kind, at)
        }
    }

    /// The window of a reference to the symbol of a place, by the numbers that usual references stand for.
    #[inline(always)]
    fn symbol_window(self, targets: &[u64], place: u32, kind: u8, addend: i32, at: u32) -> Window
        requires targets { AreTargets (looked self) targets.now }
        requires there { at < length self.program.tables.now.symbols }
        ensures is { result ≡ symbol_window (looked self.entry) place kind addend (slice_index_or self.entry.program.tables.now.symbols at no_symbol) }
        ensures sum { IsSum result }
    {
        let symbol = symbol_at(self.program.tables.symbols.as_slice(), at);
        let target = self.target_by(targets, kind, at, symbol.kind);
        window_to(place, kind, addend, symbol.lead, target)
    }

    /// A window, by the numbers that usual references stand for. It is the body of two loops.
    #[inline(always)]
    pub(crate) fn window_by(self, targets: &[u64], named: &Named) -> Window
        requires targets { AreTargets (looked self) targets.now }
        requires one { NamesOne self.program.tables.now.symbols self.program.tables.now.types named.now }
        requires types { length self.numbering.now.type_numbers ≡ length self.program.tables.now.types }
        ensures is { result ≡ window_of (looked self.entry) named.now }
        ensures sum { IsSum result }
    {
        match *named {
            Named::Symbol {
                kind,
                place,
                addend,
                symbol: at,
            } => self.symbol_window(targets, place, kind, addend, at),
            Named::Type { place, number } => self.type_window(place, number),
        }
    }

    /// The address of a datum: that of its segment and its offset there, or of the linker's own.
    pub fn address(self, definition: Definition) -> u64
        ghost s: { Stage }
        requires { IsLayout s.program s.parts s.exports self }
        ensures { (e : InputSymbol) → definition ≡ told_definition e → result ≡ values.address_of (mode_of s.program.plan) (layout (mode_of s.program.plan) s.program s.parts s.exports) e }
    {
        keys_are_told();
        self.address_seen(definition)
    }

    /// What is written into the windows of all sources of the output, by their places there: of the bodies of functions, then of the live
    /// segments that aren't zero. `places` has the place of each source. A place of 2^64 and more is answered as want of memory. In a shared
    /// output the windows of data are judged by their values, and hold 0 until it is loaded.
    ///
    /// The windows are divided among the workers, where there are many. The answer doesn't depend on them.
    ///
    /// # Errors
    ///
    /// `Overflow` with `Reference` exactly where a value is out of range: the first one by place in the output. `OutOfMemory`.
    pub fn patches<R: Threads + Sync>(
        self,
        rt: &R,
        alloc: Global,
        live: &[u32],
        places: &[u64],
        workers: Workers,
    ) -> Result<Pieces, LayoutError>
        ghost s: { Stage }
        requires is { IsLayout s.program s.parts s.exports self }
        requires live { AreLive s.program live.now s.parts }
        ensures { Answers result (judged_patches
            (moved_windows places.now (source_windows (mode_of s.program.plan) s.program s.parts s.exports (layout (mode_of s.program.plan) s.program s.parts s.exports)))
            (moved_windows places.now (held (mode_of s.program.plan)
            (source_windows (mode_of s.program.plan) s.program s.parts s.exports (layout (mode_of s.program.plan) s.program s.parts s.exports))))) }
    {
        keys_are_told();
        if !are_told(self, live) {
            return Err(LayoutError::OutOfMemory);
        }
        let patches = all_patches(rt, alloc, self, live, places, workers)?;
        Ok(patches)
    }
}

//! What one symbol means.
ghost use Rattle.std.specs.Prelude.{◌≡◌, ◌&&◌, ◌||◌, ◌<◌, not, [], List, Some, None, if◌then◌else◌, slice_get, slice_index_or, length, is_some, IsSome, IfOk};
ghost use Rattle.symbol_race.specs.Ranks.{IsParts};
ghost use Rattle.name_entries.specs.linking_section.Flags.{is_weak};
ghost use Rattle.name_entries.specs.linking_section.declared.symbol.SymbolKind.TheVariants as kinds;
ghost use Rattle.name_entries.specs.object_columns.Seen.{symbol_seen};
ghost use Rattle.name_entries.specs.name_rules.Entries.{InputSymbol, ImportKey, name_of, is_kind};
ghost use Rattle.name_entries.specs.name_rules.Meanings.{entry_rank, here, own_meaning, may_be_null, where_given};
ghost use Rattle.name_entries.specs.name_rules.declared.meaning.Meaning.TheVariants as told;
ghost use Rattle.name_entries.specs.View.{entry_at};
ghost use Rattle.name_entries.specs.Shown.{Shows};
ghost use Rattle.name_entries.specs.Fits.{FitsObjects};
ghost use Rattle.name_meanings.specs.Columns.{or_else, import_at, empty_column};
ghost use Rattle.name_uses.specs.Flags.{not_used};
ghost use Rattle.name_meanings.specs.Kept.{import_of, cell_key};
ghost use Rattle.name_meanings.specs.Means.{Means};
ghost use Rattle.name_entries.specs.made_symbols.declared.mode.Mode.TheVariants as modes;
ghost use Rattle.name_meanings.specs.Known.{IsKnown, FoundBy, Finds, IsNumbered, UsesTold, may_told, meant, lacked, name_import};

use crate::cells::cell_number;
use crate::columns::{At, Column};
use crate::imports::{ImportTable, OutputImport};
use made_symbols::Mode;
use name_entries::{Entries, EntryRef, Meaning, SymbolKind, SymbolRef};
use name_uses::NameUses;
use std::alloc::Global;
use symbol_race::Winners;
use wl_base::OutOfMemory;

/// What the rules look at, by the numbers of names.
#[derive(Clone, Copy)]
pub(crate) struct Known<'a> {
    pub(crate) entries: Entries<'a>,
    pub(crate) winners: &'a Winners,
    pub(crate) columns: &'a [Column],
    pub(crate) allow_undefined: bool,
    pub(crate) mode: Mode,
    /// What is used of each name; of a plain output there are none.
    pub(crate) uses: &'a [NameUses],
}

/// The imports so far, and by the numbers of names those of the names' imports and cells, once a symbol means them.
#[derive(Drop)]
pub(crate) struct Found {
    pub(crate) imports: ImportTable,
    pub(crate) numbers: Vec<Option<u32>>,
    /// Of a shared output, those of the cells of functions' addresses.
    pub(crate) function_cells: Vec<Option<u32>>,
    /// Of a shared output, those of the cells of data's addresses.
    pub(crate) data_cells: Vec<Option<u32>>,
}

/// The definition of this rank.
fn definition(rank: u64) -> Meaning
    ensures { (e : InputSymbol) (imports : List ImportKey) → IsParts e.class e.input e.place → rank ≡ entry_rank e → Means imports result (here e) }
{
    let input = (rank / (1 << 32) % (1 << 20)) as u32;
    let place = (rank % (1 << 32)) as u32;
    if input == 0 {
        Meaning::Made(place)
    } else {
        Meaning::Here {
            input,
            symbol: place,
        }
    }
}

/// What a symbol means that is no entry of a name.
fn itself(entry: EntryRef<'_>) -> Meaning
    ensures { result ≡ (if entry.entry.defines then told.Here entry.entry.input entry.entry.place else told.Nothing) }
{
    if entry.defines {
        Meaning::Here {
            input: entry.input,
            symbol: entry.place,
        }
    } else {
        Meaning::Nothing
    }
}

/// What a symbol means whose name has neither a definition nor an import.
fn absent(symbol: SymbolRef<'_>) -> Meaning
    ensures { (e : InputSymbol) → e.symbol ≡ symbol_seen symbol.entry → result ≡ (if may_be_null e then told.Null else told.Nothing) }
{
    let may = match symbol.kind {
        SymbolKind::Function | SymbolKind::Datum => symbol.is_weak(),
        SymbolKind::GlobalVar | SymbolKind::Section | SymbolKind::Table => false,
    };
    if may { Meaning::Null } else { Meaning::Nothing }
}

/// What is used of the name of a number.
fn uses_at(uses: &[NameUses], name: u32) -> NameUses
    ensures { result ≡ slice_index_or uses.now name not_used }
{
    match uses.get(name as usize) {
        Some(uses) => *uses,
        None => NameUses {
            called: false,
            addressed: false,
        },
    }
}

/// Whether a symbol of a plain output may stand on the least import of its name.
fn may_import(symbol: SymbolRef<'_>, strong: bool, allow_undefined: bool) -> bool
    ensures { (e : InputSymbol) → e.symbol ≡ symbol_seen symbol.entry
        → result ≡ (allow_undefined && ((is_kind kinds.Function e || is_kind kinds.GlobalVar e) && strong)) }
{
    match symbol.kind {
        SymbolKind::Function | SymbolKind::GlobalVar => allow_undefined && strong,
        SymbolKind::Datum | SymbolKind::Section | SymbolKind::Table => false,
    }
}

/// Whether a symbol of a shared output may: a function that is called, and a global.
fn may_call(symbol: SymbolRef<'_>, called: bool) -> bool
    ensures { (e : InputSymbol) → e.symbol ≡ symbol_seen symbol.entry
        → result ≡ ((is_kind kinds.Function e && called) || is_kind kinds.GlobalVar e) }
{
    match symbol.kind {
        SymbolKind::Function => called,
        SymbolKind::GlobalVar => true,
        SymbolKind::Datum | SymbolKind::Section | SymbolKind::Table => false,
    }
}

/// Whether a foreign symbol of a shared output is known by its address alone.
fn is_address(symbol: SymbolRef<'_>, uses: NameUses) -> bool
    ensures { (e : InputSymbol) → e.symbol ≡ symbol_seen symbol.entry
        → result ≡ (is_kind kinds.Datum e || (is_kind kinds.Function e && uses.addressed && not uses.called)) }
{
    match symbol.kind {
        SymbolKind::Datum => true,
        SymbolKind::Function => uses.addressed && !uses.called,
        SymbolKind::GlobalVar | SymbolKind::Section | SymbolKind::Table => false,
    }
}

/// Whether a symbol is a function.
pub(crate) fn is_function(symbol: SymbolRef<'_>) -> bool
    ensures { (e : InputSymbol) → e.symbol ≡ symbol_seen symbol.entry → result ≡ is_kind kinds.Function e }
{
    match symbol.kind {
        SymbolKind::Function => true,
        SymbolKind::Datum | SymbolKind::GlobalVar | SymbolKind::Section | SymbolKind::Table =>
            false,
    }
}

/// Whether a symbol may stand on the least import of its name.
fn may_stand(known: Known<'_>, column: Column, uses: NameUses, symbol: SymbolRef<'_>) -> bool
    ensures { (e : InputSymbol) → e.symbol ≡ symbol_seen symbol.entry → result ≡ may_told known.entry column uses e }
{
    match known.mode {
        Mode::Plain => may_import(symbol, column.strong, known.allow_undefined),
        Mode::Shared => may_call(symbol, uses.called),
    }
}

/// The symbol on whose import a symbol of the name stands, in a link without a definition of it.
fn source(column: Column, may: bool) -> Option<At>
    ensures { result ≡ or_else column.explicit (where_given may column.least) }
{
    if column.explicit.is_some() {
        return column.explicit;
    }
    if may { column.least } else { None }
}

/// The import that the symbol at a place stands on, in memory of its own.
fn own_import(alloc: Global, entries: Entries<'_>, at: At) -> Result<OutputImport, OutOfMemory>
    requires fits { FitsObjects entries }
    requires stands { IsSome (import_at entries.objects.now at) }
    ensures { IfOk result (λ i. import_at entries.entry.objects.now at ≡ Some (import_of i)) }
{
    let Some(kind) = entries.type_of(at.object, at.place) else {
        unreachable!()
    };
    let Some(import) = entries.import_of(at.object, at.place) else {
        unreachable!()
    };
    OutputImport::of(alloc, kind, import)
}

impl Found {
    /// The number of the import of a name, on which the symbol at this place stands.
    fn number(
        &mut self,
        alloc: Global,
        known: Known<'_>,
        name: u32,
        at: At,
    ) -> Result<u32, OutOfMemory>
        requires fits { FitsObjects known.entries }
        requires found { FoundBy known self.old }
        requires name { name < length known.columns.now }
        requires stands { IsSome (import_at known.entries.objects.now at) }
        requires own { name_import known.entries.objects.now (slice_index_or known.columns.now name empty_column)
            ≡ import_at known.entries.objects.now at }
        ensures { IfOk result (λ number. (key : ImportKey) → import_at known.entry.entries.objects.now at ≡ Some key
            → IsNumbered known.entry number key self.old self.new) }
    {
        if let Some(number) = self.numbers[name as usize] {
            return Ok(number);
        }
        let import = own_import(alloc, known.entries, at)?;
        let number = self.imports.add(import)?;
        self.numbers[name as usize] = Some(number);
        Ok(number)
    }

    /// The number of the cell of a name.
    pub(crate) fn cell(
        &mut self,
        alloc: Global,
        known: Known<'_>,
        name: u32,
        function: bool,
    ) -> Result<u32, OutOfMemory>
        requires found { FoundBy known self.old }
        requires name { name < length known.entries.names.now.names }
        ensures { IfOk result (λ number. IsNumbered known.entry number
            (cell_key function (slice_index_or known.entry.entries.names.now.names name [])) self.old self.new) }
    {
        let names = known.entries.names;
        if function {
            let cells = &mut self.function_cells;
            let number = cell_number(alloc, names, &mut self.imports, cells, true, name)?;
            return Ok(number);
        }
        let cells = &mut self.data_cells;
        let number = cell_number(alloc, names, &mut self.imports, cells, false, name)?;
        Ok(number)
    }
}

/// What a symbol of a shared output means that stands on no import: the cell of its address, or nothing.
fn foreign(
    alloc: Global,
    known: Known<'_>,
    found: &mut Found,
    name: u32,
    uses: NameUses,
    symbol: SymbolRef<'_>,
) -> Result<Meaning, OutOfMemory>
    requires mode { known.mode ≡ modes.Shared }
    requires found { FoundBy known found.old }
    requires name { name < length known.entries.names.now.names }
    ensures { IfOk result (λ told. (e : InputSymbol) → e.symbol ≡ symbol_seen symbol.entry
        → slice_get known.entry.entries.names.now.names name ≡ Some (name_of e) → UsesTold known.entry uses e
        → Finds known.entry told (lacked known.entry e) found.old found.new) }
{
    if is_address(symbol, uses) {
        let number = found.cell(alloc, known, name, is_function(symbol))?;
        return Ok(Meaning::Import(number));
    }
    Ok(Meaning::Nothing)
}

/// What a symbol means whose name has no winner, and that stands on no import.
fn lacking(
    alloc: Global,
    known: Known<'_>,
    found: &mut Found,
    name: u32,
    uses: NameUses,
    symbol: SymbolRef<'_>,
) -> Result<Meaning, OutOfMemory>
    requires found { FoundBy known found.old }
    requires name { name < length known.entries.names.now.names }
    ensures { IfOk result (λ told. (e : InputSymbol) → e.symbol ≡ symbol_seen symbol.entry
        → slice_get known.entry.entries.names.now.names name ≡ Some (name_of e) → UsesTold known.entry uses e
        → Finds known.entry told (lacked known.entry e) found.old found.new) }
{
    match known.mode {
        Mode::Plain => Ok(absent(symbol)),
        Mode::Shared => foreign(alloc, known, found, name, uses, symbol),
    }
}

/// What a symbol means.
pub(crate) fn meaning_of(
    alloc: Global,
    known: Known<'_>,
    found: &mut Found,
    object: u32,
    place: u32,
) -> Result<Meaning, OutOfMemory>
    requires known { IsKnown known }
    requires found { FoundBy known found.old }
    requires there { IsSome (entry_at known.entries.objects.now object place) }
    ensures { IfOk result (λ told. (e : InputSymbol) → entry_at known.entry.entries.objects.now object place ≡ Some e
        → Finds known.entry told (meant known.entry e) found.old found.new) }
{
    let Some(entry) = known.entries.entry(object, place) else {
        unreachable!()
    };
    let Some(name) = entry.number else {
        return Ok(itself(entry));
    };
    if let Some(rank) = known.winners.of(name) {
        return Ok(definition(rank));
    }
    let column = known.columns[name as usize];
    let uses = uses_at(known.uses, name);
    match source(column, may_stand(known, column, uses, entry.symbol)) {
        Some(at) => Ok(Meaning::Import(found.number(alloc, known, name, at)?)),
        None => {
            let told = lacking(alloc, known, found, name, uses, entry.symbol)?;
            Ok(told)
        }
    }
}

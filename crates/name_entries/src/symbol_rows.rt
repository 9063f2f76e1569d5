//! What is looked up of the symbols of all objects, a row each. A row is made once and looked up often, where the object itself would be
//! reached through several pieces of memory each time.
ghost use Rattle.std.specs.Prelude.{◌≡◌, ◌-◌, ◌<◌, [], length, slice_index_or, OnOk, IfOk};
ghost use Rattle.link_names.specs.Numbered.{number_seen};
ghost use Rattle.name_rules.specs.object_file.object_columns.Seen.{symbol_seen};
ghost use Rattle.name_rules.specs.object_file.object_rules.Spaces.{ArePlaces};
ghost use Rattle.name_rules.specs.object_file.Spaces.{no_type, written_type, function_types};
ghost use Rattle.name_rules.specs.Entries.{index_in, type_in};
ghost use Rattle.name_entries.specs.Parts.{ArePartsOf};
ghost use Rattle.name_entries.specs.Rows.{type_told, IsImportAt, Tells, AreRowsOf};

use crate::parts::ObjectParts;
use crate::spaces::{global_type, place_at, type_index};
use link_names::Names;
use name_rules::{ImportPlaces, Object, SymbolKind, SymbolRef};
use wasm_types::{GlobalType, ValType};
use wl_base::{InputId, OutOfMemory, Seq};

/// In a row: there is no such place or number.
pub(crate) const NONE: u32 = u32::MAX;

/// What is looked up of a symbol.
#[derive(Clone, Copy, Debug)]
pub struct EntryRow {
    /// The number of its object among the inputs.
    pub(crate) input: InputId,
    /// The number of its name, where it is an entry of one, or `NONE`.
    pub(crate) number: u32,
    pub(crate) flags: u32,
    /// Which of the definitions of its kind it names.
    pub(crate) index: u32,
    /// Where a datum begins in its segment, in bytes.
    pub(crate) offset: u32,
    /// The type of a function, by its index in the object.
    pub(crate) type_index: u32,
    /// Where the import that it stands on is among the object's imports, or `NONE`.
    pub(crate) import: u32,
    /// The type of a global.
    pub(crate) global: GlobalType,
    pub(crate) kind: SymbolKind,
    pub(crate) defines: bool,
}

// A link keeps one for each symbol of its objects.
const _: () = prove!(size_of::<EntryRow>() == 32);

/// The type of a symbol: of a function the index of its type, of a global its type.
#[derive(Clone, Copy)]
struct RowType {
    index: u32,
    global: GlobalType,
}

/// A number as a row has it; 2^32 or more are answered as want of memory.
fn few(number: usize) -> Result<u32, OutOfMemory>
    ensures { IfOk result (λ few. few ≡ number) }
{
    match u32::try_from(number) {
        Ok(few) => Ok(few),
        Err(_) => Err(OutOfMemory),
    }
}

/// An index without so many imports, which come first.
fn without(index: u32, imports: usize) -> u32
    ensures { result ≡ index - imports }
{
    (index as usize).saturating_sub(imports) as u32
}

/// Which of the definitions of its kind a symbol names.
fn index_of(from: &Object, imports: &ImportPlaces, symbol: SymbolRef<'_>) -> u32
    requires { ArePlaces from.now.imports imports.now }
    ensures { result ≡ index_in from.now (symbol_seen symbol.entry) symbol.entry.kind }
{
    match symbol.kind {
        SymbolKind::Function => without(symbol.index, imports.functions.len()),
        SymbolKind::GlobalVar => without(symbol.index, imports.globals.len()),
        SymbolKind::Datum | SymbolKind::Section | SymbolKind::Table => symbol.index,
    }
}

/// Where the import is that a symbol stands on.
fn import_of(
    from: &Object,
    imports: &ImportPlaces,
    symbol: SymbolRef<'_>,
) -> Result<u32, OutOfMemory>
    requires places { ArePlaces from.now.imports imports.now }
    requires few { length from.now.imports < 4294967295 }
    ensures { IfOk result (IsImportAt from.now (symbol_seen symbol.entry)) }
{
    match place_at(imports.of_kind(symbol.kind), symbol.index) {
        Some(at) => {
            let at = few(at)?;
            Ok(at)
        }
        None => Ok(NONE),
    }
}

/// The number of a name as a row has it. No name has the number `NONE`; one that had it would be answered as want of memory.
fn number_of(number: Option<u32>) -> Result<u32, OutOfMemory>
    ensures { IfOk result (λ n. number_seen n ≡ number) }
{
    match number {
        None => Ok(NONE),
        Some(NONE) => Err(OutOfMemory),
        Some(number) => Ok(number),
    }
}

/// The index of the type of a function, by the function's index; `NONE`, where there is no type, if there is no such function.
fn function_type(from: &Object, places: &ImportPlaces, index: u32) -> u32
    requires places { ArePlaces from.now.imports places.now }
    requires few { length from.now.types < 4294967295 }
    ensures { written_type from.now result ≡ slice_index_or (function_types from.now) index no_type }
{
    match type_index(from, places, index) {
        Some(written) => written,
        None => NONE,
    }
}

/// The type of a symbol.
fn type_in(from: &Object, places: &ImportPlaces, symbol: SymbolRef<'_>) -> RowType
    requires places { ArePlaces from.now.imports places.now }
    requires few { length from.now.types < 4294967295 }
    ensures { type_told from.now result.index result.global symbol.entry.kind ≡ type_in from.now (symbol_seen symbol.entry) symbol.entry.kind }
{
    let none = GlobalType {
        kind: ValType::I32,
        var: false,
    };
    match symbol.kind {
        SymbolKind::Function => RowType {
            index: function_type(from, places, symbol.index),
            global: none,
        },
        SymbolKind::GlobalVar => RowType {
            index: NONE,
            global: global_type(from, places, symbol.index),
        },
        SymbolKind::Datum | SymbolKind::Section | SymbolKind::Table => RowType {
            index: NONE,
            global: none,
        },
    }
}

/// The row of a symbol, of which this is the number of its name.
fn row_of(
    objects: &[Object],
    from: &Object,
    parts: &ObjectParts,
    number: Option<u32>,
    symbol: SymbolRef<'_>,
) -> Result<EntryRow, OutOfMemory>
    requires parts { ArePartsOf objects.now from.now parts.now }
    requires imports { length from.now.imports < 4294967295 }
    requires types { length from.now.types < 4294967295 }
    ensures { IfOk result (Tells objects.now from.now number (symbol_seen symbol.entry)) }
{
    let number = number_of(number)?;
    let import = import_of(from, &parts.imports, symbol)?;
    let kind = type_in(from, &parts.imports, symbol);
    Ok(EntryRow {
        input: from.input,
        number,
        flags: symbol.flags,
        index: index_of(from, &parts.imports, symbol),
        offset: symbol.offset,
        type_index: kind.index,
        import,
        global: kind.global,
        kind: symbol.kind,
        defines: parts.defines(symbol),
    })
}

/// The rows of an object, which has this place among the objects, in place of those that the list has.
pub(crate) fn fill_rows(
    rows: &mut Seq<EntryRow>,
    objects: &[Object],
    object: u32,
    from: &Object,
    parts: &ObjectParts,
    names: &Names,
) -> Result<(), OutOfMemory>
    requires parts { ArePartsOf objects.now from.now parts.now }
    ensures { OnOk result (AreRowsOf objects.now from.now (slice_index_or names.now.symbols object []) rows.new) }
{
    rows.truncate(0);
    if from.imports.len() >= NONE as usize || from.types.len() >= NONE as usize {
        return Err(OutOfMemory);
    }
    for place in 0..few(from.symbols.len())? {
        let Some(symbol) = from.symbols.get(place as usize) else {
            unreachable!()
        };
        let number = names.symbol(object, place);
        rows.push(row_of(objects, from, parts, number, symbol)?)?;
    }
    Ok(())
}

//! The index spaces of an object.
ghost use Rattle.std.specs.Prelude.{◌≡◌, ◌≤◌, length, filter_map, IfOk};
ghost use Rattle.object_rules.specs.Spaces.{is_of, imports_of, imported_type, function_types, counts_of, places_in, HoldPlaces, ArePlaces};

use object_parts::{Import, ImportKind, Parts, SectionSpan, SymbolKind};
use std::alloc::Global;
use wl_base::{OutOfMemory, Seq};

/// How many there are of each, what is imported included (Core 2.5.1).
#[derive(Clone, Copy, Debug, PartialEq, Eq)]
pub struct Counts {
    pub types: usize,
    pub imported_functions: usize,
    /// The imported functions and the defined ones.
    pub functions: usize,
    pub imported_globals: usize,
    /// The imported globals and the defined ones.
    pub globals: usize,
    /// The tables, all of which are imported.
    pub tables: usize,
    /// The data segments.
    pub segments: usize,
    /// All sections, custom ones too.
    pub sections: usize,
}

/// Where the imports of each kind stand among all imports: an index below their number is that of
/// an import.
#[derive(Debug, Drop)]
pub struct ImportPlaces {
    pub functions: Seq<usize>,
    pub tables: Seq<usize>,
    pub globals: Seq<usize>,
}

/// Whether an import is what a symbol of this kind names by an index.
fn is_of(kind: SymbolKind, import: &ImportKind) -> bool
    ensures { result ≡ is_of kind import.now }
{
    match kind {
        SymbolKind::Function => matches!(import, ImportKind::Function(_)),
        SymbolKind::GlobalVar => matches!(import, ImportKind::GlobalVar(_)),
        SymbolKind::Table => matches!(import, ImportKind::Table(_)),
        SymbolKind::Datum | SymbolKind::Section => false,
    }
}

fn count_of(kind: SymbolKind, imports: &[Import]) -> usize
    ensures value { result ≡ length (imports_of kind imports.now) }
    ensures within { result ≤ length imports.now }
{
    imports
        .iter()
        .filter(|import| is_of(kind, &import.kind))
        .count()
}

impl Counts {
    /// The counts of an object of these sections and parts.
    pub fn of(all: &[SectionSpan], parts: &Parts) -> Self
        ensures { result ≡ counts_of all.now parts.now }
    {
        let imports = parts.imports.as_slice();
        let functions = parts.functions.as_slice();
        let globals = parts.globals.as_slice();
        let imported_functions = count_of(SymbolKind::Function, imports);
        let imported_globals = count_of(SymbolKind::GlobalVar, imports);
        Counts {
            types: parts.types.len(),
            imported_functions,
            functions: imported_functions + functions.len(),
            imported_globals,
            globals: imported_globals + globals.len(),
            tables: count_of(SymbolKind::Table, imports),
            segments: parts.segments.len(),
            sections: all.len(),
        }
    }
}

/// Where the imports of one kind stand.
fn places_of(alloc: Global, kind: SymbolKind, imports: &[Import]) -> Result<Seq<usize>, OutOfMemory>
    ensures { IfOk result (λ places. HoldPlaces imports.now kind places) }
{
    let mut places = Seq::new(alloc);
    for (at, import) in imports.iter().enumerate() {
        if is_of(kind, &import.kind) {
            places.push(at)?;
        }
    }
    Ok(places)
}

impl ImportPlaces {
    /// The places of these imports.
    pub fn of(alloc: Global, imports: &[Import]) -> Result<Self, OutOfMemory>
        ensures { IfOk result (λ places. ArePlaces imports.now places) }
    {
        let functions = places_of(alloc, SymbolKind::Function, imports)?;
        let tables = places_of(alloc, SymbolKind::Table, imports)?;
        let globals = places_of(alloc, SymbolKind::GlobalVar, imports)?;
        Ok(ImportPlaces {
            functions,
            tables,
            globals,
        })
    }

    /// The places of the imports that symbols of this kind name.
    pub fn of_kind(&self, kind: SymbolKind) -> &[usize]
        ensures { result.now ≡ places_in self.now kind }
    {
        match kind {
            SymbolKind::Function => self.functions.as_slice(),
            SymbolKind::GlobalVar => self.globals.as_slice(),
            SymbolKind::Table => self.tables.as_slice(),
            SymbolKind::Datum | SymbolKind::Section => &[],
        }
    }
}

fn imported_types(alloc: Global, imports: &[Import]) -> Result<Seq<u32>, OutOfMemory>
    ensures { IfOk result (λ types. types ≡ filter_map (λ i. imported_type i.kind) imports.now) }
{
    let mut types = Seq::new(alloc);
    for import in imports {
        if let ImportKind::Function(index) = import.kind {
            types.push(index)?;
        }
    }
    Ok(types)
}

/// The index of the type of each function, by the function's index (Core 2.5.1).
pub fn function_types(alloc: Global, parts: &Parts) -> Result<Seq<u32>, OutOfMemory>
    ensures { IfOk result (λ types. types ≡ function_types parts.now) }
{
    let mut types = imported_types(alloc, parts.imports.as_slice())?;
    types.extend_from_slice(parts.functions.as_slice())?;
    Ok(types)
}

//! The imports of the object: the memory, then one for each open function and global and one for all open tables, in the order of symbols.
ghost use Rattle.std.specs.Prelude.{◌≡◌, ◌++◌, ◌∷◌, [], Some, false, map, filter, filter_map, option_map, IfOk, OnOk};
ghost use Rattle.std.specs.List.{cons_option};
ghost use Rattle.partial_tree.specs.link_program.made_symbols.declared.mode.Mode.TheVariants.{Plain};
ghost use Rattle.partial_tree.specs.link_program.name_entries.Fits.{FitsObjects};
ghost use Rattle.partial_tree.specs.link_program.link_rules.Program.{Program as Rules};
ghost use Rattle.partial_tree.specs.link_program.declared.program.Program.{Program as Data};
ghost use Rattle.partial_tree.specs.link_program.Program.{IsProgramOf};
ghost use Rattle.partial_tree.specs.partial_rules.Partial as partial;
ghost use Rattle.partial_tree.specs.partial_rules.Partial.{memory_import};
ghost use Rattle.partial_tree.specs.partial_symbols.Known.{symbol_there, import_there};
ghost use Rattle.partial_types.specs.partial_imports.Opens.{open_seen, told_open};
ghost use Rattle.partial_items.specs.Imports.{kind_there, import_with, own_import, import_by, import_told, spot_at, table_at, first_table, same_spot, takes_import, import_if};

use crate::numbers::TypeNumbers;
use linking_section::SymbolKind;
use partial_tree::{At, Entries, Spot, TypeRef};
use partial_types::Open;
use std::alloc::Global;
use wasm_types::{Import, ImportKind, Limits, TableType};
use wl_base::{OutOfMemory, Seq};

/// No least size, and no greatest one.
fn any_size() -> Limits
    ensures { result ≡ record { min = 0; max = None } }
{
    Limits { min: 0, max: None }
}

/// The import of the memory.
fn memory(alloc: Global) -> Result<Import, OutOfMemory>
    ensures { IfOk result (λ i. i ≡ memory_import) }
{
    let module = Seq::from_slice(alloc, b"env".as_slice())?;
    let field = Seq::from_slice(alloc, b"__linear_memory".as_slice())?;
    Ok(Import {
        module,
        field,
        kind: ImportKind::Memory(any_size()),
    })
}

/// What an import is that has the type of the symbol at a place.
fn kind_of(
    numbers: &mut TypeNumbers,
    entries: Entries<'_>,
    at: At,
) -> Result<ImportKind, OutOfMemory>
    requires { FitsObjects entries }
    ensures types { OnOk result (numbers.new ≡ numbers.old) }
    ensures kind { IfOk result (λ k. k ≡ kind_there numbers.old entries.entry.objects.now at) }
{
    match entries.type_of(at.object, at.place) {
        Some(TypeRef::Function(t)) => {
            let number = numbers.number(t.params, t.results)?;
            Ok(ImportKind::Function(number))
        }
        Some(TypeRef::GlobalVar(t)) => Ok(ImportKind::GlobalVar(t)),
        Some(TypeRef::Untyped) | None => Ok(ImportKind::Table(TableType {
            funcref: true,
            limits: any_size(),
        })),
    }
}

/// The import on which the symbol at a place stands.
fn import_from(
    alloc: Global,
    entries: Entries<'_>,
    at: At,
    kind: ImportKind,
) -> Result<Option<Import>, OutOfMemory>
    requires { FitsObjects entries }
    ensures { IfOk result (λ i. i ≡ option_map (import_with kind) (import_there entries.entry.objects.now at)) }
{
    if entries.entry(at.object, at.place).is_none() {
        return Ok(None);
    }
    let Some(import) = entries.import_of(at.object, at.place) else {
        return Ok(None);
    };
    let module = Seq::from_slice(alloc, import.module)?;
    let field = Seq::from_slice(alloc, import.field)?;
    Ok(Some(Import {
        module,
        field,
        kind,
    }))
}

/// The import of the name of the symbol at a place.
fn own_import(
    alloc: Global,
    entries: Entries<'_>,
    at: At,
    kind: ImportKind,
) -> Result<Option<Import>, OutOfMemory>
    requires { FitsObjects entries }
    ensures { IfOk result (λ i. i ≡ option_map (own_import kind) (symbol_there entries.entry.objects.now at)) }
{
    let Some(entry) = entries.entry(at.object, at.place) else {
        return Ok(None);
    };
    let module = Seq::from_slice(alloc, b"env".as_slice())?;
    let field = Seq::from_slice(alloc, entry.symbol.name.unwrap_or(&[]))?;
    Ok(Some(Import {
        module,
        field,
        kind,
    }))
}

/// The import of an open name.
fn import_of(
    alloc: Global,
    numbers: &mut TypeNumbers,
    entries: Entries<'_>,
    found: Open,
) -> Result<Option<Import>, OutOfMemory>
    requires { FitsObjects entries }
    ensures types { OnOk result (numbers.new ≡ numbers.old) }
    ensures import { IfOk result (λ i. i ≡ import_told numbers.old entries.entry.objects.now found) }
{
    let kind = kind_of(numbers, entries, found.import.unwrap_or(found.at))?;
    match found.import {
        Some(at) => import_from(alloc, entries, at, kind),
        None => own_import(alloc, entries, found.at, kind),
    }
}

/// The symbol at a place, by its input.
fn spot_at(entries: Entries<'_>, at: At) -> Option<Spot>
    requires { FitsObjects entries }
    ensures { result ≡ spot_at entries.entry.objects.now at }
{
    let Some(entry) = entries.entry(at.object, at.place) else {
        return None;
    };
    Some(Spot {
        input: entry.input,
        place: entry.place,
    })
}

/// The same, where it is one of a table.
fn table_at(entries: Entries<'_>, at: At) -> Option<Spot>
    requires { FitsObjects entries }
    ensures { result ≡ table_at entries.entry.objects.now at }
{
    let Some(entry) = entries.entry(at.object, at.place) else {
        return None;
    };
    if entry.symbol.kind.code() != SymbolKind::Table.code() {
        return None;
    }
    Some(Spot {
        input: entry.input,
        place: entry.place,
    })
}

/// The first symbol of a table.
fn first_table(entries: Entries<'_>, symbols: &[At]) -> Option<Spot>
    requires { FitsObjects entries }
    ensures { result ≡ first_table entries.entry.objects.now symbols.now }
{
    for at in symbols {
        if let Some(spot) = table_at(entries, *at) {
            return Some(spot);
        }
    }
    None
}

fn same_spot(one: Option<Spot>, other: Option<Spot>) -> bool
    ensures { result ≡ same_spot one other }
{
    let Some(one) = one else {
        return false;
    };
    match other {
        Some(other) => one.input == other.input && one.place == other.place,
        None => false,
    }
}

/// Whether a symbol of this kind has an import of its own: of the tables only the first one.
fn takes_import(table: Option<Spot>, own: Option<Spot>, kind: SymbolKind) -> bool
    ensures { result ≡ takes_import table own kind }
{
    match kind {
        SymbolKind::Function | SymbolKind::GlobalVar => true,
        SymbolKind::Datum | SymbolKind::Section => false,
        SymbolKind::Table => same_spot(own, table),
    }
}

/// The import of an open name, where it has one of its own.
fn import_if(
    alloc: Global,
    numbers: &mut TypeNumbers,
    entries: Entries<'_>,
    table: Option<Spot>,
    found: Open,
) -> Result<Option<Import>, OutOfMemory>
    requires { FitsObjects entries }
    ensures types { OnOk result (numbers.new ≡ numbers.old) }
    ensures import { IfOk result (λ i. i ≡ import_if numbers.old entries.entry.objects.now table found) }
{
    if !takes_import(table, spot_at(entries, found.at), found.kind) {
        return Ok(None);
    }
    import_of(alloc, numbers, entries, found)
}

/// Puts an import behind others, where there is one.
fn put(imports: &mut Seq<Import>, found: Option<Import>) -> Result<(), OutOfMemory>
    ensures { OnOk result (imports.new ≡ imports.old ++ cons_option found []) }
{
    if let Some(import) = found {
        imports.push(import)?;
    }
    Ok(())
}

/// The memory, and the imports of open names.
fn imports_in(
    alloc: Global,
    numbers: &mut TypeNumbers,
    entries: Entries<'_>,
    table: Option<Spot>,
    opens: &[Open],
) -> Result<Seq<Import>, OutOfMemory>
    requires { FitsObjects entries }
    ensures types { OnOk result (numbers.new ≡ numbers.old) }
    ensures imports { IfOk result (λ is. is ≡ memory_import ∷ filter_map (import_if numbers.old entries.entry.objects.now table) opens.now) }
{
    let mut imports = Seq::new(alloc);
    imports.push(memory(alloc)?)?;
    for found in opens {
        let import = import_if(alloc, numbers, entries, table, *found)?;
        put(&mut imports, import)?;
    }
    Ok(imports)
}

/// The imports of the object that a partial link makes of a program, by its open names, its symbols and its types. `entries` is the view
/// of the program's objects.
pub fn imports_of(
    alloc: Global,
    numbers: &mut TypeNumbers,
    entries: Entries<'_>,
    opens: &[Open],
    symbols: &[At],
) -> Result<Seq<Import>, OutOfMemory>
    requires { FitsObjects entries }
    ensures types { OnOk result (numbers.new ≡ numbers.old) }
    ensures imports { IfOk result (λ is. (p : Rules) → p.objects ≡ entries.entry.objects.now → numbers.old ≡ partial.types p
        → map (symbol_there p.objects) symbols.now ≡ map Some (partial.standing p)
        → map (open_seen p.objects) opens.now ≡ map (told_open p) (filter (partial.is_open p) (partial.standing p)) → is ≡ (partial.relocatable p).imports) }
{
    let table = first_table(entries, symbols);
    let imports = imports_in(alloc, numbers, entries, table, opens)?;
    Ok(imports)
}

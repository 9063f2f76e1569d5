//! The imports that may be absent when a shared output is loaded: those that live parts use by a name of which all entries are WEAK. A window uses the
//! import that it calls or reads, or the cell from which it takes an address.
ghost use Rattle.std.specs.Prelude.{◌≡◌, Some, fold, map, flat_map, length, slice_get, slice_index_or, [], IfOk};
ghost use Rattle.std.specs.List.{list_all};
ghost use Rattle.link_program.specs.object_columns.Seen.{symbol_seen};
ghost use Rattle.link_layout.specs.link_numbers.link_keys.Noted.{flagged};
ghost use Rattle.link_program.specs.made_symbols.declared.mode.Mode.TheVariants.{Shared};
ghost use Rattle.link_program.specs.made_symbols.Made.{made};
ghost use Rattle.link_loader.specs.Weak.{flag_at, strong_of, noted_at, strong_row, object_row, strong_rows, strong_names, taken, weak_by, weak_use, part_uses, is_strong, weak_seen};

use crate::cells::{cell_at, is_addressed};
use link_program::{Lead, Named, Names, Object, Program, Symbol, SymbolRef, row_at, symbol_at};
use linking_section::SymbolKind;
use made_symbols::{Mode, count};
use reloc_section::kinds;
use std::alloc::Global;
use wl_base::OutOfMemory;

// Flags a number, if there is one.
fn flag(flags: &mut [bool], number: Option<u32>)
    ensures { flags.new ≡ flagged flags.old number }
{
    if let Some(number) = number {
        if (number as usize) < flags.len() {
            flags[number as usize] = true;
        }
    }
}

/// The flag of a number.
#[tactic(auto, using(link_program::proofs::ReadAt::read))]
pub(crate) fn flag_at(flags: &[bool], number: u32) -> bool
    ensures { result ≡ flag_at flags.now number }
{
    match flags.get(number as usize) {
        Some(flag) => *flag,
        None => false,
    }
}

// Flags a name that a symbol has, unless it is WEAK.
fn note_symbol(flags: &mut [bool], number: Option<u32>, symbol: SymbolRef<'_>)
    ensures { flags.new ≡ flagged flags.old (strong_of number (symbol_seen symbol.entry)) }
{
    if !symbol.is_weak() {
        flag(flags, number);
    }
}

// Flags the name of the symbol at a place of an object, unless it is WEAK.
fn note_place(flags: &mut [bool], number: Option<u32>, of: &Object, place: u32)
    ensures { flags.new ≡ noted_at flags.old number (slice_get of.now.symbols place) }
{
    if let Some(symbol) = of.symbols.get(place as usize) {
        note_symbol(flags, number, symbol);
    }
}

// Flags the names of an object's entries that aren't WEAK.
#[tactic(auto, using(crate::proofs::Flagged::row_next, crate::proofs::Flagged::row_past))]
fn note_object(flags: &mut [bool], names: &Names, object: u32, of: &Object)
    ensures { flags.new ≡ fold flagged flags.old (strong_row (slice_index_or names.now.symbols object []) of.now.symbols) }
{
    for place in 0..names.symbols(object) {
        note_place(flags, names.symbol(object, place), of, place);
    }
}

// The same of the object at a place, if there is one.
fn note_nth(flags: &mut [bool], names: &Names, objects: &[Object], at: u32)
    ensures { flags.new ≡ fold flagged flags.old (object_row (slice_index_or names.now.symbols at []) (slice_get objects.now at)) }
{
    if let Some(object) = objects.get(at as usize) {
        note_object(flags, names, at, object);
    }
}

// The same of so many objects.
#[tactic(auto, using(crate::proofs::Flagged::rows_next, crate::proofs::Flagged::rows_past))]
fn note_objects(flags: &mut [bool], names: &Names, objects: &[Object], count: u32)
    requires { length objects.now ≡ count }
    ensures { flags.new ≡ fold flagged flags.old (strong_rows names.now.symbols objects.now) }
{
    for at in 0..count {
        note_nth(flags, names, objects, at);
    }
}

// Flags the names of the linker's own symbols, none of which is WEAK.
#[tactic(auto, using(crate::proofs::Flagged::made_more, crate::proofs::Flagged::made_ended))]
fn note_made(flags: &mut [bool], names: &Names, count: u32)
    requires { length names.now.made ≡ count }
    ensures { flags.new ≡ fold flagged flags.old (map Some names.now.made) }
{
    for k in 0..count {
        flag(flags, names.made(k));
    }
}

// By the number of a name, whether some entry of it isn't WEAK.
fn strong_names(alloc: Global, names: &Names, objects: &[Object]) -> Result<Vec<bool>, OutOfMemory>
    requires { length names.now.made ≡ length (made Shared) }
    ensures { IfOk result (λ flags. flags.items ≡ strong_names (length names.now.names) names.now.made names.now.symbols objects.now) }
{
    let Ok(all) = u32::try_from(objects.len()) else {
        return Err(OutOfMemory);
    };
    let mut flags = vec![in alloc; false; names.count() as usize]?;
    note_made(flags.as_mut_slice(), names, count(Mode::Shared));
    note_objects(flags.as_mut_slice(), names, objects, all);
    Ok(flags)
}

// Of an imported symbol, by the type of a window's relocation: the import itself where it is called or a global, else the cell of its address.
fn taken(program: Program<'_>, kind: u8, at: u32, symbol: Symbol, number: u32) -> Option<u32>
    ensures { result ≡ taken program.entry.resolution.now.cells kind at symbol number }
{
    if kind == kinds::FUNCTION_INDEX_LEB || symbol.kind == SymbolKind::GlobalVar {
        Some(number)
    } else if is_addressed(symbol) {
        Some(cell_at(program.resolution, at, symbol))
    } else {
        None
    }
}

// The import that a window uses, if all entries of its symbol's name are WEAK. `strong` flags the names of which some entry isn't.
fn weak_by(program: Program<'_>, strong: &[bool], kind: u8, at: u32, symbol: Symbol) -> Option<u32>
    ensures { result ≡ weak_by strong.now program.entry.resolution.now.cells kind at symbol symbol.lead symbol.name }
{
    let Lead::Import(number) = symbol.lead else {
        return None;
    };
    let Some(name) = symbol.name else {
        return None;
    };
    if flag_at(strong, name) {
        None
    } else {
        taken(program, kind, at, symbol, number)
    }
}

// The same, by the window.
fn weak_use(program: Program<'_>, strong: &[bool], named: Named) -> Option<u32>
    ensures { result ≡ weak_use strong.now program.entry.resolution.now.cells program.entry.tables.now.symbols named }
{
    match named {
        Named::Symbol {
            kind,
            place: _,
            addend: _,
            symbol: at,
        } => {
            let symbol = symbol_at(program.tables.symbols.as_slice(), at);
            weak_by(program, strong, kind, at, symbol)
        }
        Named::Type {
            place: _,
            number: _,
        } => None,
    }
}

// Flags the imports that a part uses so.
fn note_row(flags: &mut [bool], program: Program<'_>, strong: &[bool], row: &[Named])
    ensures { flags.new ≡ fold flagged flags.old (map (weak_use strong.now program.entry.resolution.now.cells program.entry.tables.now.symbols) row.now) }
{
    for named in row {
        flag(flags, weak_use(program, strong, *named));
    }
}

// The same, by the part's number.
fn note_part(flags: &mut [bool], program: Program<'_>, strong: &[bool], number: u32)
    ensures { flags.new ≡ fold flagged flags.old (part_uses strong.now program.entry.resolution.now.cells program.entry.tables.now number) }
{
    note_row(flags, program, strong, row_at(program.tables, number));
}

// The same of these parts.
#[tactic(auto, using(crate::proofs::Flagged::folded))]
fn note_parts(flags: &mut [bool], program: Program<'_>, strong: &[bool], live: &[u32])
    ensures { flags.new ≡ fold flagged flags.old (flat_map (part_uses strong.now program.entry.resolution.now.cells program.entry.tables.now) live.now) }
{
    for number in live {
        note_part(flags, program, strong, *number);
    }
}

// Whether a symbol isn't imported, or some entry of its name isn't WEAK.
fn is_strong(strong: &[bool], symbol: Symbol) -> bool
    ensures { result ≡ is_strong strong.now symbol.lead symbol.name }
{
    let Lead::Import(_) = symbol.lead else {
        return true;
    };
    match symbol.name {
        Some(name) => flag_at(strong, name),
        None => true,
    }
}

// Whether that is so of all symbols. Then no window has to be looked at.
fn all_are_strong(strong: &[bool], symbols: &[Symbol]) -> bool
    ensures { result ≡ list_all (λ s. is_strong strong.now s.lead s.name) symbols.now }
{
    symbols.iter().all(
        |symbol: &Symbol| -> bool
            ensures { result ≡ is_strong strong.entry.now symbol.now.lead symbol.now.name }
        { is_strong(strong, *symbol) },
    )
}

// Flags the imports that live parts use so.
fn note_live(flags: &mut [bool], program: Program<'_>, strong: &[bool], live: &[u32])
    ensures { flags.new ≡ fold flagged flags.old (flat_map (part_uses strong.now program.entry.resolution.now.cells program.entry.tables.now) live.now) }
{
    if all_are_strong(strong, program.tables.symbols.as_slice()) {
        return;
    }
    note_parts(flags, program, strong, live);
}

/// By the number of an import, whether live parts use it by a name of which all entries are WEAK.
pub(crate) fn weak_imports(
    alloc: Global,
    program: Program<'_>,
    live: &[u32],
) -> Result<Vec<bool>, OutOfMemory>
    requires { length program.names.now.made ≡ length (made Shared) }
    ensures { IfOk result (λ flags. flags.items ≡ weak_seen program.entry live.now) }
{
    let strong = strong_names(alloc, program.names, program.objects)?;
    let mut flags = vec![in alloc; false; program.resolution.imports() as usize]?;
    note_live(flags.as_mut_slice(), program, strong.as_slice(), live);
    Ok(flags)
}

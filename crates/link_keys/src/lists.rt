//! The lists of keys.
ghost use Rattle.std.specs.Prelude.{◌≡◌, ◌<◌, ◌++◌, ◌∷◌, [], map, length, filter, filter_map, slice_get, OnOk, IfOk};
ghost use Rattle.std.specs.List.{cons_option};
ghost use Rattle.link_program.specs.declared.keys.FunctionKey.TheVariants as functions;
ghost use Rattle.link_program.specs.declared.keys.GlobalKey.TheVariants as globals;
ghost use Rattle.link_keys.specs.Codes.{function_code, global_code};
ghost use Rattle.link_keys.specs.Lists.{flag_at, is_function_import, is_global_import, function_imports, global_imports, is_own, own_function_in, own_global_in, own_functions, own_globals, stubs_listed, functions_listed, is_taken_code, slots_listed, datum_listed, globals_listed};

use crate::marks::Marks;
use crate::{Code, function_code, global_code};
use indexmap::IndexSet;
use link_program::{
    FunctionKey, GlobalKey, GotKey, ImportType, Program, Resolution, Tables, Winner, part_at,
};
use linking_section::SymbolKind;
use mark_bits::{Chunk, kinds as chunk_kinds};
use std::alloc::Global;
use wl_base::OutOfMemory;

/// The flag at a place.
#[tactic(auto, using(link_program::proofs::ReadAt::read))]
pub fn flag_at(flags: &[bool], at: u32) -> bool
    ensures { result ≡ flag_at flags.now at }
{
    match flags.get(at as usize) {
        Some(flag) => *flag,
        None => false,
    }
}

/// Whether an import is of a function.
pub(crate) fn is_function_import(resolution: &Resolution, number: u32) -> bool
    requires { number < length resolution.now.imports }
    ensures { result ≡ is_function_import (slice_get resolution.now.imports number) }
{
    match resolution.import_type(number) {
        ImportType::Function(_) => true,
        ImportType::GlobalVar(_, _) | ImportType::Untyped => false,
    }
}

/// Whether an import is of a global.
pub fn is_global_import(resolution: &Resolution, number: u32) -> bool
    requires { number < length resolution.now.imports }
    ensures { result ≡ is_global_import (slice_get resolution.now.imports number) }
{
    match resolution.import_type(number) {
        ImportType::GlobalVar(_, _) => true,
        ImportType::Function(_) | ImportType::Untyped => false,
    }
}

/// Puts the imported functions that are named behind the keys.
fn push_function_imports(
    keys: &mut Vec<FunctionKey>,
    resolution: &Resolution,
    flags: &[bool],
) -> Result<(), OutOfMemory>
    ensures { OnOk result (keys.new.items ≡ keys.old.items ++ map functions.Import (function_imports resolution.now.imports flags.now)) }
{
    for number in 0..resolution.imports() {
        if flag_at(flags, number) && is_function_import(resolution, number) {
            keys.push(FunctionKey::Import(number))?;
        }
    }
    Ok(())
}

/// Puts the imported globals that are named behind the keys.
fn push_global_imports(
    keys: &mut Vec<GlobalKey>,
    resolution: &Resolution,
    flags: &[bool],
) -> Result<(), OutOfMemory>
    ensures { OnOk result (keys.new.items ≡ keys.old.items ++ map globals.Import (global_imports resolution.now.imports flags.now)) }
{
    for number in 0..resolution.imports() {
        if flag_at(flags, number) && is_global_import(resolution, number) {
            keys.push(GlobalKey::Import(number))?;
        }
    }
    Ok(())
}

/// Whether a chunk is of a kind, and of the linker or of an object.
pub(crate) fn is_own(kind: u8, linkers: bool, chunk: Chunk) -> bool
    ensures { result ≡ is_own kind linkers chunk }
{
    let made = if linkers {
        chunk.input == 0
    } else {
        chunk.input != 0
    };
    chunk.kind == kind && made
}

/// Puts a function behind the keys, if the chunk is one of the linker's or of an object's.
fn push_own_function(
    keys: &mut Vec<FunctionKey>,
    linkers: bool,
    chunk: Chunk,
) -> Result<(), OutOfMemory>
    ensures { OnOk result (keys.new.items ≡ keys.old.items ++ cons_option (own_function_in linkers chunk) []) }
{
    if is_own(chunk_kinds::FUNCTION, linkers, chunk) {
        keys.push(FunctionKey::Own {
            input: chunk.input,
            index: chunk.index,
        })?;
    }
    Ok(())
}

/// Puts a global behind the keys, if the chunk is one of the linker's or of an object's.
fn push_own_global(
    keys: &mut Vec<GlobalKey>,
    linkers: bool,
    chunk: Chunk,
) -> Result<(), OutOfMemory>
    ensures { OnOk result (keys.new.items ≡ keys.old.items ++ cons_option (own_global_in linkers chunk) []) }
{
    if is_own(chunk_kinds::GLOBAL, linkers, chunk) {
        keys.push(GlobalKey::Own {
            input: chunk.input,
            index: chunk.index,
        })?;
    }
    Ok(())
}

/// Puts the live functions of the linker or of objects behind the keys.
fn push_own_functions(
    keys: &mut Vec<FunctionKey>,
    linkers: bool,
    tables: &Tables,
    live: &[u32],
) -> Result<(), OutOfMemory>
    ensures { OnOk result (keys.new.items ≡ keys.old.items ++ own_functions linkers tables.now live.now) }
{
    for number in live {
        let part = part_at(tables, *number);
        push_own_function(keys, linkers, part.chunk)?;
    }
    Ok(())
}

/// Puts the live globals of the linker or of objects behind the keys.
pub fn push_own_globals(
    keys: &mut Vec<GlobalKey>,
    linkers: bool,
    tables: &Tables,
    live: &[u32],
) -> Result<(), OutOfMemory>
    ensures { OnOk result (keys.new.items ≡ keys.old.items ++ own_globals linkers tables.now live.now) }
{
    for number in live {
        let part = part_at(tables, *number);
        push_own_global(keys, linkers, part.chunk)?;
    }
    Ok(())
}

/// Puts the stubs that are called behind the keys.
fn push_stubs(keys: &mut Vec<FunctionKey>, flags: &[bool], names: u32) -> Result<(), OutOfMemory>
    ensures { OnOk result (keys.new.items ≡ keys.old.items ++ map functions.Stub (stubs_listed flags.now names)) }
{
    for number in 0..names {
        if flag_at(flags, number) {
            keys.push(FunctionKey::Stub(number))?;
        }
    }
    Ok(())
}

/// The functions of the output.
pub fn functions_listed(
    alloc: Global,
    program: Program<'_>,
    live: &[u32],
    marks: &Marks,
) -> Result<Vec<FunctionKey>, OutOfMemory>
    ensures { IfOk result (λ keys. keys.items ≡ functions_listed program.entry.resolution.now.imports
        (length program.entry.names.now.names) program.entry.tables.now live.now marks.now) }
{
    let mut keys = Vec::new(alloc);
    let tables = program.tables;
    push_function_imports(&mut keys, program.resolution, marks.imports.as_slice())?;
    push_own_functions(&mut keys, true, tables, live)?;
    push_stubs(&mut keys, marks.stubs.as_slice(), program.names.count())?;
    push_own_functions(&mut keys, false, tables, live)?;
    Ok(keys)
}

/// Puts a function behind the keys, if it has a slot.
fn push_taken(
    keys: &mut Vec<FunctionKey>,
    taken: &IndexSet<Code>,
    key: FunctionKey,
) -> Result<(), OutOfMemory>
    ensures { OnOk result (keys.new.items ≡ keys.old.items ++ filter (is_taken_code taken.now.keys) (key ∷ [])) }
{
    if taken.contains(&function_code(key)) {
        keys.push(key)?;
    }
    Ok(())
}

/// Those of the functions that have slots.
fn slots_listed(
    alloc: Global,
    taken: &IndexSet<Code>,
    functions: &[FunctionKey],
) -> Result<Vec<FunctionKey>, OutOfMemory>
    ensures { IfOk result (λ keys. keys.items ≡ slots_listed taken.now.keys functions.now) }
{
    let mut keys = Vec::new(alloc);
    for key in functions {
        push_taken(&mut keys, taken, *key)?;
    }
    Ok(keys)
}

/// The functions that have slots, in their order.
pub fn slots_taken(
    alloc: Global,
    marks: &Marks,
    functions: &[FunctionKey],
) -> Result<Vec<FunctionKey>, OutOfMemory>
    ensures { IfOk result (λ slots. slots.items ≡ slots_listed marks.now.taken functions.now) }
{
    slots_listed(alloc, &marks.taken, functions)
}

/// Puts the cells of addresses behind the keys.
fn push_cells(keys: &mut Vec<GlobalKey>, cells: &[GotKey]) -> Result<(), OutOfMemory>
    ensures { OnOk result (keys.new.items ≡ keys.old.items ++ map globals.Got cells.now) }
{
    for cell in cells {
        keys.push(GlobalKey::Got(*cell))?;
    }
    Ok(())
}

/// The address of an exported datum.
fn datum_listed(winner: Winner) -> Option<GlobalKey>
    ensures { result ≡ datum_listed winner }
{
    match winner.definition.kind {
        SymbolKind::Datum => Some(GlobalKey::Datum(winner.definition)),
        SymbolKind::Function | SymbolKind::GlobalVar | SymbolKind::Section | SymbolKind::Table =>
            None,
    }
}

/// Puts the address of an export behind the keys, if it is a datum.
fn push_datum(keys: &mut Vec<GlobalKey>, winner: Winner) -> Result<(), OutOfMemory>
    ensures { OnOk result (keys.new.items ≡ keys.old.items ++ cons_option (datum_listed winner) []) }
{
    match datum_listed(winner) {
        Some(key) => {
            keys.push(key)?;
            Ok(())
        }
        None => Ok(()),
    }
}

/// Puts the addresses of exported data behind the keys.
pub fn push_data(keys: &mut Vec<GlobalKey>, exports: &[Winner]) -> Result<(), OutOfMemory>
    ensures { OnOk result (keys.new.items ≡ keys.old.items ++ filter_map datum_listed exports.now) }
{
    for winner in exports {
        push_datum(keys, *winner)?;
    }
    Ok(())
}

/// The globals of the output.
pub fn globals_listed(
    alloc: Global,
    program: Program<'_>,
    live: &[u32],
    exports: &[Winner],
    marks: &Marks,
) -> Result<Vec<GlobalKey>, OutOfMemory>
    ensures { IfOk result (λ keys. keys.items ≡ globals_listed program.entry.resolution.now.imports
        program.entry.tables.now live.now exports.now marks.now) }
{
    let mut keys = Vec::new(alloc);
    let tables = program.tables;
    push_global_imports(&mut keys, program.resolution, marks.imports.as_slice())?;
    push_own_globals(&mut keys, true, tables, live)?;
    push_own_globals(&mut keys, false, tables, live)?;
    push_cells(&mut keys, marks.cells.as_slice())?;
    push_data(&mut keys, exports)?;
    Ok(keys)
}

/// The codes of functions.
pub fn function_codes(alloc: Global, keys: &[FunctionKey]) -> Result<Vec<Code>, OutOfMemory>
    ensures { IfOk result (λ codes. codes.items ≡ map function_code keys.now) }
{
    let mut codes = Vec::with_capacity(alloc, keys.len())?;
    for key in keys {
        codes.push(function_code(*key))?;
    }
    Ok(codes)
}

/// The codes of globals.
pub fn global_codes(alloc: Global, keys: &[GlobalKey]) -> Result<Vec<Code>, OutOfMemory>
    ensures { IfOk result (λ codes. codes.items ≡ map global_code keys.now) }
{
    let mut codes = Vec::with_capacity(alloc, keys.len())?;
    for key in keys {
        codes.push(global_code(*key))?;
    }
    Ok(codes)
}

//! The rules that the parts of an object keep among one another, and the first that a changed object breaks.

use linking_section::member_kinds::{DATA, FUNCTION};
use object_parts::{
    CodeBody, DataPart, Element, Export, InitFunc, Linking, Mismatch, Operands, Parts,
    RelocSection, SectionSpan, SegmentInfo, Symbol, SymbolKind,
};
use object_rules::broken_rule;
use std::alloc::Global;
use test_kit::{func_type, group, import, member, name, reloc, segment_info, silent, symbol};
use wasm_types::{ConstExpr, GlobalType, Import, ImportKind, Limits, TableType, ValType};
use wl_base::{OutOfMemory, Seq, Span};

/// The sections: types, functions, a custom one, code in the bytes 50 to 89, data in 95 to 114, and
/// two custom ones.
fn sections() -> [SectionSpan; 7] {
    let at = |id, start, len| SectionSpan {
        id,
        payload: Span { start, len },
    };
    [
        at(1, 10, 5),
        at(3, 20, 5),
        at(0, 30, 5),
        at(10, 50, 40),
        at(11, 95, 20),
        at(0, 120, 5),
        at(0, 130, 5),
    ]
}

/// The object's bytes, with the opcodes of `global.set` at the place 59 and of `global.get` at 60.
fn bytes() -> [u8; 140] {
    let mut bytes = [0; 140];
    bytes[59] = 0x24;
    bytes[60] = 0x23;
    bytes
}

fn datum(
    alloc: Global,
    text: &str,
    index: u32,
    offset: u32,
    size: u32,
) -> Result<Symbol, OutOfMemory> {
    let name = Some(name(alloc, text)?);
    Ok(Symbol {
        kind: SymbolKind::Datum,
        flags: 0,
        name,
        index,
        offset,
        size,
    })
}

fn body(windows: Result<Operands, Mismatch>) -> CodeBody {
    CodeBody {
        span: Span { start: 52, len: 30 },
        windows,
    }
}

/// The imports: a memory, the function 0 of the type () to (), the global 0 and the table 0.
fn add_imports(alloc: Global, to: &mut Seq<Import>) -> Result<(), OutOfMemory> {
    let limits = Limits { min: 1, max: None };
    let table = TableType {
        funcref: true,
        limits,
    };
    let global = GlobalType {
        kind: ValType::I32,
        var: true,
    };
    to.push(import(alloc, "__linear_memory", ImportKind::Memory(limits))?)?;
    to.push(import(alloc, "ext", ImportKind::Function(0))?)?;
    to.push(import(alloc, "__stack_pointer", ImportKind::GlobalVar(global))?)?;
    to.push(import(alloc, "__indirect_function_table", ImportKind::Table(table))?)
}

/// The symbols: 0 and 1 the defined functions, 2 the imported one, 3 a datum, 4 the global, 5 a
/// section, 6 the table.
fn add_symbols(alloc: Global, to: &mut Seq<Symbol>) -> Result<(), OutOfMemory> {
    to.push(symbol(alloc, SymbolKind::Function, 0, Some("main"), 1)?)?;
    to.push(symbol(alloc, SymbolKind::Function, 0x02, Some("other"), 2)?)?;
    to.push(symbol(alloc, SymbolKind::Function, 0x10, None, 0)?)?;
    to.push(datum(alloc, "d", 0, 0, 8)?)?;
    to.push(symbol(alloc, SymbolKind::GlobalVar, 0x10, None, 0)?)?;
    to.push(symbol(alloc, SymbolKind::Section, 0x02, None, 6)?)?;
    to.push(symbol(alloc, SymbolKind::Table, 0x10, None, 0)?)
}

fn info(alloc: Global, align: u32) -> Result<SegmentInfo, OutOfMemory> {
    segment_info(alloc, "data", align, 0)
}

/// Metadata of the one segment, the symbols, an init function and a group.
fn add_metadata(alloc: Global, to: &mut Linking) -> Result<(), OutOfMemory> {
    add_symbols(alloc, &mut to.symbols)?;
    to.segments.push(info(alloc, 31)?)?;
    to.inits.push(InitFunc {
        priority: 1,
        symbol: 0,
    })?;
    to.groups.push(group(alloc, "g", &[member(DATA, 0), member(FUNCTION, 1)])?)
}

fn linking(alloc: Global) -> Result<Linking, OutOfMemory> {
    let mut linking = silent(alloc);
    add_metadata(alloc, &mut linking)?;
    Ok(linking)
}

fn segment(memory: Option<u32>) -> DataPart {
    DataPart {
        memory,
        span: Span { start: 100, len: 8 },
    }
}

/// No parts.
fn nothing(alloc: Global) -> Parts {
    Parts {
        types: Seq::new(alloc),
        imports: Seq::new(alloc),
        functions: Seq::new(alloc),
        globals: Seq::new(alloc),
        exports: Seq::new(alloc),
        elements: Seq::new(alloc),
        data_count: Some(1),
        bodies: Seq::new(alloc),
        segments: Seq::new(alloc),
        linking: None,
        relocs: Seq::new(alloc),
        in_order: true,
    }
}

/// The parts of an object that breaks no rule. The function 1 is of the type () to (), the function
/// 2 takes an i32; the one segment has the bytes 100 to 107.
fn add_parts(alloc: Global, to: &mut Parts) -> Result<(), OutOfMemory> {
    to.types.push(func_type(alloc, &[], &[])?)?;
    to.types.push(func_type(alloc, &[ValType::I32], &[])?)?;
    add_imports(alloc, &mut to.imports)?;
    to.functions.extend_from_slice(&[0, 1])?;
    to.bodies.push(body(Ok(Operands::new(alloc))))?;
    to.bodies.push(body(Ok(Operands::new(alloc))))?;
    to.segments.push(segment(None))?;
    to.linking = Some(linking(alloc)?);
    Ok(())
}

fn relocs(
    alloc: Global,
    target: u32,
    entries: &[(u8, u32, u32)],
) -> Result<RelocSection, OutOfMemory> {
    let mut list = Seq::new(alloc);
    for (kind, offset, index) in entries {
        list.push(reloc(*kind, *offset, *index, 0))?;
    }
    Ok(RelocSection {
        target,
        entries: list,
    })
}

/// A change of that object.
#[derive(Clone, Copy)]
enum Change<'a> {
    /// The types of the defined functions.
    Functions(&'a [u32]),
    DataCount(u32),
    /// The data count is wrong, and sections `reloc.` stand before `linking`.
    Disorder,
    /// The data count is wrong, and there is no section `linking`.
    NoLinking,
    /// An export more: its kind and index.
    Export(u8, u32),
    /// An element segment more: its table and one function.
    Element(Option<u32>, u32),
    /// A segment more, with this memory.
    Memory(u32),
    /// An imported function more, of this type.
    Import(u32),
    /// A symbol more: its kind, flags, name and index.
    Symbol(SymbolKind, u32, &'a str, u32),
    /// A datum more: its offset and size.
    Datum(u32, u32),
    /// The alignments of the segments.
    Infos(&'a [u32]),
    /// An init function more.
    Init(u32),
    /// A group more: its name, and the kind and index of its member.
    Group(&'a str, u8, u32),
    /// Relocations for the section 5 and for this one: each its type, offset and index.
    Relocs(u32, &'a [(u8, u32, u32)]),
    /// A function more whose body has this fault.
    Body(Mismatch),
}

/// The text, where it isn't empty.
fn text_of(text: &str) -> Option<&str> {
    if text.is_empty() { None } else { Some(text) }
}

fn change_linking(alloc: Global, linking: &mut Linking, change: Change) -> Result<(), OutOfMemory> {
    match change {
        Change::Symbol(kind, flags, text, index) => {
            linking
                .symbols
                .push(symbol(alloc, kind, flags, text_of(text), index)?)
        }
        Change::Datum(offset, size) => linking.symbols.push(datum(alloc, "e", 0, offset, size)?),
        Change::Infos(aligns) => {
            linking.segments = Seq::new(alloc);
            for align in aligns {
                linking.segments.push(info(alloc, *align)?)?;
            }
            Ok(())
        }
        Change::Init(symbol) => linking.inits.push(InitFunc {
            priority: 0,
            symbol,
        }),
        Change::Group(text, kind, index) => {
            linking
                .groups
                .push(group(alloc, text, &[member(kind, index)])?)
        }
        _ => Ok(()),
    }
}

fn export(alloc: Global, kind: u8, index: u32) -> Result<Export, OutOfMemory> {
    let name = name(alloc, "e")?;
    Ok(Export { name, kind, index })
}

fn element(alloc: Global, table: Option<u32>, function: u32) -> Result<Element, OutOfMemory> {
    let functions = Seq::from_slice(alloc, &[function])?;
    Ok(Element {
        table,
        offset: ConstExpr::I32(1),
        functions,
    })
}

fn add_part(alloc: Global, to: &mut Parts, change: Change) -> Result<(), OutOfMemory> {
    match change {
        Change::Export(kind, index) => to.exports.push(export(alloc, kind, index)?),
        Change::Element(table, function) => to.elements.push(element(alloc, table, function)?),
        Change::Memory(memory) => {
            to.data_count = None;
            to.segments.push(segment(Some(memory)))
        }
        Change::Import(kind) => {
            to.imports
                .push(import(alloc, "far", ImportKind::Function(kind))?)
        }
        Change::Relocs(target, entries) => {
            to.relocs.push(relocs(alloc, 5, &[])?)?;
            to.relocs.push(relocs(alloc, target, entries)?)
        }
        Change::Body(mismatch) => {
            to.functions.push(0)?;
            to.bodies.push(body(Err(mismatch)))
        }
        _ => match &mut to.linking {
            Some(linking) => change_linking(alloc, linking, change),
            None => Ok(()),
        },
    }
}

fn change_parts(alloc: Global, whole: &mut Parts, change: Change) -> Result<(), OutOfMemory> {
    match change {
        Change::Functions(types) => whole.functions = Seq::from_slice(alloc, types)?,
        Change::DataCount(count) => whole.data_count = Some(count),
        Change::Disorder => {
            whole.data_count = Some(9);
            whole.in_order = false;
        }
        Change::NoLinking => {
            whole.data_count = Some(9);
            whole.linking = None;
        }
        _ => add_part(alloc, whole, change)?,
    }
    Ok(())
}

/// The first rule that the changed object breaks.
fn broken(alloc: Global, change: Change) -> Result<Option<u8>, OutOfMemory> {
    let mut whole = nothing(alloc);
    add_parts(alloc, &mut whole)?;
    change_parts(alloc, &mut whole, change)?;
    broken_rule(alloc, &sections(), &bytes(), &whole)
}

/// Whether this is the first rule that each of these changes breaks.
fn break_rules(alloc: Global, cases: &[(Change, Option<u8>)]) -> bool {
    for (change, rule) in cases {
        if broken(alloc, *change) != Ok(*rule) {
            return false;
        }
    }
    true
}

#[test]
fn indexes_are_counted_and_in_range(rt: HostRuntime) {
    let cases = [
        (Change::Disorder, Some(1)),
        (Change::NoLinking, Some(1)),
        (Change::DataCount(1), None),
        (Change::DataCount(2), Some(2)),
        (Change::Functions(&[0, 1, 1]), Some(2)),
        (Change::Functions(&[0, 2]), Some(3)),
        (Change::Export(0, 2), None),
        (Change::Export(0, 3), Some(3)),
        (Change::Export(1, 1), Some(3)),
        // The memory 0 is there, also where it isn't imported.
        (Change::Export(2, 0), None),
        (Change::Export(2, 1), Some(3)),
        (Change::Export(3, 1), Some(3)),
        (Change::Element(None, 2), None),
        (Change::Element(None, 3), Some(3)),
        (Change::Element(Some(0), 0), None),
        (Change::Element(Some(1), 0), Some(3)),
        (Change::Memory(0), None),
        (Change::Memory(1), Some(3)),
        (Change::Import(2), Some(3)),
        // The defined symbols have other indexes now.
        (Change::Import(1), Some(4)),
    ];
    assert!(rt; break_rules(rt.alloc(), &cases));
}

#[test]
fn symbols_name_what_is_there(rt: HostRuntime) {
    let cases = [
        (Change::Symbol(SymbolKind::Function, 0, "new", 0), Some(4)),
        (
            Change::Symbol(SymbolKind::Function, 0x10, "new", 1),
            Some(4),
        ),
        (Change::Symbol(SymbolKind::Function, 0, "new", 3), Some(4)),
        (Change::Symbol(SymbolKind::GlobalVar, 0, "new", 0), Some(4)),
        (Change::Symbol(SymbolKind::Table, 0, "new", 0), Some(4)),
        (Change::Symbol(SymbolKind::Section, 0, "", 6), None),
        (Change::Symbol(SymbolKind::Section, 0, "", 7), Some(4)),
        (Change::Symbol(SymbolKind::Datum, 0, "new", 1), Some(4)),
        (Change::Symbol(SymbolKind::Datum, 0x10, "new", 9), None),
        (Change::Datum(1, 7), None),
        (Change::Datum(1, 8), Some(4)),
        (Change::Datum(0xffff_ffff, 2), Some(4)),
        // LOCAL and defined: the name may stand twice.
        (Change::Symbol(SymbolKind::Function, 0x02, "main", 1), None),
        (Change::Symbol(SymbolKind::Function, 0, "main", 1), Some(5)),
        // LOCAL and undefined: other objects see it.
        (
            Change::Symbol(SymbolKind::Function, 0x52, "main", 0),
            Some(5),
        ),
        // The name of an import, twice.
        (Change::Symbol(SymbolKind::Function, 0x10, "", 0), Some(5)),
        (
            Change::Symbol(SymbolKind::Function, 0x50, "ext", 0),
            Some(5),
        ),
    ];
    assert!(rt; break_rules(rt.alloc(), &cases));
}

#[test]
fn metadata_agrees(rt: HostRuntime) {
    let cases = [
        (Change::Infos(&[]), None),
        (Change::Infos(&[31]), None),
        (Change::Infos(&[32]), Some(6)),
        (Change::Infos(&[0, 0]), Some(6)),
        (Change::Init(2), None),
        // It takes an i32, it is a datum, and it isn't there.
        (Change::Init(1), Some(7)),
        (Change::Init(3), Some(7)),
        (Change::Init(7), Some(7)),
        (Change::Group("h", 1, 2), None),
        (Change::Group("g", 1, 2), Some(8)),
        // An imported function, and one that isn't there.
        (Change::Group("h", 1, 0), Some(8)),
        (Change::Group("h", 1, 3), Some(8)),
        // Members that stand in the other group, and a section of the same number.
        (Change::Group("h", 1, 1), Some(8)),
        (Change::Group("h", 0, 0), Some(8)),
        (Change::Group("h", 5, 1), None),
        (Change::Group("h", 5, 7), Some(8)),
    ];
    assert!(rt; break_rules(rt.alloc(), &cases));
}

#[test]
fn relocations_agree(rt: HostRuntime) {
    let cases = [
        // The types, a section that isn't there, and one that has relocations.
        (Change::Relocs(2, &[]), None),
        (Change::Relocs(0, &[]), Some(9)),
        (Change::Relocs(7, &[]), Some(9)),
        (Change::Relocs(5, &[]), Some(9)),
        (Change::Relocs(3, &[(0, 2, 0), (0, 7, 2)]), None),
        // They overlap, they fall, and one runs out of the payload.
        (Change::Relocs(3, &[(0, 2, 0), (0, 6, 2)]), Some(9)),
        (Change::Relocs(3, &[(0, 7, 0), (0, 2, 2)]), Some(9)),
        (Change::Relocs(3, &[(0, 36, 0)]), Some(9)),
        (Change::Relocs(4, &[(5, 5, 3), (2, 8, 0)]), Some(9)),
        (Change::Relocs(3, &[(0, 2, 3)]), Some(10)),
        (Change::Relocs(3, &[(0, 2, 7)]), Some(10)),
        (Change::Relocs(3, &[(6, 2, 1)]), None),
        (Change::Relocs(3, &[(6, 2, 2)]), Some(10)),
        (Change::Relocs(3, &[(20, 2, 6)]), None),
        (Change::Relocs(3, &[(20, 2, 4)]), Some(10)),
        (Change::Relocs(4, &[(5, 5, 3), (2, 9, 0)]), None),
        // Past the segment, before it, and a type for code.
        (Change::Relocs(4, &[(5, 10, 3)]), Some(11)),
        (Change::Relocs(4, &[(5, 4, 3)]), Some(11)),
        (Change::Relocs(4, &[(3, 5, 3)]), Some(11)),
        // Behind the opcode of global.set a function, a datum and a global; behind that of
        // global.get a function; and one behind another byte.
        (Change::Relocs(3, &[(7, 10, 0)]), Some(11)),
        (Change::Relocs(3, &[(7, 10, 3)]), Some(11)),
        (Change::Relocs(3, &[(7, 10, 4)]), None),
        (Change::Relocs(3, &[(7, 11, 0)]), None),
        (Change::Relocs(3, &[(7, 12, 0)]), Some(11)),
        (Change::Body(Mismatch::Overlap(2)), Some(11)),
        (Change::Body(Mismatch::OffImmediate(2)), Some(11)),
        (Change::Body(Mismatch::BareIndex(2)), Some(12)),
    ];
    assert!(rt; break_rules(rt.alloc(), &cases));
}

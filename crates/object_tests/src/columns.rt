//! Columns of an object: what is pushed comes back, and nothing behind it.

use body_windows::{Operand, Operands};
use linking_section::SymbolKind;
use object_columns::{
    FuncTypes, FunctionRef, Functions, Imports, SegmentRef, Segments, SymbolRef, Symbols,
};
use std::alloc::Global;
use std::test::Fail;
use test_kit::{func_type, import, reloc};
use wasm_types::{ImportKind, ValType};
use wl_base::{OutOfMemory, Span};

const SPAN: Span = Span { start: 7, len: 9 };

fn types(alloc: Global) -> Result<FuncTypes, OutOfMemory> {
    let kind = func_type(alloc, &[ValType::I32, ValType::F64], &[ValType::I64])?;
    let mut types = FuncTypes::new(alloc);
    types.push(&kind)?;
    types.push(&kind)?;
    Ok(types.shrunk())
}

fn types_hold(it: &FuncTypes) -> Option<bool> {
    let kind = it.get(1)?;
    Some(it.len() == 2 && kind.params.len() == 2 && kind.results.len() == 1 && it.get(2).is_none())
}

#[test]
fn types_come_back(rt: HostRuntime) -> Result<(), Fail> {
    let types = types(rt.alloc())?;
    assert!(rt; types_hold(&types) == Some(true));
    Ok(())
}

fn imports(alloc: Global) -> Result<Imports, OutOfMemory> {
    let import = import(alloc, "f", ImportKind::Function(3))?;
    let mut imports = Imports::new(alloc);
    imports.push(&import)?;
    imports.push(&import)?;
    Ok(imports.shrunk())
}

fn imports_hold(it: &Imports) -> Option<bool> {
    let import = it.get(1)?;
    let named = import.module == b"env".as_slice() && import.field == b"f".as_slice();
    Some(it.len() == 2 && named && import.kind == ImportKind::Function(3) && it.get(2).is_none())
}

#[test]
fn imports_come_back(rt: HostRuntime) -> Result<(), Fail> {
    let imports = imports(rt.alloc())?;
    assert!(rt; imports_hold(&imports) == Some(true));
    Ok(())
}

fn symbols(alloc: Global) -> Result<Symbols, OutOfMemory> {
    let named = SymbolRef {
        kind: SymbolKind::Datum,
        flags: 4,
        name: Some(b"d".as_slice()),
        index: 1,
        offset: 2,
        size: 3,
    };
    let nameless = SymbolRef {
        name: None,
        ..named
    };
    let mut symbols = Symbols::new(alloc);
    symbols.push(nameless)?;
    symbols.push(named)?;
    Ok(symbols.shrunk())
}

fn symbols_hold(it: &Symbols) -> Option<bool> {
    let symbol = it.get(1)?;
    let named = symbol.name? == b"d".as_slice() && it.get(0)?.name.is_none();
    let kept = (symbol.kind, symbol.flags) == (SymbolKind::Datum, 4);
    let placed = (symbol.index, symbol.offset, symbol.size) == (1, 2, 3);
    Some(it.len() == 2 && named && kept && placed && it.get(2).is_none())
}

#[test]
fn symbols_come_back(rt: HostRuntime) -> Result<(), Fail> {
    let symbols = symbols(rt.alloc())?;
    assert!(rt; symbols_hold(&symbols) == Some(true));
    Ok(())
}

fn segments(alloc: Global) -> Result<Segments, OutOfMemory> {
    let segment = SegmentRef {
        span: SPAN,
        name: b".data".as_slice(),
        align: 2,
        flags: 1,
        windows: &[reloc(5, 1, 2, -3)],
    };
    let mut segments = Segments::new(alloc);
    segments.push(segment)?;
    segments.push(segment)?;
    Ok(segments.shrunk())
}

fn segments_hold(it: &Segments) -> Option<bool> {
    let segment = it.get(1)?;
    let named = segment.span == SPAN && segment.name == b".data".as_slice();
    let kept = (segment.align, segment.flags) == (2, 1);
    let window = segment.windows.get(0).copied()?;
    Some(it.len() == 2 && named && kept && window.addend == -3 && it.get(2).is_none())
}

#[test]
fn segments_come_back(rt: HostRuntime) -> Result<(), Fail> {
    let segments = segments(rt.alloc())?;
    assert!(rt; segments_hold(&segments) == Some(true));
    Ok(())
}

fn functions(alloc: Global) -> Result<Functions, OutOfMemory> {
    let mut operands = Operands::new(alloc);
    operands.push(Operand::Number)?;
    operands.push(Operand::TableZero)?;
    operands.push(Operand::Number)?;
    let mut functions = Functions::new(alloc);
    let exported = FunctionRef {
        type_index: 6,
        span: SPAN,
        operands: operands.as_ref(),
        export_name: Some(b"e".as_slice()),
    };
    functions.push(FunctionRef {
        export_name: None,
        ..exported
    })?;
    functions.push(exported)?;
    Ok(functions.shrunk())
}

fn functions_hold(it: &Functions, alloc: Global) -> Option<bool> {
    let function = it.get(1)?;
    let kept = (function.type_index, function.span) == (6, SPAN);
    let named = function.export_name? == b"e".as_slice() && it.get(0)?.export_name.is_none();
    let list = function.operands.to_list(alloc).ok()?;
    let listed = list.as_slice()
        == [Operand::Number, Operand::TableZero, Operand::Number].as_slice();
    Some(it.len() == 2 && kept && named && listed && it.get(2).is_none())
}

#[test]
fn functions_come_back(rt: HostRuntime) -> Result<(), Fail> {
    let functions = functions(rt.alloc())?;
    assert!(rt; functions_hold(&functions, rt.alloc()) == Some(true));
    Ok(())
}

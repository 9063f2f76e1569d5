//! Types, imports and constant expressions, read and written.

use std::alloc::Global;
use test_kit::func_type;
use wasm_grammar::{ReadFault, Spell, Stop, put_vector, vector_at};
use wasm_types::{
    ConstExpr, FormFault, FuncType, GlobalType, Import, ImportKind, Limits, PlainFault, TableType,
    ValType, const_expr_at, func_type_at, import_at, import_kind_at, put_const_expr, put_func_type,
    put_global_type, put_import_kind, put_limits, put_table_type, read_func_type, read_global_type,
    read_limits, write_func_type, write_global_type, write_limits,
};
use wl_base::{Item, OutOfMemory, Seq};

const NOTHING: &[u8] = &[];

/// How many of these bytes spell a function type.
fn used(alloc: Global, bytes: &[u8]) -> Result<usize, FormFault> {
    match read_func_type(alloc, bytes) {
        Ok((_, used)) => Ok(used),
        Err(fault) => Err(fault),
    }
}

fn foreign_value(byte: u8) -> Result<usize, FormFault> {
    Err(FormFault::Foreign(Item::ValueType(byte)))
}

fn function_types_end(alloc: Global) -> bool {
    used(alloc, &[0x60, 2, 0x7f, 0x7e, 1, 0x7d]) == Ok(6)
        // A count in two bytes, no results, and a byte behind them.
        && used(alloc, &[0x60, 0x81, 0x00, 0x7c, 0, 0xff]) == Ok(5)
        && used(alloc, &[0x60, 1, 0x7b]) == foreign_value(0x7b)
        && used(alloc, &[0x60, 1, 0x7f, 3, 0x70, 0x00]) == foreign_value(0x70)
        && used(alloc, &[0x60, 0, 1, 0x6f]) == foreign_value(0x6f)
}

fn function_types_are_broken(alloc: Global) -> bool {
    let broken = Err(FormFault::Broken);
    used(alloc, &[0x61, 0, 0, 0]) == broken
        && used(alloc, &[0x60, 2, 0x40, 0x70]) == broken
        && used(alloc, &[0x60, 0x80]) == broken
        && used(alloc, &[0x60, 2, 0x7f, 0x7e, 1]) == broken
        && used(alloc, NOTHING) == broken
}

#[test]
fn function_types_are_read(rt: HostRuntime) {
    assert!(rt; function_types_end(rt.alloc()));
    assert!(rt; function_types_are_broken(rt.alloc()));
}

fn is_type(read: Result<(FuncType, usize), FormFault>, t: &FuncType) -> bool {
    match read {
        Ok((found, used)) => found == *t && used == 6,
        Err(_) => false,
    }
}

/// Whether a type is spelled so, and is what that spelling gives.
fn is_spelled(alloc: Global, to: &mut Seq<u8>, t: &FuncType) -> bool {
    let bytes = [0x60, 2, 0x7f, 0x7e, 1, 0x7d];
    write_func_type(to, t).is_ok()
        && to.as_slice() == bytes.as_slice()
        && is_type(read_func_type(alloc, &bytes), t)
}

fn is_type_at(read: Result<(FuncType, &[u8]), ReadFault>, t: &FuncType) -> bool {
    match read {
        Ok((found, rest)) => found == *t && rest == [7].as_slice(),
        Err(_) => false,
    }
}

/// Whether a type is put so, and is what stands there before a byte more.
fn is_put(alloc: Global, to: &mut Seq<u8>, t: &FuncType) -> bool {
    let bytes = [0x60, 2, 0x7f, 0x7e, 1, 0x7d, 7];
    put_func_type(to, t).is_ok()
        && to.as_slice() == &bytes[..6]
        && is_type_at(func_type_at(alloc, 7, &bytes), t)
}

fn a_type_is_spelled(alloc: Global) -> Result<bool, OutOfMemory> {
    let t = func_type(alloc, &[ValType::I32, ValType::I64], &[ValType::F32])?;
    let mut to = Seq::new(alloc);
    Ok(is_spelled(alloc, &mut to, &t))
}

fn a_type_is_put(alloc: Global) -> Result<bool, OutOfMemory> {
    let t = func_type(alloc, &[ValType::I32, ValType::I64], &[ValType::F32])?;
    let mut to = Seq::new(alloc);
    Ok(is_put(alloc, &mut to, &t))
}

#[test]
fn function_types_are_written_and_read_again(rt: HostRuntime) {
    assert!(rt; a_type_is_spelled(rt.alloc()) == Ok(true));
    assert!(rt; a_type_is_put(rt.alloc()) == Ok(true));
}

fn limits_have_ends() -> bool {
    let least = Limits { min: 2, max: None };
    let both = Limits {
        min: 1,
        max: Some(65_536),
    };
    let foreign = Err(PlainFault::Foreign(Item::LimitsFlag(3)));
    read_limits(&[0, 2, 7]) == Ok((least, 2))
        && read_limits(&[1, 1, 0x80, 0x80, 0x04]) == Ok((both, 5))
        && read_limits(&[3, 1, 1]) == foreign
        && read_limits(&[3]) == foreign
        && read_limits(&[1, 1, 0x80]) == Err(PlainFault::Broken)
        && read_limits(NOTHING) == Err(PlainFault::Broken)
}

fn global_types_have_ends() -> bool {
    let stack = GlobalType {
        kind: ValType::I32,
        var: true,
    };
    let fixed = GlobalType {
        kind: ValType::F64,
        var: false,
    };
    let foreign = Err(PlainFault::Foreign(Item::ValueType(0x6f)));
    read_global_type(&[0x7f, 1, 0]) == Ok((stack, 2))
        && read_global_type(&[0x7c, 0]) == Ok((fixed, 2))
        && read_global_type(&[0x6f, 2]) == foreign
        && read_global_type(&[0x7f, 2]) == Err(PlainFault::Broken)
        && read_global_type(&[0x7f]) == Err(PlainFault::Broken)
}

#[test]
fn limits_and_global_types_are_read(rt: HostRuntime) {
    assert!(rt; limits_have_ends());
    assert!(rt; global_types_have_ends());
}

fn are_spelled(to: &mut Seq<u8>) -> bool {
    let max = Some(65_536);
    let kind = ValType::F64;
    write_limits(to, &Limits { min: 2, max: None }).is_ok()
        && write_limits(to, &Limits { min: 1, max }).is_ok()
        && write_global_type(to, &GlobalType { kind, var: true }).is_ok()
        && to.as_slice() == [0, 2, 1, 1, 0x80, 0x80, 0x04, 0x7c, 1].as_slice()
}

#[test]
fn limits_and_global_types_are_written(rt: HostRuntime) {
    let mut to = Seq::new(rt.alloc());
    let holds = are_spelled(&mut to);
    assert!(rt; holds);
}

fn are_put(to: &mut Seq<u8>) -> bool {
    let limits = Limits {
        min: 1,
        max: Some(2),
    };
    let kind = ValType::I64;
    let funcref = true;
    put_limits(to, &limits).is_ok()
        && put_global_type(to, &GlobalType { kind, var: false }).is_ok()
        && put_table_type(to, &TableType { funcref, limits }).is_ok()
        && put_import_kind(to, &ImportKind::Function(5)).is_ok()
        && put_import_kind(to, &ImportKind::Memory(limits)).is_ok()
        && to.as_slice() == [1, 1, 2, 0x7e, 0, 0x70, 1, 1, 2, 0, 5, 2, 1, 1, 2].as_slice()
}

#[test]
fn types_and_kinds_are_put(rt: HostRuntime) {
    let mut to = Seq::new(rt.alloc());
    let holds = are_put(&mut to);
    assert!(rt; holds);
}

fn import_kinds_have_ends() -> bool {
    let limits = Limits { min: 1, max: None };
    let table = TableType {
        funcref: false,
        limits,
    };
    let global = GlobalType {
        kind: ValType::I64,
        var: false,
    };
    import_kind_at(10, &[0, 5]) == Ok((ImportKind::Function(5), NOTHING))
        && import_kind_at(10, &[1, 0x6f, 0, 1]) == Ok((ImportKind::Table(table), NOTHING))
        && import_kind_at(10, &[2, 0, 1]) == Ok((ImportKind::Memory(limits), NOTHING))
        && import_kind_at(10, &[3, 0x7e, 0]) == Ok((ImportKind::GlobalVar(global), NOTHING))
        && import_kind_at(10, &[4]) == Err(Stop::Foreign(Item::TagImport))
        && import_kind_at(10, &[5, 0]) == Err(Stop::Broken(8))
        && import_kind_at(10, &[1, 0x71, 0]) == Err(Stop::Broken(8))
}

#[test]
fn import_kinds_are_read(rt: HostRuntime) {
    assert!(rt; import_kinds_have_ends());
}

/// Whether a vector of imports is written as it is read.
fn imports_stay(alloc: Global, to: &mut Seq<u8>, text: &[u8; 15]) -> bool {
    match vector_at::<Import>(alloc, 15, text) {
        Ok((imports, _)) => {
            put_vector(to, imports.as_slice()).is_ok() && to.as_slice() == text.as_slice()
        }
        Err(_) => false,
    }
}

#[test]
fn imports_are_read_and_written_again(rt: HostRuntime) {
    let text = [2, 1, 0x6d, 1, 0x66, 0, 5, 1, 0x6d, 1, 0x74, 1, 0x70, 0, 0];
    let mut to = Seq::new(rt.alloc());
    let holds = imports_stay(rt.alloc(), &mut to, &text);
    assert!(rt; holds);
    let broken = import_at(rt.alloc(), 10, &[1, 0xff, 0, 5]).err();
    assert!(rt; broken == Some(ReadFault::Stopped(Stop::Broken(6))));
}

fn const_exprs_have_ends() -> bool {
    let foreign = |byte| Err(Stop::Foreign(Item::ConstExpr(byte)));
    let seven = [7].as_slice();
    const_expr_at(10, &[0x41, 0xc0, 0x00, 0x0b, 7]) == Ok((ConstExpr::I32(64), seven))
        && const_expr_at(10, &[0x42, 0x70, 0x0b]) == Ok((ConstExpr::I64(-16), NOTHING))
        && const_expr_at(10, &[0x23, 0x80]) == foreign(0x23)
        && const_expr_at(10, &[0x0b]) == foreign(0x0b)
        && const_expr_at(10, &[0x41, 0, 0x6a]) == foreign(0x6a)
        && const_expr_at(10, &[0x41, 0]) == Err(Stop::Broken(10))
}

#[test]
fn constant_expressions_are_read(rt: HostRuntime) {
    assert!(rt; const_exprs_have_ends());
}

fn const_exprs_are_spelled(to: &mut Seq<u8>) -> bool {
    put_const_expr(to, &ConstExpr::I32(64)).is_ok()
        && put_const_expr(to, &ConstExpr::I64(-16)).is_ok()
        && put_const_expr(to, &ConstExpr::Get(1)).is_ok()
        && to.as_slice() == [0x41, 0xc0, 0x00, 0x0b, 0x42, 0x70, 0x0b, 0x23, 1, 0x0b].as_slice()
}

#[test]
fn constant_expressions_are_written(rt: HostRuntime) {
    let mut to = Seq::new(rt.alloc());
    let holds = const_exprs_are_spelled(&mut to);
    assert!(rt; holds);
}

/// Whether limits and a vector of a table are spelled so, and limits are read as a vector.
fn are_items(alloc: Global, to: &mut Seq<u8>) -> bool {
    let limits = Limits { min: 2, max: None };
    let funcref = true;
    put_vector(to, &[TableType { funcref, limits }]).is_ok()
        && limits.put(to).is_ok()
        && to.as_slice() == [1, 0x70, 0, 2, 0, 2].as_slice()
        && are_limits(vector_at::<Limits>(alloc, 3, &[1, 0, 2]), limits)
}

fn are_limits(read: Result<(Seq<Limits>, &[u8]), ReadFault>, limits: Limits) -> bool {
    match read {
        Ok((found, rest)) => found.as_slice() == [limits].as_slice() && rest == NOTHING,
        Err(_) => false,
    }
}

#[test]
fn tables_and_limits_are_items_of_vectors(rt: HostRuntime) {
    let mut to = Seq::new(rt.alloc());
    let holds = are_items(rt.alloc(), &mut to);
    assert!(rt; holds);
}

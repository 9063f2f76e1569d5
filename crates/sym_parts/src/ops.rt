//! The instructions of bodies, with what their references mean in the place of their indexes.
ghost use Rattle.std.specs.Prelude.{◌≡◌, ◌++◌, [], Some, map, option_map, slice_index_or, IfOk};
ghost use Rattle.link_program.specs.object_file.Spaces.{no_type};
ghost use Rattle.link_program.specs.reloc_apply.Windows.{signed32};
ghost use Rattle.run_rules.specs.declared.op.Op.TheVariants.{CallTo};
ghost use Rattle.run_rules.specs.Ops.{block_type, opening, cell_op};
ghost use Rattle.link_worlds.specs.Bodies.{to_name};
ghost use Rattle.wasm_instr.specs.declared.instr.Instr.TheVariants as instrs;
ghost use Rattle.sym_parts.specs.Keys.{ArePlaces};
ghost use Rattle.sym_parts.specs.Sought.{known, named_at, place_code};
ghost use Rattle.sym_parts.specs.Ops.{stub_place, function_place, cell_place, call_symbol, call_seen, through_seen, opened_seen, number_op, at_symbol, at_cell, number_or, constant_or, opened_by, op_by, op_seen};

use crate::clones::empty_type;
use crate::kinds::type_at;
use crate::numbers::{base_at, number_named};
use crate::placed::{Cells, Functions};
use crate::places::Places;
use crate::rows::named_at;
use crate::sought::Sought;
use link_program::{FunctionKey, GlobalKey, Lead, Named, Symbol, function_of, index_of, symbol_at};
use linking_section::SymbolKind;
use run_rules::Op;
use std::alloc::Global;
use wasm_instr::{BlockKind, Instr, Placed};
use wasm_types::FuncType;
use wl_base::{OutOfMemory, Seq};

/// `global.get` (Core 5.4.5).
const GLOBAL_GET: u8 = 0x23;

/// `global.set`.
const GLOBAL_SET: u8 = 0x24;

/// The place of the stub of a name.
fn stub_place(functions: &Functions, name: Option<u32>) -> Option<u32>
    ensures { result ≡ stub_place functions.now name }
{
    match name {
        Some(name) => functions.place(FunctionKey::Stub(name)),
        None => None,
    }
}

/// The place of the function that a symbol means. One that leads nowhere, as that of a dropped part, names none.
fn function_place(functions: &Functions, name: Option<u32>, lead: Lead) -> Option<u32>
    ensures { result ≡ function_place functions.now name lead }
{
    match lead {
        Lead::Here(definition) => functions.place(function_of(definition)),
        Lead::Import(number) => functions.place(FunctionKey::Import(number)),
        Lead::Null => stub_place(functions, name),
        Lead::Nothing => None,
    }
}

/// The place of the cell that the symbol of a global means.
fn cell_place(cells: &Cells, lead: Lead) -> Option<u32>
    ensures { result ≡ cell_place cells.now lead }
{
    match lead {
        Lead::Here(definition) => cells.place(GlobalKey::Own {
            input: definition.input,
            index: index_of(definition),
        }),
        Lead::Import(number) => cells.place(GlobalKey::Import(number)),
        Lead::Null | Lead::Nothing => None,
    }
}

/// A call of the function at a place.
fn call_to(place: Option<u32>) -> Op
    ensures { result ≡ to_name CallTo place }
{
    match place {
        Some(place) => Op::CallTo(place),
        None => Op::Absent,
    }
}

/// A call of the function that a symbol means.
pub(crate) fn call_symbol(functions: &Functions, symbol: Symbol) -> Op
    ensures { result ≡ call_symbol functions.now symbol }
{
    call_to(function_place(functions, symbol.name, symbol.lead))
}

/// `call`.
fn call(k: Sought<'_>, named: Option<Named>) -> Op
    ensures { result ≡ call_seen (known k.entry) named }
{
    match named {
        Some(
            Named::Symbol {
                kind: _,
                place: _,
                addend: _,
                symbol,
            },
        ) => call_symbol(k.functions, symbol_at(k.tables.symbols.as_slice(), symbol)),
        Some(
            Named::Type {
                place: _,
                number: _,
            },
        ) => Op::Absent,
        None => Op::Absent,
    }
}

/// `call_indirect`.
fn call_through(alloc: Global, types: &[FuncType], named: Option<Named>) -> Result<Op, OutOfMemory>
    ensures { IfOk result (λ op. op ≡ through_seen types.now named) }
{
    match named {
        Some(Named::Type { place: _, number }) => {
            Ok(Op::CallThrough(type_at(alloc, types, number)?))
        }
        Some(
            Named::Symbol {
                kind: _,
                place: _,
                addend: _,
                symbol: _,
            },
        ) => Ok(Op::Absent),
        None => Ok(Op::Absent),
    }
}

/// A block whose type is named.
fn open_named(
    alloc: Global,
    types: &[FuncType],
    opcode: u8,
    named: Option<Named>,
) -> Result<Op, OutOfMemory>
    ensures { IfOk result (λ op. op ≡ opened_seen types.now opcode named) }
{
    match named {
        Some(Named::Type { place: _, number }) => Ok(Op::OpenBlock {
            opcode,
            kind: type_at(alloc, types, number)?,
        }),
        Some(
            Named::Symbol {
                kind: _,
                place: _,
                addend: _,
                symbol: _,
            },
        ) => Ok(Op::Absent),
        None => Ok(Op::Absent),
    }
}

/// `global.get` or `global.set` of a cell.
fn cell_op(opcode: u8, cell: Option<u32>) -> Op
    ensures { result ≡ to_name (cell_op opcode) cell }
{
    match cell {
        Some(cell) => match opcode {
            GLOBAL_GET => Op::ReadCell(cell),
            GLOBAL_SET => Op::WriteCell(cell),
            _ => Op::Absent,
        },
        None => Op::Absent,
    }
}

/// `global.get` of an address or a slot. One of 2^32 and more is answered as want of memory.
fn number_op(opcode: u8, base: u64) -> Result<Op, OutOfMemory>
    ensures { IfOk result (λ op. op ≡ number_op opcode base) }
{
    if opcode != GLOBAL_GET {
        return Ok(Op::Absent);
    }
    match u32::try_from(base) {
        Ok(number) => Ok(Op::Number(number)),
        Err(_) => Err(OutOfMemory),
    }
}

/// An instruction of a global that names a symbol.
fn at_symbol(cells: &Cells, opcode: u8, symbol: Symbol, base: u64) -> Result<Op, OutOfMemory>
    ensures { IfOk result (λ op. op ≡ at_symbol cells.now opcode symbol base) }
{
    if symbol.kind.code() == SymbolKind::GlobalVar.code() {
        return Ok(cell_op(opcode, cell_place(cells, symbol.lead)));
    }
    number_op(opcode, base)
}

/// An instruction of a global.
fn at_cell(k: Sought<'_>, opcode: u8, named: Option<Named>) -> Result<Op, OutOfMemory>
    ensures { IfOk result (λ op. op ≡ at_cell (known k.entry) opcode named) }
{
    match named {
        Some(
            Named::Symbol {
                kind: _,
                place: _,
                addend: _,
                symbol,
            },
        ) => {
            let base = base_at(k.bases, symbol);
            let symbol = symbol_at(k.tables.symbols.as_slice(), symbol);
            let op = at_symbol(k.cells, opcode, symbol, base)?;
            Ok(op)
        }
        Some(
            Named::Type {
                place: _,
                number: _,
            },
        ) => Ok(Op::Absent),
        None => Ok(Op::Absent),
    }
}

/// The number in the place of an immediate, where an item stands there.
fn number_or(k: Sought<'_>, n: u32, named: Option<Named>) -> Result<u32, OutOfMemory>
    ensures { IfOk result (λ number. number_or (known k.entry) n named ≡ Some number) }
{
    match named {
        Some(named) => number_named(k, named),
        None => Ok(n),
    }
}

/// `i32.const`.
fn constant_or(k: Sought<'_>, n: i32, named: Option<Named>) -> Result<Instr, OutOfMemory>
    ensures { IfOk result (λ x. constant_or (known k.entry) (instrs.I32Const n) named ≡ Some x) }
{
    match named {
        Some(named) => {
            let number = number_named(k, named)?;
            Ok(Instr::I32Const(number.cast_signed()))
        }
        None => Ok(Instr::I32Const(n)),
    }
}

/// The type that a block is written with, where it isn't an index.
fn open_plain(alloc: Global, opcode: u8, kind: BlockKind) -> Result<Op, OutOfMemory>
    ensures { IfOk result (λ op. op ≡ opening opcode (block_type [] kind)) }
{
    match kind {
        BlockKind::Empty => Ok(Op::OpenBlock {
            opcode,
            kind: empty_type(alloc),
        }),
        BlockKind::Value(t) => {
            let mut results = Seq::new(alloc);
            results.push(t)?;
            Ok(Op::OpenBlock {
                opcode,
                kind: FuncType {
                    params: Seq::new(alloc),
                    results,
                },
            })
        }
        BlockKind::Index(_) => Ok(Op::Absent),
    }
}

/// `block`, `loop` or `if`.
fn open(
    alloc: Global,
    types: &[FuncType],
    opcode: u8,
    kind: BlockKind,
    named: Option<Named>,
) -> Result<Op, OutOfMemory>
    ensures { IfOk result (λ op. op ≡ opened_by types.now opcode kind named) }
{
    match kind {
        BlockKind::Index(_) => open_named(alloc, types, opcode, named),
        _ => open_plain(alloc, opcode, kind),
    }
}

/// An instruction, with the item that stands at its first immediate and the one at its last.
fn op_by(
    alloc: Global,
    k: Sought<'_>,
    x: Instr,
    first: Option<Named>,
    last: Option<Named>,
) -> Result<Op, OutOfMemory>
    ensures { IfOk result (λ op. op_by (known k.entry) first last x ≡ Some op) }
{
    match x {
        Instr::Block { opcode, kind } => {
            let op = open(alloc, k.tables.types.as_slice(), opcode, kind, last)?;
            Ok(op)
        }
        Instr::Call(_) => Ok(call(k, last)),
        Instr::CallIndirect { kind: _, table: _ } => {
            let op = call_through(alloc, k.tables.types.as_slice(), first)?;
            Ok(op)
        }
        Instr::GlobalAt { opcode, global: _ } => {
            let op = at_cell(k, opcode, last)?;
            Ok(op)
        }
        Instr::Access {
            opcode,
            align,
            offset,
        } => {
            let offset = number_or(k, offset, last)?;
            Ok(Op::Own(Instr::Access {
                opcode,
                align,
                offset,
            }))
        }
        Instr::I32Const(n) => {
            let x = constant_or(k, n, last)?;
            Ok(Op::Own(x))
        }
        x => Ok(Op::Own(x)),
    }
}

/// An instruction of a part that names these.
fn op_of(
    alloc: Global,
    k: Sought<'_>,
    row: &[Named],
    places: &Places,
    x: Placed,
) -> Result<Op, OutOfMemory>
    requires { ArePlaces (map place_code row.now) places.now }
    ensures { IfOk result (λ op. op_seen (known k.entry) row.now x ≡ Some op) }
{
    let Placed {
        instr,
        at,
        mid,
        end: _,
    } = x;
    let Some(first) = at.checked_add(1) else {
        return Err(OutOfMemory);
    };
    let first = named_at(row, places, first);
    let last = named_at(row, places, mid);
    op_by(alloc, k, instr, first, last)
}

/// The instructions of a part that names these.
pub(crate) fn ops_of(
    alloc: Global,
    k: Sought<'_>,
    row: &[Named],
    places: &Places,
    code: Seq<Placed>,
) -> Result<Seq<Op>, OutOfMemory>
    requires { ArePlaces (map place_code row.now) places.now }
    ensures { IfOk result (λ ops. map (op_seen (known k.entry) row.now) code ≡ map Some ops) }
{
    let mut ops = Seq::new(alloc);
    let mut left = code.into_vec().into_iter();
    while let Some(x) = left.next() {
        let op = op_of(alloc, k, row, places, x)?;
        ops.push(op)?;
    }
    Ok(ops)
}

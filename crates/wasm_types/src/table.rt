//! Limits, and types of tables and globals.
ghost use Rattle.std.specs.Prelude.{◌≡◌, ◌≤◌, ◌++◌, length, take, drop, List, ℕ, Ok, IfOk, OnOk, OnErr};
ghost use Rattle.wasm_grammar.specs.Fault.{Reads};
ghost use Rattle.wasm_grammar.specs.Writers.{Appends, Keeps};
ghost use Rattle.wasm_types.specs.Fault.{ReadsPlainly};
ghost use Rattle.wasm_types.specs.Types.{var_byte, ref_byte, SpellsLimits, SpellsGlobalType, SpellsTableType, flagged_limits, limits_at, var_of, global_type_at, funcref_of, table_type_at};
ghost use Rattle.wasm_types.specs.declared.table.Limits.{Limits};
ghost use Rattle.wasm_types.specs.declared.table.GlobalType.{GlobalType};

use crate::fault::PlainFault;
use crate::value::{ValType, plain_val_type_at};
use std::alloc::Global;
use wasm_grammar::{
    Form, ReadFault, Spell, Stop, byte_at, cut_back, place, put_byte, put_u32, u32_at,
};
use wl_base::{Item, OutOfMemory, Seq};

/// The size of a memory, in pages of 64 KiB, or of a table, in elements (Core 5.3.7).
#[derive(Clone, Copy, Debug, PartialEq, Eq)]
pub struct Limits {
    /// The least size.
    pub min: u32,
    /// The greatest size, where one is given. It may be below the least: that is no matter of
    /// spelling.
    pub max: Option<u32>,
}

/// The type of a global (Core 5.3.10).
#[derive(Clone, Copy, Debug, PartialEq, Eq)]
pub struct GlobalType {
    /// The type of its value.
    pub kind: ValType,
    /// Whether the value may change.
    pub var: bool,
}

/// The type of a table (Core 5.3.9).
#[derive(Clone, Copy, Debug, PartialEq, Eq)]
pub struct TableType {
    /// Whether its elements are of funcref. Else they are of externref.
    pub funcref: bool,
    /// How many elements it has.
    pub limits: Limits,
}

/// The limits behind their first byte, and the bytes after them.
fn flagged_limits(flag: u8, end: usize, rest: &[u8]) -> Result<(Limits, &[u8]), Stop>
    ensures { Reads (λ x. (x.0, x.1.now)) result (flagged_limits flag end rest.now) }
{
    match flag {
        0 => {
            let (min, rest) = u32_at(end, rest)?;
            Ok((Limits { min, max: None }, rest))
        }
        1 => {
            let (min, rest) = u32_at(end, rest)?;
            let (max, rest) = u32_at(end, rest)?;
            let max = Some(max);
            Ok((Limits { min, max }, rest))
        }
        _ => Err(Stop::Foreign(Item::LimitsFlag(flag))),
    }
}

/// The limits at the front, and the bytes after them (Core 5.3.7). A first byte that is neither 00
/// nor 01 is foreign.
#[tactic(auto, unfolding(crate::specs::Types::limits_at))]
pub fn limits_at(end: usize, bytes: &[u8]) -> Result<(Limits, &[u8]), Stop>
    ensures { Reads (λ x. (x.0, x.1.now)) result (limits_at end bytes.now) }
{
    let (flag, rest) = byte_at(end, bytes)?;
    flagged_limits(flag, end, rest)
}

/// Whether a global may change, by its byte at this place.
fn var_of(place: usize, byte: u8) -> Result<bool, Stop>
    ensures { result ≡ var_of place byte }
{
    match byte {
        0 => Ok(false),
        1 => Ok(true),
        _ => Err(Stop::Broken(place)),
    }
}

/// The global type at the front, and the bytes after it (Core 5.3.10).
#[tactic(auto, unfolding(crate::specs::Types::global_type_at))]
pub fn global_type_at(end: usize, bytes: &[u8]) -> Result<(GlobalType, &[u8]), Stop>
    ensures { Reads (λ x. (x.0, x.1.now)) result (global_type_at end bytes.now) }
{
    let (kind, after) = plain_val_type_at(end, bytes)?;
    let (byte, rest) = byte_at(end, after)?;
    let var = var_of(place(end, after), byte)?;
    Ok((GlobalType { kind, var }, rest))
}

/// Whether a table is of funcref, by its byte at this place.
fn funcref_of(place: usize, byte: u8) -> Result<bool, Stop>
    ensures { result ≡ funcref_of place byte }
{
    match byte {
        0x70 => Ok(true),
        0x6f => Ok(false),
        _ => Err(Stop::Broken(place)),
    }
}

/// The table type at the front, and the bytes after it (Core 5.3.9).
#[tactic(auto, unfolding(crate::specs::Types::table_type_at))]
pub fn table_type_at(end: usize, bytes: &[u8]) -> Result<(TableType, &[u8]), Stop>
    ensures { Reads (λ x. (x.0, x.1.now)) result (table_type_at end bytes.now) }
{
    let (byte, rest) = byte_at(end, bytes)?;
    let funcref = funcref_of(place(end, bytes), byte)?;
    let (limits, rest) = limits_at(end, rest)?;
    Ok((TableType { funcref, limits }, rest))
}

impl Form for Limits {
    ghost use Rattle.wasm_types.specs.TypeLaws.{limits_reader};

    ghost spells = { SpellsLimits };

    ghost read_at = { limits_at };

    ghost exact = { limits_reader };

    fn form_at(_alloc: Global, end: usize, bytes: &[u8]) -> Result<(Limits, &[u8]), ReadFault> {
        Ok(limits_at(end, bytes)?)
    }
}

impl Spell for Limits {
    fn put(&self, to: &mut Seq<u8>) -> Result<(), OutOfMemory> {
        put_limits(to, self)
    }
}

impl Form for TableType {
    ghost use Rattle.wasm_types.specs.TypeLaws.{table_type_reader};

    ghost spells = { SpellsTableType };

    ghost read_at = { table_type_at };

    ghost exact = { table_type_reader };

    fn form_at(_alloc: Global, end: usize, bytes: &[u8]) -> Result<(TableType, &[u8]), ReadFault> {
        Ok(table_type_at(end, bytes)?)
    }
}

impl Spell for TableType {
    fn put(&self, to: &mut Seq<u8>) -> Result<(), OutOfMemory> {
        put_table_type(to, self)
    }
}

/// The limits at the front, and how many bytes they take (Core 5.3.7). What follows them isn't
/// read.
pub fn read_limits(bytes: &[u8]) -> Result<(Limits, usize), PlainFault>
    // What is read is spelled so.
    ensures within { IfOk result (λ found. found.1 ≤ length bytes.now) }
    ensures found { IfOk result (λ found. SpellsLimits found.0 (take found.1 bytes.now)) }
    // What is spelled so is read, whatever follows.
    ensures only { (l : Limits) (text rest : List ℕ) → SpellsLimits l text → bytes.now ≡ text ++ rest
        → result ≡ Ok (l, length text) }
    // Which fault it is: the first from the left.
    ensures exact { ReadsPlainly (λ found. (found.0, drop found.1 bytes.now)) result
        (limits_at (length bytes.now) bytes.now) }
{
    let (limits, rest) = limits_at(bytes.len(), bytes)?;
    Ok((limits, bytes.len() - rest.len()))
}

/// The global type at the front, and how many bytes it takes (Core 5.3.10). What follows it isn't
/// read.
pub fn read_global_type(bytes: &[u8]) -> Result<(GlobalType, usize), PlainFault>
    // What is read is spelled so.
    ensures within { IfOk result (λ found. found.1 ≤ length bytes.now) }
    ensures found { IfOk result (λ found. SpellsGlobalType found.0 (take found.1 bytes.now)) }
    // What is spelled so is read, whatever follows.
    ensures only { (t : GlobalType) (text rest : List ℕ) → SpellsGlobalType t text → bytes.now ≡ text ++ rest
        → result ≡ Ok (t, length text) }
    // Which fault it is: the first from the left.
    ensures exact { ReadsPlainly (λ found. (found.0, drop found.1 bytes.now)) result
        (global_type_at (length bytes.now) bytes.now) }
{
    let (kind, rest) = global_type_at(bytes.len(), bytes)?;
    Ok((kind, bytes.len() - rest.len()))
}

/// Appends the shortest spelling (Core 5.3.7).
#[tactic(auto, using(wasm_grammar::specs::WriterLaws::keeps_then))]
pub fn put_limits(to: &mut Seq<u8>, l: &Limits) -> Result<(), OutOfMemory>
    ensures ok { OnOk result (Appends (SpellsLimits l.now) to.old to.new) }
    ensures keeps { Keeps to.old to.new }
{
    match l.max {
        None => {
            put_byte(to, 0)?;
            put_u32(to, l.min)
        }
        Some(max) => {
            put_byte(to, 1)?;
            put_u32(to, l.min)?;
            put_u32(to, max)
        }
    }
}

/// Appends the spelling (Core 5.3.10).
#[tactic(auto, using(wasm_grammar::specs::WriterLaws::keeps_then))]
pub fn put_global_type(to: &mut Seq<u8>, t: &GlobalType) -> Result<(), OutOfMemory>
    ensures ok { OnOk result (Appends (SpellsGlobalType t.now) to.old to.new) }
    ensures keeps { Keeps to.old to.new }
{
    put_byte(to, t.kind.byte())?;
    put_byte(to, if t.var { 1 } else { 0 })
}

/// Appends the shortest spelling (Core 5.3.9).
#[tactic(auto, using(wasm_grammar::specs::WriterLaws::keeps_then))]
pub fn put_table_type(to: &mut Seq<u8>, t: &TableType) -> Result<(), OutOfMemory>
    ensures ok { OnOk result (Appends (SpellsTableType t.now) to.old to.new) }
    ensures keeps { Keeps to.old to.new }
{
    put_byte(to, if t.funcref { 0x70 } else { 0x6f })?;
    put_limits(to, &t.limits)
}

/// Appends the shortest spelling (Core 5.3.7). Where memory is refused the bytes are as before.
pub fn write_limits(to: &mut Seq<u8>, l: &Limits) -> Result<(), OutOfMemory>
    ensures ok { OnOk result (Appends (SpellsLimits l.now) to.old to.new) }
    ensures err { OnErr result (to.new ≡ to.old) }
{
    let len = to.len();
    let written = put_limits(to, l);
    cut_back(to, len, written)
}

/// Appends the spelling (Core 5.3.10). Where memory is refused the bytes are as before.
pub fn write_global_type(to: &mut Seq<u8>, t: &GlobalType) -> Result<(), OutOfMemory>
    ensures ok { OnOk result (Appends (SpellsGlobalType t.now) to.old to.new) }
    ensures err { OnErr result (to.new ≡ to.old) }
{
    let len = to.len();
    let written = put_global_type(to, t);
    cut_back(to, len, written)
}

//! The first relocation in live code that a shared output can't have: its base address isn't known when it is linked.
ghost use Rattle.std.specs.Prelude.{◌≡◌, ◌<◌, ◌^◌, [], false, length, slice_index_or};
ghost use Rattle.object_file.specs.body_windows.Operands.{operands_seen};
ghost use Rattle.object_file.specs.object_columns.Seen.{function_seen};
ghost use Rattle.not_pic.specs.Fixed.{is_fixed, fixed_operand, is_live, in_function, live_function, in_object, first_not_pic, AreFew};

use body_windows::{Operand, OperandsRef};
use mark_bits::{Chunk, ChunkTable, MarkSet, kinds};
use object_file::{FunctionRef, Object};
use reloc_section::kinds::{
    MEMORY_ADDR_LEB, MEMORY_ADDR_REL_SLEB, MEMORY_ADDR_SLEB, TABLE_INDEX_REL_SLEB, TABLE_INDEX_SLEB,
};
use wl_base::{InputId, Seq};

/// A relocation: the input of its object, the number of its symbol, and its type.
pub type Fixed = (InputId, u32, u8);

/// Whether a relocation's type holds an absolute slot or address, or one relative to a base, which no foreign symbol has.
fn is_fixed(kind: u8, foreign: bool) -> bool
    ensures { result ≡ is_fixed kind foreign }
{
    kind == TABLE_INDEX_SLEB
        || kind == MEMORY_ADDR_LEB
        || kind == MEMORY_ADDR_SLEB
        || ((kind == MEMORY_ADDR_REL_SLEB || kind == TABLE_INDEX_REL_SLEB) && foreign)
}

/// Whether the symbol of a place is foreign.
#[tactic(auto, using(crate::proofs::Steps::read))]
fn is_foreign(foreign: &[bool], symbol: u32) -> bool
    ensures { result ≡ slice_index_or foreign.now symbol false }
{
    match foreign.get(symbol as usize) {
        Some(flag) => *flag,
        None => false,
    }
}

/// The operand as a relocation that is fixed.
fn fixed_operand(input: InputId, foreign: &[bool], operand: Operand) -> Option<Fixed>
    ensures { result ≡ fixed_operand input foreign.now operand }
{
    match operand {
        Operand::Symbol {
            kind,
            place: _,
            symbol,
            addend: _,
        } => {
            if is_fixed(kind, is_foreign(foreign, symbol)) {
                Some((input, symbol, kind))
            } else {
                None
            }
        }
        Operand::Number | Operand::TypeRef { place: _, index: _ } | Operand::TableZero => None,
    }
}

/// The first of a function's.
fn in_function(input: InputId, foreign: &[bool], operands: OperandsRef<'_>) -> Option<Fixed>
    ensures { result ≡ in_function input foreign.now (operands_seen operands.entry) }
{
    for reference in operands.references {
        if let Some(fixed) = fixed_operand(input, foreign, reference.operand()) {
            return Some(fixed);
        }
    }
    None
}

/// Whether a chunk is live.
#[tactic(auto, using(crate::proofs::Chunks::stands_at, crate::proofs::Chunks::stands_nowhere, crate::proofs::Steps::bit_set, crate::proofs::Steps::bit_clear))]
fn is_live(live: &MarkSet, chunks: &ChunkTable, chunk: Chunk) -> bool
    requires { live.now.chunks ≡ length chunks.now }
    ensures { result ≡ is_live live.now.words chunks.now chunk }
{
    match chunks.find(chunk) {
        Some(number) => live.has(number),
        None => false,
    }
}

/// The first of the function of an index, if it is live.
fn in_live(
    live: &MarkSet,
    chunks: &ChunkTable,
    input: InputId,
    foreign: &[bool],
    index: u32,
    function: FunctionRef<'_>,
) -> Option<Fixed>
    requires { live.now.chunks ≡ length chunks.now }
    ensures { result ≡ live_function live.now.words chunks.now input foreign.now index (function_seen function.entry) }
{
    let chunk = Chunk {
        input,
        kind: kinds::FUNCTION,
        index,
    };
    if is_live(live, chunks, chunk) {
        in_function(input, foreign, function.operands)
    } else {
        None
    }
}

/// The first of an object's live functions.
fn in_object(
    live: &MarkSet,
    chunks: &ChunkTable,
    object: &Object,
    foreign: &[bool],
) -> Option<Fixed>
    requires live { live.now.chunks ≡ length chunks.now }
    requires few { length object.now.functions < 2 ^ 32 }
    ensures { result ≡ in_object live.now.words chunks.now object.now foreign.now }
{
    for index in 0..object.functions.len() {
        let Some(function) = object.functions.get(index) else {
            unreachable!()
        };
        if let Some(fixed) = in_live(live, chunks, object.input, foreign, index as u32, function) {
            return Some(fixed);
        }
    }
    None
}

/// The flags of an object's symbols.
fn flags_at(foreign: &[Seq<bool>], object: usize) -> &[bool]
    ensures { result.now ≡ slice_index_or foreign.now object [] }
{
    match foreign.get(object) {
        Some(flags) => flags.as_slice(),
        None => &[],
    }
}

/// The first relocation in live functions, by object, function and place, that a shared output can't have: a slot or an address as a
/// constant or an offset in code, or such a one from `__memory_base` or `__table_base` on whose symbol is foreign (Linking.md, "Relocation
/// Sections"; DynamicLinking.md).
///
/// `foreign` tells of each object, and of each of its symbols by number, whether another module may define it; a symbol that it doesn't
/// reach is none. `live` has the chunks that are live, by their numbers in `chunks`. The answer is the object's input, the symbol's number
/// and the relocation's type.
pub fn first_not_pic(
    objects: &[Object],
    foreign: &[Seq<bool>],
    live: &MarkSet,
    chunks: &ChunkTable,
) -> Option<Fixed>
    requires live { live.now.chunks ≡ length chunks.now }
    requires few { AreFew objects.now }
    ensures { result ≡ first_not_pic live.now.words chunks.now objects.now foreign.now }
{
    for at in 0..objects.len() {
        if let Some(fixed) = in_object(live, chunks, &objects[at], flags_at(foreign, at)) {
            return Some(fixed);
        }
    }
    None
}

//! Types of functions.
ghost use Rattle.std.specs.Prelude.{◌≡◌, ◌≤◌, ◌++◌, length, take, drop, List, ℕ, Ok, IfOk, OnOk, OnErr};
ghost use Rattle.wasm_grammar.specs.Fault.{Gives};
ghost use Rattle.wasm_grammar.specs.Writers.{Appends, Keeps};
ghost use Rattle.wasm_types.specs.Fault.{GivesPlainly};
ghost use Rattle.wasm_types.specs.Types.{SpellsFuncType, func_type_at};
ghost use Rattle.wasm_types.specs.declared.function.FuncType.{FuncType};

use crate::fault::FormFault;
use crate::value::ValType;
use std::alloc::Global;
use wasm_grammar::{
    Form, ReadFault, Spell, cut_back, put_byte, put_vector, read_front, tag_at, vector_at,
};
use wl_base::{OutOfMemory, Seq};

/// What a function takes and gives (Core 5.3.6). Two of them are equal where their lists are.
#[derive(Debug, PartialEq, Eq, Hash, Drop)]
pub struct FuncType {
    /// The types of the arguments.
    pub params: Seq<ValType>,
    /// The types of what it gives.
    pub results: Seq<ValType>,
}

/// The function type at the front, and the bytes after it (Core 5.3.6).
#[tactic(auto, unfolding(crate::specs::Types::func_type_at))]
pub fn func_type_at(alloc: Global, end: usize, bytes: &[u8]) -> Result<(FuncType, &[u8]), ReadFault>
    ensures { Gives (λ x. (x.0, x.1.now)) result (func_type_at end bytes.now) }
{
    let rest = tag_at(0x60, end, bytes)?;
    let (params, rest) = vector_at(alloc, end, rest)?;
    let (results, rest) = vector_at(alloc, end, rest)?;
    Ok((FuncType { params, results }, rest))
}

impl Form for FuncType {
    ghost use Rattle.wasm_types.specs.TypeLaws.{func_type_reader};

    ghost spells = { SpellsFuncType };

    ghost read_at = { func_type_at };

    ghost exact = { func_type_reader };

    fn form_at(alloc: Global, end: usize, bytes: &[u8]) -> Result<(FuncType, &[u8]), ReadFault> {
        func_type_at(alloc, end, bytes)
    }
}

/// The function type at the front, and how many bytes it takes (Core 5.3.6). What follows it isn't
/// read.
pub fn read_func_type(alloc: Global, bytes: &[u8]) -> Result<(FuncType, usize), FormFault>
    // What is read is spelled so.
    ensures within { IfOk result (λ found. found.1 ≤ length bytes.now) }
    ensures found { IfOk result (λ found. SpellsFuncType found.0 (take found.1 bytes.now)) }
    // What is spelled so is read, whatever follows, unless memory runs out.
    ensures only { (t : FuncType) (text rest : List ℕ) → SpellsFuncType t text → bytes.now ≡ text ++ rest
        → GivesPlainly (λ found. found) result (Ok (t, length text)) }
    // Which fault it is: the first from the left.
    ensures exact { GivesPlainly (λ found. (found.0, drop found.1 bytes.now)) result
        (func_type_at (length bytes.now) bytes.now) }
{
    Ok(read_front(alloc, bytes)?)
}

impl Spell for FuncType {
    fn put(&self, to: &mut Seq<u8>) -> Result<(), OutOfMemory> {
        put_func_type(to, self)
    }
}

/// Appends the shortest spelling (Core 5.3.6).
#[tactic(auto, using(wasm_grammar::specs::WriterLaws::keeps_then))]
pub fn put_func_type(to: &mut Seq<u8>, t: &FuncType) -> Result<(), OutOfMemory>
    ensures ok { OnOk result (Appends (SpellsFuncType t.now) to.old to.new) }
    ensures keeps { Keeps to.old to.new }
{
    put_byte(to, 0x60)?;
    put_vector(to, t.params.as_slice())?;
    put_vector(to, t.results.as_slice())
}

/// Appends the shortest spelling (Core 5.3.6). Where memory is refused the bytes are as before.
pub fn write_func_type(to: &mut Seq<u8>, t: &FuncType) -> Result<(), OutOfMemory>
    ensures ok { OnOk result (Appends (SpellsFuncType t.now) to.old to.new) }
    ensures err { OnErr result (to.new ≡ to.old) }
{
    let len = to.len();
    let written = put_func_type(to, t);
    cut_back(to, len, written)
}

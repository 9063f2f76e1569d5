//! Where blocks end. A body is gone over once, from its last instruction to its first, with the ends of
//! the blocks that are open there, so that a loop's turn doesn't search.
ghost use Rattle.std.specs.Prelude.{◌≡◌, ℕ, ◌+◌, ◌<◌, ◌^◌, None, Some, map, drop, length, slice_get};
ghost use Rattle.std.specs.Prelude.{IfOk, OnOk, IfSome};
ghost use Rattle.run_rules.specs.Control.{mark};
ghost use Rattle.run_rules.specs.declared.op.Mark.TheVariants.{Opens};
ghost use Rattle.run_model.specs.Table.{no_ends, ends_from, ends_in, ends_behind};
ghost use Rattle.run_model.specs.Table.{ends_over, others_over, ends_here};

use crate::opcodes::{ELSE, END};
use run_rules::{Function, Mark, Op, Source};
use std::alloc::Global;
use wasm_instr::Instr;
use wl_base::{OutOfMemory, Seq};
use wl_stack::Stack;

/// Of an instruction that opens a block: where that ends. Of another one: nothing.
#[derive(Clone, Copy)]
pub(crate) struct Ends {
    /// The place of the `end`.
    pub end: Option<usize>,
    /// Where an `if` goes on that is not taken: behind its `else`, or at its `end`.
    pub other: Option<usize>,
}

/// Of an instruction that opens no block.
fn nowhere() -> Ends
    ensures { result ≡ no_ends }
{
    Ends {
        end: None,
        other: None,
    }
}

/// What an instruction does to the nesting of blocks.
fn mark_of(op: &Op) -> Mark
    ensures { result ≡ mark op.now }
{
    match op {
        Op::OpenBlock { .. } => Mark::Opens,
        Op::Own(Instr::Plain(ELSE)) => Mark::Parts,
        Op::Own(Instr::Plain(END)) => Mark::Closes,
        _ => Mark::Passes,
    }
}

/// Takes off the newest, where there is one.
fn take_newest(stack: &mut Stack<usize>) -> Option<usize>
    ensures value { result ≡ slice_get stack.old 0 }
    ensures rest { stack.new ≡ drop 1 stack.old }
{
    let newest = stack.pop()?;
    Some(newest)
}

/// The blocks that are open at a place, the innermost the newest.
#[derive(Drop)]
struct OpenBlocks {
    /// Where each ends.
    ends: Stack<usize>,
    /// Where an `if` in its first part goes on that is not taken; of another block its end.
    others: Stack<usize>,
}

impl OpenBlocks {
    /// One instruction further back, of this mark and at this place: where the block ends that it opens.
    fn pass(&mut self, mark: Mark, at: usize) -> Result<Ends, OutOfMemory>
        requires { at + 1 < 2 ^ 64 }
        ensures here { IfOk result
            (λ here. here ≡ ends_here mark self.old.ends self.old.others) }
        ensures ended { OnOk result (self.new.ends ≡ ends_over mark at self.old.ends) }
        ensures parted { OnOk result (self.new.others ≡ others_over mark at self.old.others) }
    {
        match mark {
            Mark::Opens => {
                let end = take_newest(&mut self.ends);
                let other = take_newest(&mut self.others);
                Ok(Ends { end, other })
            }
            Mark::Parts => {
                let _ = take_newest(&mut self.others);
                self.others.push(at + 1)?;
                Ok(nowhere())
            }
            Mark::Closes => {
                self.ends.push(at)?;
                self.others.push(at)?;
                Ok(nowhere())
            }
            Mark::Passes => Ok(nowhere()),
        }
    }
}

/// For each instruction of a body, where its block ends; the first instruction's is the newest.
fn ends_of(alloc: Global, code: &[Op]) -> Result<Stack<Ends>, OutOfMemory>
    ensures { IfOk result (λ ends. ends ≡ ends_from 0 (map mark code.now)) }
{
    let mut table = Stack::new(alloc);
    let mut blocks = OpenBlocks {
        ends: Stack::new(alloc),
        others: Stack::new(alloc),
    };
    let mut at = code.len();
    while 0 < at {
        at -= 1;
        let here = blocks.pass(mark_of(&code[at]), at)?;
        table.push(here)?;
    }
    Ok(table)
}

/// The table of a function: of one without a body it is empty.
fn table_of(alloc: Global, function: &Option<Function>) -> Result<Stack<Ends>, OutOfMemory>
    ensures { IfOk result (λ table. table ≡ ends_in function.now) }
{
    match function {
        Some(function) => match &function.source {
            Source::Code { locals: _, code } => ends_of(alloc, code.as_slice()),
            Source::Host {
                module: _,
                field: _,
            } => Ok(Stack::new(alloc)),
            Source::Nowhere => Ok(Stack::new(alloc)),
        },
        None => Ok(Stack::new(alloc)),
    }
}

/// The tables of functions.
pub(crate) fn tables_of(
    alloc: Global,
    functions: &[Option<Function>],
) -> Result<Seq<Stack<Ends>>, OutOfMemory>
    ensures { IfOk result (λ tables. tables ≡ map ends_in functions.now) }
{
    let mut tables = Seq::new(alloc);
    for function in functions {
        tables.push(table_of(alloc, function)?)?;
    }
    Ok(tables)
}

/// Where the block ends that opens at this place of a function with this body.
pub(crate) fn ends_at(tables: &Seq<Stack<Ends>>, code: &[Op], function: u32, place: usize) -> Ends
    requires table { slice_get tables.now function ≡ Some (ends_from 0 (map mark code.now)) }
    requires opens { slice_get (map mark code.now) place ≡ Some Opens }
    ensures found { result ≡ ends_behind (place + 1) (drop (place + 1) (map mark code.now)) }
    ensures within { IfSome result.end (λ end. end < length code.now) }
{
    match tables.get(function as usize) {
        Some(table) => match table.at(place) {
            Some(ends) => ends,
            None => nowhere(),
        },
        None => nowhere(),
    }
}

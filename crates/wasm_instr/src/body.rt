//! The bodies of functions.
ghost use Rattle.std.specs.Prelude.{◌≡◌, ◌<◌, ◌^◌, ◌∷◌, [], false, length, Ok, IfOk};
ghost use Rattle.wasm_grammar.specs.Fault.{Reads, Gives};
ghost use Rattle.wasm_instr.specs.Bodies.{SpellsBody, step_of, stepped, counted, run_at, runs_at, locals_at, code_at, body_at, Tells};
ghost use Rattle.wasm_instr.specs.declared.body.Body.{Body};

use crate::instr::{Instr, instr_at};
use crate::outline::outline_step;
use std::alloc::Global;
use wasm_grammar::{ReadFault, Stop, place, u32_at};
use wasm_types::{ValType, plain_val_type_at};
use wl_base::{Item, Seq};

/// So many locals of one type (Core 5.5.13).
#[derive(Clone, Copy, Debug, PartialEq, Eq)]
pub struct LocalRun {
    /// How many they are.
    pub count: u32,
    /// The type of each.
    pub kind: ValType,
}

/// An instruction and its places, counted from the body's first byte.
#[derive(Debug, PartialEq, Eq, Drop)]
pub struct Placed {
    /// The instruction.
    pub instr: Instr,
    /// The place of its first byte.
    pub at: u32,
    /// The place of its last immediate, or its end where it has none.
    pub mid: u32,
    /// The place after its last byte.
    pub end: u32,
}

/// What a function declares and does (Core 5.5.13).
#[derive(Debug, PartialEq, Eq, Drop)]
pub struct Body {
    /// The locals behind the arguments.
    pub locals: Seq<LocalRun>,
    /// The instructions, with the `end` that closes the body.
    pub code: Seq<Placed>,
}

/// Why bytes are no body: what reading comes to first, from left to right, or want of memory.
#[derive(Clone, Copy, Debug, PartialEq, Eq)]
pub enum BodyFault {
    /// The bytes are outside the grammar at this place, counted from the first byte.
    Broken(u32),
    /// An item that isn't linked. What follows it isn't read.
    Stops(Item),
    /// Memory was refused. It says nothing of the bytes.
    OutOfMemory,
}

/// A count of locals at this place, where it keeps all of them below 2^32 (Core 5.5.13).
fn counted(place: usize, before: u32, count: u32) -> Result<u32, Stop>
    ensures { result ≡ counted place before count }
{
    match before.checked_add(count) {
        Some(_) => Ok(count),
        None => Err(Stop::Broken(place)),
    }
}

/// The run of locals at the front, behind so many locals, and the bytes after it.
#[tactic(auto, unfolding(crate::specs::Bodies::run_at))]
pub fn run_at(before: u32, end: usize, bytes: &[u8]) -> Result<(LocalRun, &[u8]), Stop>
    ensures { Reads (λ x. (x.0, x.1.now)) result (run_at before end bytes.now) }
{
    let (count, after) = u32_at(end, bytes)?;
    let count = counted(place(end, bytes), before, count)?;
    let (kind, rest) = plain_val_type_at(end, after)?;
    Ok((LocalRun { count, kind }, rest))
}

/// So many runs of locals at the front, and the bytes after them.
fn runs_at(
    alloc: Global,
    count: u32,
    end: usize,
    bytes: &[u8],
) -> Result<(Seq<LocalRun>, &[u8]), ReadFault>
    ensures { Gives (λ x. (x.0, x.1.now)) result (runs_at count 0 end bytes.now) }
{
    let mut runs = Seq::new(alloc);
    let mut rest = bytes;
    let mut before: u32 = 0;
    for _ in 0..count {
        let (run, after) = run_at(before, end, rest)?;
        runs.push(run)?;
        before += run.count;
        rest = after;
    }
    Ok((runs, rest))
}

/// The locals at the front, and the bytes after them.
#[tactic(auto, unfolding(crate::specs::Bodies::locals_at))]
fn locals_at(alloc: Global, end: usize, bytes: &[u8]) -> Result<(Seq<LocalRun>, &[u8]), ReadFault>
    ensures { Gives (λ x. (x.0, x.1.now)) result (locals_at end bytes.now) }
{
    let (count, rest) = u32_at(end, bytes)?;
    runs_at(alloc, count, end, rest)
}

/// Opens and closes the blocks of an instruction at this place.
#[tactic(auto, using(crate::specs::SkimLaws::steps_agree))]
fn step(opens: &mut Seq<bool>, place: usize, instr: &Instr) -> Result<(), ReadFault>
    ensures { Gives (λ _. opens.new) result (stepped place (step_of opens.old instr.now)) }
{
    outline_step(opens, place, instr.outline())
}

/// The instructions up to the one that closes the body, which has to be the last.
fn code_at(alloc: Global, end: usize, bytes: &[u8]) -> Result<Seq<Placed>, ReadFault>
    requires { end < 2 ^ 32 }
    ensures { Gives (λ code. code) result (code_at (length bytes.now) end (false ∷ []) bytes.now) }
{
    let mut code = Seq::new(alloc);
    let mut opens = Seq::new(alloc);
    opens.push(false)?;
    let mut rest = bytes;
    while opens.len() > 0 {
        let (instr, last, after) = instr_at(alloc, end, rest)?;
        let at = place(end, rest);
        step(&mut opens, at, &instr)?;
        let mid = place(end, last) as u32;
        let until = place(end, after) as u32;
        code.push(Placed {
            instr,
            at: at as u32,
            mid,
            end: until,
        })?;
        rest = after;
    }
    match rest {
        [] => Ok(code),
        _ => Err(ReadFault::Stopped(Stop::Broken(place(end, rest)))),
    }
}

/// The body that all of these bytes are (Core 5.5.13, without its size). Its places, and those of
/// faults, are counted from the first byte.
#[tactic(auto, unfolding(crate::specs::Bodies::body_at))]
pub fn body_at(alloc: Global, bytes: &[u8]) -> Result<Body, ReadFault>
    requires { length bytes.now < 2 ^ 32 }
    ensures { Gives (λ x. x) result (body_at bytes.now) }
{
    let (locals, rest) = locals_at(alloc, bytes.len(), bytes)?;
    let code = code_at(alloc, bytes.len(), rest)?;
    Ok(Body { locals, code })
}

/// The body that all of these bytes are (Core 5.5.13, without its size).
pub fn read_body(alloc: Global, bytes: &[u8]) -> Result<Body, BodyFault>
    requires { length bytes.now < 2 ^ 32 }
    // What is read is spelled so, with the places that it has.
    ensures found { IfOk result (λ body. SpellsBody body bytes.now) }
    // What is spelled so is read, unless memory runs out.
    ensures only { (body : Body) → SpellsBody body bytes.now → Tells result (Ok body) }
    // Which fault it is: the first from the left.
    ensures exact { Tells result (body_at bytes.now) }
{
    match body_at(alloc, bytes) {
        Ok(body) => Ok(body),
        Err(ReadFault::Stopped(Stop::Broken(place))) => Err(BodyFault::Broken(place as u32)),
        Err(ReadFault::Stopped(Stop::Foreign(item))) => Err(BodyFault::Stops(item)),
        Err(ReadFault::OutOfMemory) => Err(BodyFault::OutOfMemory),
    }
}

//! Loaded objects with nothing linked, and their runs.
ghost use Rattle.std.specs.Prelude.{◌≡◌, None, IfOk};
ghost use Rattle.run_rules.specs.Memory.{zeros};
ghost use Rattle.run_machines.specs.Sym.{sym_outside, sym_pages, with_segments, run_of_sym};

use crate::first::{add_segments, first_outside, pages_of, values_of};
use crate::outcome::Run;
use run_model::run;
use run_rules::{Session, Value, World};
use std::alloc::Global;
use wasm_types::ValType;
use wl_base::{Name, OutOfMemory, Seq};

/// The bytes of a page.
const PAGE: u64 = 65_536;

/// A global of a program that isn't linked.
#[derive(Debug, Drop)]
pub enum SymCell {
    /// One that is imported: what from, and the type of its value.
    Import {
        /// The module.
        module: Name,
        /// Its name there.
        field: Name,
        /// The type of its value.
        kind: ValType,
    },
    /// One that holds this at first, if it has a value.
    Holds(Option<Value>),
}

/// Bytes that the memory holds at first.
#[derive(Debug, Drop)]
pub struct SymSegment {
    /// The address of the first.
    pub address: u32,
    /// The bytes.
    pub bytes: Seq<u8>,
}

/// Loaded objects with nothing linked: functions and cells by their names, each reference by what it means.
#[derive(Debug, Drop)]
pub struct SymWorld {
    /// What the machine asks.
    pub world: World,
    /// The cells, by their places.
    pub cells: Seq<SymCell>,
    /// Whether the memory is imported.
    pub imported: bool,
    /// How many pages it has at first, if the session doesn't say.
    pub pages: u32,
    /// What the memory holds at first, one after another.
    pub segments: Seq<SymSegment>,
}

/// The memory at first, of so many pages.
#[tactic(auto, using(crate::proofs::Room::all_fit))]
fn memory_of(alloc: Global, pages: u32, segments: &[SymSegment]) -> Result<Seq<u8>, OutOfMemory>
    requires { sym_outside pages segments.now ≡ None }
    ensures { IfOk result (λ memory. memory ≡ with_segments segments.now (zeros pages)) }
{
    let mut memory = Vec::new(alloc);
    memory.resize(PAGE as usize * pages as usize, 0)?;
    add_segments(segments, memory.as_mut_slice());
    Ok(Seq::from_vec(memory))
}

/// What a session on loaded objects with nothing linked comes to, with a bound on steps.
///
/// # Errors
/// Want of memory, which no trace tells of.
#[tactic(auto, using(crate::proofs::Whole::of_sym))]
pub fn run_sym(
    alloc: Global,
    w: &SymWorld,
    session: &Session,
    steps: u64,
) -> Result<Run, OutOfMemory>
    ensures { IfOk result (λ run. run ≡ run_of_sym session.now w.now steps) }
{
    let pages = pages_of(session, w);
    if let Some(segment) = first_outside(PAGE * pages as u64, w.segments.as_slice()) {
        return Ok(Run::Outside(segment as u64));
    }
    let cells = values_of(alloc, session, w.cells.as_slice())?;
    let memory = memory_of(alloc, pages, w.segments.as_slice())?;
    let trace = run(alloc, &w.world, session, cells, memory, steps)?;
    Ok(Run::Traced(trace))
}

//! The types of a function's locals, so that an instruction finds its local without going through the runs of them.
ghost use Rattle.std.specs.Prelude.{◌≡◌, ◌++◌, List, replicate, Some, IfOk, IfSome, OnOk};
ghost use Rattle.wasm_types.specs.declared.value.ValType.{ValType};
ghost use Rattle.wasm_instr.specs.declared.body.LocalRun.{LocalRun};
ghost use Rattle.valid_bodies.specs.Shapes.{local_type};
ghost use Rattle.body_check.specs.Table.{spread, Tells, IsTable};

use std::alloc::Global;
use wasm_instr::LocalRun;
use wasm_types::ValType;
use wl_base::{OutOfMemory, Seq};

/// So many locals have a table whatever the body is. More have one where the body is as long, so that making it takes no
/// longer than reading the body; else a local is looked for among the runs, by halves.
const FEW: usize = 256;

/// Locals of one type that follow each other.
#[derive(Clone, Copy)]
pub struct Stretch {
    /// The first of them.
    pub from: usize,
    /// The one behind the last.
    pub to: usize,
    /// Their type.
    pub kind: ValType,
}

/// The types of locals.
#[derive(Drop)]
pub struct Table {
    /// Those of the first ones, one by one.
    pub first: Seq<ValType>,
    /// Those of all that the body declares, where they have no place among the first.
    pub others: Seq<Stretch>,
}

/// How many locals runs declare, as far as a number holds it.
fn count_locals(runs: &[LocalRun]) -> usize {
    let mut count = 0usize;
    for run in runs {
        count = count.saturating_add(run.count as usize);
    }
    count
}

/// Puts the locals of a run behind those that are there.
fn put_run(table: &mut Seq<ValType>, run: LocalRun) -> Result<(), OutOfMemory>
    ensures { OnOk result (table.new ≡ table.old ++ replicate run.count run.kind) }
{
    for _ in 0..run.count {
        table.push(run.kind)?;
    }
    Ok(())
}

/// The types of all locals, one by one: the parameters, and then those of the runs, which are so many.
fn first_of(
    alloc: Global,
    params: &[ValType],
    runs: &[LocalRun],
    count: usize,
) -> Result<Seq<ValType>, OutOfMemory>
    ensures { IfOk result (λ first. first ≡ params.now ++ spread runs.now) }
{
    let mut first = Seq::with_room(alloc, params.len().saturating_add(count))?;
    first.extend_from_slice(params)?;
    for at in 0..runs.len() {
        put_run(&mut first, runs[at])?;
    }
    Ok(first)
}

/// The places of the runs.
#[tactic(auto, using(crate::proofs::Stretches::tells_none, crate::proofs::Stretches::no_run_yet))]
fn others_of(
    alloc: Global,
    params: &[ValType],
    runs: &[LocalRun],
) -> Result<Seq<Stretch>, OutOfMemory>
    ensures { IfOk result (λ others. Tells params.now runs.now others) }
{
    let mut others = Seq::new(alloc);
    let mut from = params.len();
    for at in 0..runs.len() {
        let run = runs[at];
        let Some(to) = from.checked_add(run.count as usize) else {
            return Ok(others)
        };
        others.push(Stretch {
            from,
            to,
            kind: run.kind,
        })?;
        from = to;
    }
    Ok(others)
}

/// The types of the locals, one by one where they aren't too many for a body of this length.
#[tactic(auto, using(crate::proofs::Tables::params_table, crate::proofs::Tables::whole_table, crate::proofs::Stretches::tells_none))]
pub fn table_of(
    alloc: Global,
    params: &[ValType],
    runs: &[LocalRun],
    length: usize,
) -> Result<Table, OutOfMemory>
    ensures { IfOk result (λ table. IsTable params.now runs.now table) }
{
    let count = count_locals(runs);
    if count > length.max(FEW) {
        let first = Seq::from_slice(alloc, params)?;
        let others = others_of(alloc, params, runs)?;
        return Ok(Table { first, others });
    }
    let first = first_of(alloc, params, runs, count)?;
    Ok(Table {
        first,
        others: Seq::new(alloc),
    })
}

/// The type of a local in one of these places.
#[tactic(auto, using(crate::proofs::Stretches::kind_there))]
fn kind_in(others: &[Stretch], local: usize) -> Option<ValType>
    ensures { (params : List ValType) (runs : List LocalRun) → Tells params runs others.now → IfSome result (λ kind. local_type params runs local ≡ Some kind) }
{
    let at = others.partition_point(|stretch| stretch.to <= local);
    match others.get(at) {
        None => None,
        Some(stretch) => if stretch.from <= local && local < stretch.to {
            Some(stretch.kind)
        } else {
            None
        },
    }
}

/// The type of a local, where the table has it.
#[inline(always)]
pub fn kind_at(table: &Table, local: usize) -> Option<ValType>
    ensures { (params : List ValType) (runs : List LocalRun) → IsTable params runs table.now → IfSome result (λ kind. local_type params runs local ≡ Some kind) }
{
    match table.first.get(local) {
        None => kind_in(table.others.as_slice(), local),
        Some(kind) => Some(*kind),
    }
}

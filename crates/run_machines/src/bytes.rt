//! Runs of modules.
ghost use Rattle.std.specs.Prelude.{◌≡◌, IfOk};
ghost use Rattle.run_machines.specs.Runs.{run_of_module, run_of_bytes};

use crate::outcome::Run;
use run_model::run;
use run_modules::{ModuleWorld, first_outside, module_world};
use run_rules::Session;
use std::alloc::Global;
use wasm_module::{Module, ModuleFault, read};
use wl_base::OutOfMemory;

/// What a session on a module comes to, with a bound on steps.
///
/// # Errors
/// Want of memory, which no trace tells of.
#[tactic(auto, using(crate::proofs::Whole::of_module))]
pub fn run_module(
    alloc: Global,
    session: &Session,
    m: &Module,
    steps: u64,
) -> Result<Run, OutOfMemory>
    ensures { IfOk result (λ run. run ≡ run_of_module session.now m.now steps) }
{
    if let Some(segment) = first_outside(alloc, session, m)? {
        return Ok(Run::Outside(segment));
    }
    let ModuleWorld {
        world,
        cells,
        memory,
    } = module_world(alloc, session, m)?;
    let trace = run(alloc, &world, session, cells, memory, steps)?;
    Ok(Run::Traced(trace))
}

/// What a session comes to on the module that these bytes are, with a bound on steps. It is `NoModule` exactly
/// where the bytes aren't read as a module (`wasm_module::read`).
///
/// # Errors
/// Want of memory, which no trace tells of.
#[tactic(auto, using(crate::proofs::Whole::of_bytes))]
pub fn run_mod(
    alloc: Global,
    bytes: &[u8],
    session: &Session,
    steps: u64,
) -> Result<Run, OutOfMemory>
    ensures { IfOk result (λ run. run ≡ run_of_bytes session.now bytes.now steps) }
{
    match read(alloc, bytes) {
        Ok(m) => {
            let run = run_module(alloc, session, &m, steps)?;
            Ok(run)
        }
        Err(ModuleFault::NotModule) => Ok(Run::NoModule),
        Err(ModuleFault::OutOfMemory) => Err(OutOfMemory),
    }
}

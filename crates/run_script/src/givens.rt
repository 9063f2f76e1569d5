//! The globals that lines give: each import once. A set of the imports makes it one look-up for each line.
ghost use Rattle.std.specs.Prelude.{◌≡◌, IfOk, OnOk, map};
ghost use Rattle.run_script.specs.Scripts.{Went};
ghost use Rattle.run_script.specs.Givens.{pair_of, with_given};

use indexmap::IndexSet;
use run_rules::GivenGlobal;
use std::alloc::Global;
use wl_base::{Key, OutOfMemory, Seq};

/// What tells imports apart.
#[derive(PartialEq, Eq, Hash, Drop)]
pub(crate) struct Pair {
    /// The module.
    module: Key,
    /// The name there.
    field: Key,
}

// The import of a global.
fn pair_of(alloc: Global, global: &GivenGlobal) -> Result<Pair, OutOfMemory>
    ensures { IfOk result (λ pair. pair ≡ pair_of global.now) }
{
    let module = Key::new(alloc, global.module.as_slice())?;
    let field = Key::new(alloc, global.field.as_slice())?;
    Ok(Pair { module, field })
}

/// Puts a global behind the others, whose imports are these; `false` where one is of the same import.
#[tactic(auto, using(crate::proofs::Again::giving))]
pub(crate) fn give(
    alloc: Global,
    globals: &mut Seq<GivenGlobal>,
    pairs: &mut IndexSet<Pair>,
    global: GivenGlobal,
) -> Result<bool, OutOfMemory>
    requires { pairs.old.keys ≡ map pair_of globals.old }
    ensures went { IfOk result (λ went. Went (with_given globals.old global) went globals.new) }
    ensures pairs { OnOk result (pairs.new.keys ≡ map pair_of globals.new) }
{
    let pair = pair_of(alloc, &global)?;
    if !pairs.insert(pair)? {
        return Ok(false);
    }
    globals.push(global)?;
    Ok(true)
}

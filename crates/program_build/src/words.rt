//! The names that the words of the command line give.
ghost use Rattle.std.specs.Prelude.{◌≡◌, ◌++◌, IfOk};
ghost use Rattle.loose_calls.specs.link_program.link_rules.LinkOf.{asked_names};

use link_plan::Plan;
use loose_calls::{add_names, asked_names};
use std::alloc::Global;
use wl_base::{Name, OutOfMemory, Seq};

/// The names that the words give: those that are asked for, and those of `--export-if-defined`.
pub(crate) fn words_of(alloc: Global, plan: &Plan) -> Result<Seq<Name>, OutOfMemory>
    ensures { IfOk result (λ names. names ≡ asked_names plan.now ++ plan.now.exports_if) }
{
    let mut names = asked_names(alloc, plan)?;
    add_names(alloc, &mut names, plan.exports_if.as_slice())?;
    Ok(names)
}

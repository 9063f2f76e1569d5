//! The names whose definitions the words ask for.
ghost use Rattle.std.specs.Prelude.{◌≡◌, ◌++◌, IfOk, OnOk};
ghost use Rattle.link_rules.specs.LinkOf.{asked_names};

use link_plan::Plan;
use std::alloc::Global;
use wl_base::{Name, OutOfMemory, Seq};

/// Puts copies of names at the end.
pub fn add_names(alloc: Global, names: &mut Seq<Name>, more: &[Name]) -> Result<(), OutOfMemory>
    ensures { OnOk result (names.new ≡ names.old ++ more.now) }
{
    for name in more {
        names.push(Seq::from_slice(alloc, name.as_slice())?)?;
    }
    Ok(())
}

/// The entry, then the names of `--export`, then those of `-u`.
#[tactic(auto, unfolding(link_rules::specs::LinkOf::asked_names))]
pub fn asked_names(alloc: Global, plan: &Plan) -> Result<Seq<Name>, OutOfMemory>
    ensures { IfOk result (λ names. names ≡ asked_names plan.now) }
{
    let mut names = Seq::new(alloc);
    if let Some(entry) = &plan.entry {
        names.push(Seq::from_slice(alloc, entry.as_slice())?)?;
    }
    add_names(alloc, &mut names, plan.exports.as_slice())?;
    add_names(alloc, &mut names, plan.wanted.as_slice())?;
    Ok(names)
}

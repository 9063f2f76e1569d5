//! The rounds.
ghost use Rattle.std.specs.Prelude.{◌≡◌, ◌+◌, ℕ, List, All, length};
ghost use Rattle.std.specs.Ordering.{nat_cmp};
ghost use Rattle.std.specs.BTreeMap.{IsOrdered};
ghost use Rattle.lib_index.specs.Table.{shown};
ghost use Rattle.lib_rounds.specs.Lean.{AreAdds, lean_adds, lean};
ghost use Rattle.lib_rounds.specs.State.{World, Knows, Hold, Defines, Shows, IsEntry, seen_entries, DoesRound, RunsTo};

use crate::adds::Adds;
use crate::error::RoundError;
use crate::gather::{Sight, next_adds};
use crate::loading::add_all;
use crate::offer::Inputs;
use crate::slot::Slot;
use crate::table::Table;

/// Loads what a round adds, and answers what the next one adds.
fn round(
    inputs: Inputs<'_>,
    slots: &mut Vec<Slot<'_>>,
    definers: &mut Table,
    lazies: &Table,
    adds: &mut Adds,
) -> Result<Adds, RoundError>
    ghost w: { World }
    requires knows { Knows w.all inputs.libraries.now inputs.files.now (shown lazies.now) }
    requires hold { Hold w.all slots.old.items }
    requires defines { Defines w.mode slots.old.items (shown definers.old) }
    requires ordered { IsOrdered nat_cmp adds.old }
    requires entries { All (λ e. IsEntry w.all inputs.libraries.now inputs.files.now slots.old.items e.0 e.1) adds.old.entries }
    ensures { DoesRound result w inputs.entry.libraries.now inputs.entry.files.now slots.old.items adds.old slots.new.items (shown definers.new) }
{
    let new = add_all(inputs, slots, definers, adds)?;
    let sight = Sight {
        inputs,
        lazies,
        definers: &*definers,
        slots: slots.as_slice(),
    };
    let next = next_adds(sight, new.as_slice())?;
    Ok(next)
}

/// Does one round after another, up to the one that adds nothing.
pub fn run(
    inputs: Inputs<'_>,
    slots: &mut Vec<Slot<'_>>,
    definers: &mut Table,
    lazies: &Table,
    adds: Adds,
) -> Result<(), RoundError>
    ghost w: { World }
    requires knows { Knows w.all inputs.libraries.now inputs.files.now (shown lazies.now) }
    requires hold { Hold w.all slots.old.items }
    requires defines { Defines w.mode slots.old.items (shown definers.old) }
    requires ordered { IsOrdered nat_cmp adds }
    requires entries { All (λ e. IsEntry w.all inputs.libraries.now inputs.files.now slots.old.items e.0 e.1) adds.entries }
    ensures { (loaded : List ℕ) (names : List (List ℕ)) → Shows w.all slots.old.items loaded → AreAdds (seen_entries adds) (lean_adds w.mode w.all loaded names)
        → RunsTo result (lean w.mode w.all (length w.all + 1) loaded names) w.all slots.new.items }
{
    let rounds = slots.as_slice().len() + 1;
    let mut adds = adds;
    for _ in 0..rounds {
        if adds.len() == 0 {
            return Ok(());
        }
        adds = round(inputs, slots, definers, lazies, &mut adds)?;
    }
    Ok(())
}

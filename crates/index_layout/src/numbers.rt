//! Keys by number.
ghost use Rattle.std.specs.Prelude.{◌≡◌, ◌<◌, ◌^◌, ◌+◌, ◌++◌, length, IfOk};
ghost use Rattle.index_layout.specs.Numbers.{number_in, AllDiffer};

use indexmap::IndexSet;
use std::alloc::Global;
use std::marker::Model;
use wl_base::OutOfMemory;

/// Keys, each with its place as its number. Contracts see it as the list of its keys.
#[derive(Drop)]
pub struct Numbers {
    keys: IndexSet<u64>,
}

impl Model for Numbers {
    ghost use Rattle.std.specs.Prelude.{List, ℕ, length, ◌<◌, ◌^◌};

    ghost Value = { List ℕ };

    ghost view = { λ n. n.keys.keys };

    ghost invariant = { λ n. length n.keys.keys < 2 ^ 32 };
}

impl Numbers {
    /// The number of a key; `None` exactly where it isn't there.
    pub fn of(&self, key: u64) -> Option<u32>
        ensures { result ≡ number_in self.now key }
    {
        let at = self.keys.get_index_of(&key)?;
        Some(at as u32)
    }
}

/// Numbers the imports from 0, and then what is defined (Core 2.5.1). All keys differ.
#[tactic(auto, using(crate::proofs::Keys::next_import, crate::proofs::Keys::next_defined))]
pub fn number(alloc: Global, imports: &[u64], defined: &[u64]) -> Result<Numbers, OutOfMemory>
    requires differ { AllDiffer (imports.now ++ defined.now) }
    requires few { length imports.now + length defined.now < 2 ^ 32 }
    ensures { IfOk result (λ n. n ≡ imports.now ++ defined.now) }
{
    let mut keys = IndexSet::with_capacity(alloc, imports.len() + defined.len())?;
    for key in imports {
        keys.insert(*key)?;
    }
    for key in defined {
        keys.insert(*key)?;
    }
    Ok(Numbers { keys })
}

//! Names, with numbers in the order in which they were first seen.
ghost use Rattle.std.specs.Prelude.{◌≡◌, ◌<◌, [], Some, length, slice_get};
ghost use Rattle.wl_base.specs.Names.{number_of, interned, Interns};

use crate::{Key, KeyRef, OutOfMemory};
use indexmap::IndexSet;
use std::alloc::{AllocFailed, Global};
use std::marker::Model;

/// Why a name is given no number.
#[derive(Clone, Copy, Debug, PartialEq, Eq)]
pub enum NameFault {
    /// The name is new, and the table holds as many names as it may.
    TooMany,
    /// Memory was refused.
    OutOfMemory,
}

impl From<OutOfMemory> for NameFault {
    ghost use Rattle.std.specs.Prelude.{◌≡◌};
    ghost use Rattle.wl_base.specs.declared.name_table.NameFault.TheVariants.{OutOfMemory as WantOfMemory};

    ghost from_gives = { λ _ e. e ≡ WantOfMemory };

    fn from(_: OutOfMemory) -> Self {
        NameFault::OutOfMemory
    }
}

impl<T: Drop> From<AllocFailed<T>> for NameFault {
    ghost use Rattle.std.specs.Prelude.{◌≡◌};
    ghost use Rattle.wl_base.specs.declared.name_table.NameFault.TheVariants.{OutOfMemory as WantOfMemory};

    ghost from_gives = { λ _ e. e ≡ WantOfMemory };

    fn from(_: AllocFailed<T>) -> Self {
        NameFault::OutOfMemory
    }
}

/// A table of at most `limit` different names, each with a number from 0 in the order in which they came.
#[derive(Drop)]
pub struct NameTable {
    names: IndexSet<Key>,
    limit: u32,
    alloc: Global,
}

impl Model for NameTable {
    ghost use Rattle.std.specs.Prelude.{◌<◌, ◌≤◌, ◌^◌, length, map};
    ghost use Rattle.wl_base.specs.Names.{Names};

    ghost Value = { Names };

    ghost view = { λ t. record { limit = t.limit; names = t.names.keys } };

    ghost invariant = { λ t. (length t.names.keys ≤ t.limit) × (t.limit < 2 ^ 32) };
}

impl NameTable {
    /// The table that holds no name. It takes no memory.
    pub fn new(alloc: Global, limit: u32) -> NameTable
        ensures { result ≡ record { limit = limit; names = [] } }
    {
        NameTable {
            names: IndexSet::new(alloc),
            limit,
            alloc,
        }
    }

    /// The number of the name, which is the next one where the name is new: `TooMany` exactly where it is new and `limit` names are
    /// held, else perhaps `OutOfMemory`. A name that is held takes no memory, and a refused one leaves the table as it was.
    pub fn intern(&mut self, name: &[u8]) -> Result<u32, NameFault>
        ensures { Interns result (interned self.old name.now) self.old self.new }
    {
        if let Some(number) = self.find(name) {
            return Ok(number);
        }
        let number = self.count();
        if number >= self.limit {
            return Err(NameFault::TooMany);
        }
        self.names.insert(Key::new(self.alloc, name)?)?;
        Ok(number)
    }

    /// How many names are held.
    pub fn count(&self) -> u32
        ensures { result ≡ length self.now.names }
    {
        self.names.len() as u32
    }

    /// The name of a number below the count.
    pub fn name(&self, number: u32) -> &[u8]
        requires { number < length self.now.names }
        ensures name { slice_get self.now.names number ≡ Some result.now }
        ensures own { number_of self.now.names result.now ≡ Some number }
    {
        self.names.as_slice()[number as usize].as_slice()
    }

    /// The number of a name; `None` exactly where it isn't held.
    pub fn find(&self, name: &[u8]) -> Option<u32>
        ensures { result ≡ number_of self.now.names name.now }
    {
        let number = self.names.get_index_of(KeyRef { bytes: name })?;
        Some(number as u32)
    }
}

//! What a round adds.
ghost use Rattle.std.specs.Prelude.{◌≡◌, ◌∷◌, ◌++◌, [], ℕ, Some, drop, slice_get, option_copied, unwrap_or, IfOk};
ghost use Rattle.lib_rounds.specs.Held.{further};

use crate::offer::Offer;
use std::alloc::Global;
use std::collections::BTreeMap;
use std::marker::Model;
use wl_base::{InputId, OutOfMemory, Seq};
use wl_lists::Lists;

/// The names for which an input is added, one at least. Mostly there is no other, which takes one piece of memory.
#[derive(Drop)]
pub struct WantedNames {
    first: Seq<u8>,
    more: Option<Box<Lists<u8>>>,
}

impl Model for WantedNames {
    ghost use Rattle.std.specs.Prelude.{List, ◌∷◌, ℕ};
    ghost use Rattle.lib_rounds.specs.Held.{further};

    ghost Value = { List (List ℕ) };

    ghost view = { λ n. n.first ∷ further n.more };
}

/// The lists, or none.
fn or_none(alloc: Global, more: Option<Box<Lists<u8>>>) -> Lists<u8>
    ensures { result ≡ further more }
{
    match more {
        Some(more) => Box::into_inner(more),
        None => Lists::new(alloc),
    }
}

impl WantedNames {
    /// One name.
    pub fn of(alloc: Global, name: &[u8]) -> Result<WantedNames, OutOfMemory>
        ensures { IfOk result (λ names. names ≡ name.now ∷ []) }
    {
        Ok(WantedNames {
            first: Seq::from_slice(alloc, name)?,
            more: None,
        })
    }

    /// The same with one more at the end.
    pub fn with(self, alloc: Global, name: &[u8]) -> Result<WantedNames, OutOfMemory>
        ensures { IfOk result (λ names. names ≡ self ++ name.now ∷ []) }
    {
        let WantedNames { first, more } = self;
        let mut more = or_none(alloc, more);
        more.push(name)?;
        Ok(WantedNames {
            first,
            more: Some(Box::new(alloc, more)?),
        })
    }

    /// The first name.
    pub fn first(&self) -> &[u8]
        ensures { slice_get self.now 0 ≡ Some result.now }
    {
        self.first.as_slice()
    }

    /// The names behind the first one, where there are any.
    pub fn more(&self) -> Option<&Lists<u8>>
        ensures { drop 1 self.now ≡ unwrap_or (option_copied result) [] }
    {
        match &self.more {
            Some(more) => Some(more),
            None => None,
        }
    }
}

/// The names for which an input is added.
#[derive(Drop)]
pub struct Wanted {
    pub offer: Offer,
    pub names: WantedNames,
}

/// What a round adds, by input.
pub type Adds = BTreeMap<InputId, Wanted>;

//! Codes by place: a key is found by its code in constant time.
ghost use Rattle.std.specs.Prelude.{◌≡◌, List, IfOk, OnOk};
ghost use Rattle.indexmap.specs.IndexMap.{get};
ghost use Rattle.link_keys.specs.declared.codes.Code.{Code as Item};
ghost use Rattle.link_keys.specs.Codes.{same_code};
ghost use Rattle.link_numbers.specs.Places.{place_of, noted_place};
ghost use Rattle.sym_parts.specs.Keys.{ArePlaces};

use indexmap::IndexMap;
use link_keys::Code;
use std::alloc::Global;
use wl_base::OutOfMemory;

/// Codes, each with its place in a list: the first one, where it stands there twice.
#[derive(Drop)]
pub(crate) struct Places {
    pub(crate) map: IndexMap<Code, u32>,
}

/// Notes the place of a code, unless it has one.
fn note(map: &mut IndexMap<Code, u32>, code: Code, at: u32) -> Result<(), OutOfMemory>
    ensures { OnOk result ((other : Item) → get same_code map.new other
        ≡ noted_place (get same_code map.old code) (same_code code other) at (get same_code map.old other)) }
{
    if map.get(&code).is_some() {
        return Ok(());
    }
    map.insert(code, at)?;
    Ok(())
}

impl Places {
    /// The places of these codes. 2^32 codes and more are answered as want of memory.
    pub(crate) fn new(alloc: Global, codes: &[Code]) -> Result<Places, OutOfMemory>
        ensures { IfOk result (λ places. ArePlaces codes.now places) }
    {
        if codes.len() > u32::MAX as usize {
            return Err(OutOfMemory);
        }
        let mut map: IndexMap<Code, u32> = IndexMap::with_capacity(alloc, codes.len())?;
        for at in 0..codes.len() {
            note(&mut map, codes[at], at as u32)?;
        }
        Ok(Places { map })
    }

    /// The place of a code.
    pub(crate) fn find(&self, code: Code) -> Option<u32>
        ensures { (codes : List Item) → ArePlaces codes self.now → result ≡ place_of codes code }
    {
        match self.map.get(&code) {
            Some(place) => Some(*place),
            None => None,
        }
    }
}

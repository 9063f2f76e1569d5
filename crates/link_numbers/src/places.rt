//! Codes by place.
ghost use Rattle.std.specs.Prelude.{◌≡◌, List, unwrap_or, IfOk, OnOk};
ghost use Rattle.link_keys.specs.declared.codes.Code.{Code as Item};
ghost use Rattle.indexmap.specs.IndexMap.{get};
ghost use Rattle.link_keys.specs.Codes.{same_code};
ghost use Rattle.link_numbers.specs.Places.{place_of, noted_place, ArePlaces};

use indexmap::IndexMap;
use link_keys::Code;
use std::alloc::Global;
use wl_base::OutOfMemory;

/// Codes, each with its place in a list: the first one, where it stands there twice.
#[derive(Drop)]
pub(crate) struct Places {
    pub(crate) map: IndexMap<Code, u32>,
}

/// Notes the place of a code, unless it has one.
fn note(map: &mut IndexMap<Code, u32>, code: Code, at: u32) -> Result<(), OutOfMemory>
    ensures { OnOk result ((other : Item) → get same_code map.new other
        ≡ noted_place (get same_code map.old code) (same_code code other) at (get same_code map.old other)) }
{
    if map.get(&code).is_some() {
        return Ok(());
    }
    map.insert(code, at)?;
    Ok(())
}

impl Places {
    /// The places of these codes. 2^32 codes and more are answered as want of memory.
    pub(crate) fn new(alloc: Global, codes: &[Code]) -> Result<Places, OutOfMemory>
        ensures { IfOk result (λ places. ArePlaces codes.now places) }
    {
        if codes.len() > u32::MAX as usize {
            return Err(OutOfMemory);
        }
        let mut map: IndexMap<Code, u32> = IndexMap::with_capacity(alloc, codes.len())?;
        for at in 0..codes.len() {
            note(&mut map, codes[at], at as u32)?;
        }
        Ok(Places { map })
    }

    /// The place of a code, or 0.
    pub(crate) fn of_or_first(&self, code: Code) -> u32
        ensures { (codes : List Item) → ArePlaces codes self.now → result ≡ unwrap_or (place_of codes code) 0 }
    {
        match self.map.get(&code) {
            Some(place) => *place,
            None => 0,
        }
    }
}

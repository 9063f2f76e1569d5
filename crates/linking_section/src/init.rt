//! Functions that run at the start.
ghost use Rattle.wasm_grammar.specs.Fault.{Reads};
ghost use Rattle.linking_section.specs.Linking.{SpellsInit};
ghost use Rattle.linking_section.specs.Reading.{init_at};

use std::alloc::Global;
use wasm_grammar::{Form, ReadFault, Stop, u32_at};

/// A function that runs at the start (Linking.md, 'Linking Metadata Section').
#[derive(Clone, Copy, Debug, PartialEq, Eq)]
pub struct InitFunc {
    /// When it runs: those of smaller numbers run first.
    pub priority: u32,
    /// The symbol of the function.
    pub symbol: u32,
}

/// The entry at the front, and the bytes after it.
#[tactic(auto, unfolding(crate::specs::Reading::init_at))]
pub fn init_at(end: usize, bytes: &[u8]) -> Result<(InitFunc, &[u8]), Stop>
    ensures { Reads (λ x. (x.0, x.1.now)) result (init_at end bytes.now) }
{
    let (priority, rest) = u32_at(end, bytes)?;
    let (symbol, rest) = u32_at(end, rest)?;
    Ok((InitFunc { priority, symbol }, rest))
}

impl Form for InitFunc {
    ghost use Rattle.linking_section.specs.ItemLaws.{init_reader};

    ghost spells = { SpellsInit };

    ghost read_at = { init_at };

    ghost exact = { init_reader };

    fn form_at(_alloc: Global, end: usize, bytes: &[u8]) -> Result<(InitFunc, &[u8]), ReadFault> {
        Ok(init_at(end, bytes)?)
    }
}

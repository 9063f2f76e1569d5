//! The numbers of the names of a link.
ghost use Rattle.program_build.specs.Steps.{Numbered};

use crate::words::words_of;
use link_plan::Plan;
use loose_calls::{LinkError, Names, Object};
use made_symbols::Mode;
use std::alloc::Global;
use wl_base::{Fault, NameFault};

/// The most different names that a link may have.
const MOST_NAMES: u32 = 1 << 24;

/// The numbers of the names of these objects and of the words, which are refused where they are more than 2^24.
pub(crate) fn numbers_of(
    alloc: Global,
    plan: &Plan,
    objects: &[Object],
    mode: Mode,
) -> Result<Names, LinkError>
    ensures { Numbered mode result plan.now objects.now }
{
    let words = words_of(alloc, plan)?;
    match Names::new(alloc, mode, words.as_slice(), objects, MOST_NAMES) {
        Ok(names) => Ok(names),
        Err(NameFault::TooMany) => Err(LinkError::Refused(Fault::TooManyNames)),
        Err(NameFault::OutOfMemory) => Err(LinkError::OutOfMemory),
    }
}

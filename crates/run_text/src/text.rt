//! All of a trace.
ghost use Rattle.std.specs.Prelude.{◌≡◌, IfOk};
ghost use Rattle.run_text.specs.Text.{trace_text};

use crate::digits::put_text;
use crate::events::{put_events, put_globals};
use crate::memory::put_memory;
use run_rules::Trace;
use std::alloc::Global;
use wl_base::{OutOfMemory, Seq};

/// The text of a trace.
///
/// # Errors
/// Want of memory.
#[tactic(auto, unfolding(crate::specs::Text::trace_text))]
pub fn trace_text(alloc: Global, trace: &Trace) -> Result<Seq<u8>, OutOfMemory>
    ensures { IfOk result (λ text. text ≡ trace_text trace.now) }
{
    let mut text = Seq::new(alloc);
    put_events(&mut text, trace.events.as_slice())?;
    put_memory(&mut text, trace.memory.as_slice())?;
    put_globals(&mut text, trace.globals.as_slice())?;
    put_text(&mut text, "end\n")?;
    Ok(text)
}

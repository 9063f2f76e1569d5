//! What a link would tell of calls, where its output isn't wanted.
ghost use Rattle.std.specs.Prelude.{◌≡◌, ◌<◌, ◌^◌, IfSome, length, unwrap_or};
ghost use Rattle.wl_outside.specs.Shelf.{Same, Grows};
ghost use Rattle.link_plan.specs.Plan.{IsPlan};
ghost use Rattle.link_core.specs.Whole.{told_calls};
ghost use Rattle.link_command.specs.Telling.{WouldTell};

use crate::asked::Asked;
use crate::command::read_plan;
use crate::inputs::files;
use link_core::{LinkError, Mismatch, link_telling};
use link_words::Plan;
use std::alloc::Global;
use std::thread::Threads;
use wl_base::{Seq, Text};
use wl_outside::{Gate, Shelf};

// What the link of files tells, unless memory is refused.
fn told_of<R: Threads + Sync, G: Gate>(
    rt: &R,
    alloc: Global,
    plan: &Plan,
    files: &[Seq<u8>],
    gate: &G,
) -> Option<Seq<Mismatch>>
    requires plan { IsPlan plan.now }
    requires files { length files.now ≡ unwrap_or plan.now.make_case (length plan.now.inputs) }
    ensures { IfSome result (λ told. told ≡ told_calls plan.now files.now) }
{
    let mut told = Seq::new(alloc);
    match link_telling(rt, alloc, plan, files, gate, &mut told) {
        Ok(_) | Err(LinkError::Refused(_)) => Some(told),
        Err(LinkError::OutOfMemory) => None,
    }
}

/// The functions that are called by another type than their definition has, in a link by these words that is like lld's, with what is asked beside
/// them, and lets such calls through. Nothing is saved. There is no list where the words have no plan, an input can't be read or memory is refused.
pub fn tell_calls<R: Threads + Sync, F: Shelf, G: Gate>(
    rt: &R,
    alloc: Global,
    words: &[Text],
    asked: &Asked,
    shelf: &mut F,
    gate: &G,
) -> Option<Seq<Mismatch>>
    requires { length words.now < 2 ^ 32 }
    ensures told { IfSome result (λ told. WouldTell asked.now (F.shown shelf.old) words.now told) }
    ensures held { Same (F.shown shelf.old) (F.shown shelf.new) }
    ensures counts { Grows (F.shown shelf.old) (F.shown shelf.new) }
{
    let Ok(plan) = read_plan(alloc, words, true, true, asked) else {
        return None;
    };
    let Ok(files) = files(alloc, &plan, words, shelf) else {
        return None;
    };
    told_of(rt, alloc, &plan, files.as_slice(), gate)
}

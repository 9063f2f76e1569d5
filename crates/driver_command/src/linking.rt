//! The link by the linker's own words, as LLVM's linker does it, without its lines. Where warnings are errors, a function that is called by
//! another type than its definition has refuses the link: in a link with strict calls it is a clash. A fault names no types, so on the way
//! to that error alone a second link, with loose calls, tells which calls these are. Where it tells of none, as where the address alone of
//! such a function is taken, the link is done with loose calls.

ghost use Rattle.std.specs.Prelude.{◌≡◌, true, [], ◌<◌, ◌^◌, length};
ghost use Rattle.wl_outside.specs.Shelf.{Grows};
ghost use Rattle.link_command.specs.Command.{planned};
ghost use Rattle.link_command.specs.Telling.{Tells};
ghost use Rattle.driver_command.specs.Causes.{is_clash as is_clash_of, AreCauses, TellsOf};
ghost use Rattle.driver_command.specs.Linked.{LinksBy, LinksAs};

use link_command::{Asked, Mismatch, Status, link_like_lld, tell_calls};
use std::alloc::Global;
use std::thread::Threads;
use wl_base::{Fault, Seq, Text};
use wl_outside::{Gate, Shelf};

/// How a link ended, and what is to be told of calls.
#[derive(Drop)]
pub struct Quiet {
    pub status: Status,
    pub told: Seq<Mismatch>,
}

// A link that tells nothing of calls.
fn silent(alloc: Global, status: Status) -> Quiet
    ensures { result ≡ record { status = status; told = [] } }
{
    Quiet {
        status,
        told: Seq::new(alloc),
    }
}

// A link with loose calls, which tells of them, or with strict ones.
fn link_once<R: Threads + Sync, F: Shelf, G: Gate>(
    rt: &R,
    alloc: Global,
    own: &[Text],
    asked: &Asked,
    loose: bool,
    shelf: &mut F,
    gate: &G,
) -> Quiet
    requires { length own.now < 2 ^ 32 }
    ensures shows { LinksBy loose asked.now result.status (F.shown shelf.old) (F.shown shelf.new) own.now }
    ensures told { Tells (planned true loose asked.now own.now) result.status (F.shown shelf.old) own.now result.told }
    ensures counts { Grows (F.shown shelf.old) (F.shown shelf.new) }
{
    let mut told = Seq::new(alloc);
    let status = link_like_lld(rt, alloc, own, loose, asked, shelf, gate, &mut told);
    Quiet { status, told }
}

fn is_clash(status: &Status) -> bool
    ensures { result ≡ is_clash_of status.now }
{
    match status {
        Status::Refused(fault) => matches!(fault, Fault::Clash { .. }),
        Status::Linked
        | Status::Usage(_)
        | Status::ReadFault(_)
        | Status::WriteFault
        | Status::NoMemory => false,
    }
}

// A link that calls by another type refuse, and which these are.
fn link_strictly<R: Threads + Sync, F: Shelf, G: Gate>(
    rt: &R,
    alloc: Global,
    own: &[Text],
    asked: &Asked,
    shelf: &mut F,
    gate: &G,
) -> Quiet
    requires { length own.now < 2 ^ 32 }
    ensures shows { LinksAs true asked.now result.status (F.shown shelf.old) (F.shown shelf.new) own.now }
    ensures told { AreCauses asked.now result.status (F.shown shelf.new) own.now result.told }
    ensures counts { Grows (F.shown shelf.old) (F.shown shelf.new) }
{
    let strict = link_once(rt, alloc, own, asked, false, shelf, gate);
    if !is_clash(&strict.status) {
        return silent(alloc, strict.status);
    }
    let Some(told) = tell_calls(rt, alloc, own, asked, shelf, gate) else {
        return silent(alloc, strict.status);
    };
    if told.is_empty() {
        let loose = link_once(rt, alloc, own, asked, true, shelf, gate);
        return silent(alloc, loose.status);
    }
    Quiet {
        status: strict.status,
        told,
    }
}

/// Links by the linker's own words and what is asked beside them, as LLVM's linker does it, and says nothing. Where warnings are errors, calls by another type than the
/// definition has refuse the link.
pub fn link_quietly<R: Threads + Sync, F: Shelf, G: Gate>(
    rt: &R,
    alloc: Global,
    own: &[Text],
    fatal: bool,
    asked: &Asked,
    shelf: &mut F,
    gate: &G,
) -> Quiet
    requires { length own.now < 2 ^ 32 }
    ensures shows { LinksAs fatal asked.now result.status (F.shown shelf.old) (F.shown shelf.new) own.now }
    ensures told { TellsOf fatal asked.now result.status (F.shown shelf.old) (F.shown shelf.new) own.now result.told }
    ensures counts { Grows (F.shown shelf.old) (F.shown shelf.new) }
{
    if fatal {
        return link_strictly(rt, alloc, own, asked, shelf, gate);
    }
    link_once(rt, alloc, own, asked, true, shelf, gate)
}

//! Both races over objects that were read, by one worker and by several.
ghost use Rattle.name_entries.specs.made_symbols.declared.mode.Mode.TheVariants.{Plain};
ghost use Rattle.name_entries.specs.Fits.{Fits};

use crate::looking::{Look, Seen, look_at};
use crate::objects::{grouped, strong, weak};
use comdat_pick::ComdatWinners;
use made_symbols::Mode;
use name_entries::{Entries, Names};
use name_jobs::name_winners;
use std::alloc::Global;
use std::thread::Threads;
use symbol_race::{Winners, rank};
use wl_fan::Workers;
use wl_outside::OpenGate;

/// An object with a function that is `f`, weak and in the group `g`.
fn weak_grouped() -> &'static [u8] {
    b"\0asm\x01\0\0\0\x01\x04\x01`\0\0\x03\x02\x01\0\x0a\x04\x01\x02\0\x0b\0\x1a\x07linking\x02\x08\x06\x01\0\x01\0\x01f\x07\x07\x01\x01g\0\x01\x01\0".as_slice()
}

/// Who won: the group `g`, by its input, and the name `f`, by the rank of its definition.
#[derive(Clone, Copy, PartialEq, Eq)]
pub struct Won {
    group: Option<u32>,
    name: Option<u64>,
}

/// The input that has the group `g`.
pub fn winner_of_group(names: &Names, winners: &ComdatWinners) -> Option<u32> {
    match names.find(b"g".as_slice()) {
        Some(number) => winners.of(number),
        None => None,
    }
}

/// The rank of the definition of `f`.
pub fn winner_of_name(names: &Names, winners: &Winners) -> Option<u64> {
    match names.find(b"f".as_slice()) {
        Some(number) => winners.of(number),
        None => None,
    }
}

/// The winners by both races.
pub fn won_by<R: Threads + Sync>(
    rt: &R,
    alloc: Global,
    entries: Entries<'_>,
    groups: &ComdatWinners,
    workers: Workers,
) -> Option<Won>
    requires { Fits Plain entries }
{
    let names = entries.names;
    let Ok(winners) = name_winners(rt, alloc, entries, Mode::Plain, workers, &OpenGate) else {
        return None;
    };
    Some(Won {
        group: winner_of_group(names, groups),
        name: winner_of_name(names, &winners),
    })
}

/// Three files, the input that has the group, and the rank of the definition.
type Case = ([&'static [u8]; 3], Option<u32>, u64);

fn cases() -> [Case; 4] {
    [
        // a strong definition wins over a weak one that came first
        ([weak(), strong(), weak()], None, rank(0, 2, 0)),
        // of two weak ones the first wins
        ([weak(), weak(), weak()], None, rank(1, 1, 0)),
        // the first group wins, and a strong definition in the same group of another input is not kept
        ([weak_grouped(), grouped(), weak()], Some(1), rank(1, 1, 0)),
        // a definition outside the group is
        (
            [weak_grouped(), grouped(), strong()],
            Some(1),
            rank(0, 3, 0),
        ),
    ]
}

/// Whether these win of the files, by so many workers.
fn wins<R: Threads + Sync>(
    rt: &R,
    alloc: Global,
    files: &[&[u8]],
    workers: u32,
    wanted: Won,
) -> bool {
    match look_at(rt, alloc, files, workers, Look::Winners) {
        Some(Seen::Winners(won)) => won == wanted,
        _ => false,
    }
}

/// Whether these win in each case, whoever works.
fn win<R: Threads + Sync>(rt: &R, alloc: Global, cases: &[Case]) -> bool {
    for (files, group, name) in cases {
        let wanted = Won {
            group: *group,
            name: Some(*name),
        };
        for workers in [1u32, 2, 64] {
            if !wins(rt, alloc, files, workers, wanted) {
                return false;
            }
        }
    }
    true
}

#[test]
fn the_least_wins_whoever_works(rt: HostRuntime) {
    assert!(rt; win(&rt, rt.alloc(), &cases()));
}

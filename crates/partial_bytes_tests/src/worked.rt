//! The objects of the worked partial links.

use crate::cases::{Case, made};
use crate::trees::is_written_again;
use std::alloc::Global;
use std::thread::Threads;

fn all_are_written<R: Threads + Sync>(rt: &R, alloc: Global) -> bool {
    for case in [
        Case::Call,
        Case::Grouped,
        Case::Mixed,
        Case::Ordered,
        Case::Unused,
    ] {
        if !is_written_again(rt, alloc, made(case)) {
            return false;
        }
    }
    true
}

#[test]
fn worked_objects_are_written(rt: HostRuntime) {
    let holds = all_are_written(&rt, rt.alloc());
    assert!(rt; holds);
}

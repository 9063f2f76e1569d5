//! Slots of the functions in the table.
ghost use Rattle.table_layout.specs.Slots.{Rises};

use std::alloc::Global;
use table_layout::{Slots, slots};
use wl_base::{LayoutError, What};

/// Whether functions have these slots, or none.
fn have(slots: &Slots, wanted: &[(u32, Option<u32>)]) -> bool {
    for (function, slot) in wanted {
        if slots.of(*function) != *slot {
            return false;
        }
    }
    true
}

/// Whether these functions have their slots so, from the first one on.
fn are_placed(alloc: Global, first: u32, functions: &[u32], wanted: &[(u32, Option<u32>)]) -> bool
    requires { Rises functions.now }
{
    match slots(alloc, first, functions) {
        Ok(slots) => slots.functions() == functions && have(&slots, wanted),
        Err(_) => false,
    }
}

#[test]
fn slots_go_by_place(rt: HostRuntime) {
    let wanted = [
        (3, Some(1)),
        (4, Some(2)),
        (9, Some(3)),
        (0, None),
        (5, None),
        (10, None),
    ];
    assert!(rt; are_placed(rt.alloc(), 1, &[3, 4, 9], &wanted));
}

/// Whether the slots of two functions, from the last but one on, pass the end.
fn passes_the_end(alloc: Global) -> bool {
    match slots(alloc, u32::MAX - 1, &[3, 4]) {
        Ok(_) => false,
        Err(fault) => {
            fault
                == LayoutError::Overflow {
                    what: What::TableSize,
                    needed: 4_294_967_296,
                }
        }
    }
}

#[test]
fn the_end_of_the_slots(rt: HostRuntime) {
    let wanted = [(4, Some(u32::MAX - 1))];
    assert!(rt; are_placed(rt.alloc(), u32::MAX - 2, &[3, 4], &wanted));
    assert!(rt; passes_the_end(rt.alloc()));
}

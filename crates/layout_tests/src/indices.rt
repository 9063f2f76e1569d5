//! Numbers of what is imported and defined.
ghost use Rattle.std.specs.Prelude.{◌+◌, ◌++◌, ◌<◌, ◌^◌, length};
ghost use Rattle.index_layout.specs.Numbers.{AllDiffer};

use index_layout::{Numbers, number};
use std::alloc::Global;

/// Whether these keys have the numbers from 0 on.
fn are_numbered(numbers: &Numbers, keys: &[u64]) -> bool {
    let mut place: u32 = 0;
    for key in keys {
        if numbers.of(*key) != Some(place) {
            return false;
        }
        place = place.saturating_add(1);
    }
    true
}

/// Whether none of these keys has a number.
fn are_without(numbers: &Numbers, keys: &[u64]) -> bool {
    for key in keys {
        if numbers.of(*key).is_some() {
            return false;
        }
    }
    true
}

/// Whether imports and definitions have numbers so, and other keys none.
fn are_told(alloc: Global, imports: &[u64], defined: &[u64], all: &[u64], others: &[u64]) -> bool
    requires differ { AllDiffer (imports.now ++ defined.now) }
    requires few { length imports.now + length defined.now < 2 ^ 32 }
{
    match number(alloc, imports, defined) {
        Ok(numbers) => are_numbered(&numbers, all) && are_without(&numbers, others),
        Err(_) => false,
    }
}

#[test]
fn imports_come_first(rt: HostRuntime) {
    let imports = [70, u64::MAX];
    let defined = [9, 0, 5];
    let all = [70, u64::MAX, 9, 0, 5];
    let others = [6, 71, 1 << 32];
    assert!(rt; are_told(rt.alloc(), &imports, &defined, &all, &others));
    assert!(rt; are_told(rt.alloc(), &[], &[], &[], &[0]));
}

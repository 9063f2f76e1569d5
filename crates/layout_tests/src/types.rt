//! Types of functions, each of which stands once.

use std::alloc::Global;
use std::test::Fail;
use test_kit::func_type;
use type_merge::TypeTable;
use wasm_types::{FuncType, ValType};
use wl_base::OutOfMemory;

const TYPES: [ValType; 2] = [ValType::I32, ValType::I64];

/// A type that is added: how many of the two types above it takes, and how many it gives. And the number that it has then.
#[derive(Clone, Copy)]
struct Added {
    params: usize,
    results: usize,
    number: u32,
}

/// The number that the table gives: of the type whole, or of its two lists.
fn number(
    alloc: Global,
    table: &mut TypeTable,
    whole: bool,
    added: Added,
) -> Result<u32, OutOfMemory> {
    if table.types().len() > 100 {
        return Err(OutOfMemory);
    }
    let types = TYPES;
    let params = &types[..added.params.min(2)];
    let results = &types[..added.results.min(2)];
    if whole {
        let t = func_type(alloc, params, results)?;
        table.add(&t)
    } else {
        table.add_of(params, results)
    }
}

/// Whether each has its number.
fn are_numbered(alloc: Global, table: &mut TypeTable, whole: bool, all: &[Added]) -> bool {
    let mut right = true;
    for added in all {
        right &= number(alloc, table, whole, *added) == Ok(added.number);
    }
    right
}

/// Whether a type stands at its number, after all were added twice.
fn stands(alloc: Global, all: &[Added], sought: &FuncType, at: usize) -> bool {
    let mut table = TypeTable::new(alloc);
    let first = are_numbered(alloc, &mut table, true, all);
    let again = are_numbered(alloc, &mut table, false, all);
    first && again && table.types().get(at) == Some(sought)
}

fn to_add(params: usize, results: usize, number: u32) -> Added {
    Added {
        params,
        results,
        number,
    }
}

#[test]
fn each_type_stands_once(rt: HostRuntime) -> Result<(), Fail> {
    let all = [
        to_add(1, 0, 0),
        to_add(0, 1, 1),
        to_add(1, 0, 0),
        to_add(0, 2, 2),
        to_add(2, 0, 3),
        to_add(0, 0, 4),
    ];
    let sought = func_type(rt.alloc(), &TYPES, &[])?;
    assert!(rt; stands(rt.alloc(), &all, &sought, 3));
    assert!(rt; !stands(rt.alloc(), &all, &sought, 5));
    Ok(())
}

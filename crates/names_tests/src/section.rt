//! The section of two functions, and that of none.

use name_section::{FunctionName, write_names};
use std::alloc::Global;

/// The whole section of the names below.
const SECTION: [u8; 36] = *b"\x00\x22\x04name\x01\x1b\x02\x00\x03imp\x02\x13undefined_weak:main";

/// The section of an import and of a stub.
fn written(alloc: Global) -> Option<bool> {
    let names = [
        FunctionName {
            index: 0,
            prefix: &[],
            name: b"imp".as_slice(),
        },
        FunctionName {
            index: 2,
            prefix: b"undefined_weak:".as_slice(),
            name: b"main".as_slice(),
        },
    ];
    let section = write_names(alloc, names.as_slice()).ok()?;
    Some(section.as_slice() == SECTION.as_slice())
}

/// How long the section of no name is.
fn empty_len(alloc: Global) -> Option<usize> {
    let section = write_names(alloc, &[]).ok()?;
    Some(section.len())
}

#[test]
fn names_are_written(rt: HostRuntime) {
    assert_eq!(rt; written(rt.alloc()), Some(true));
    assert_eq!(rt; empty_len(rt.alloc()), Some(0));
}

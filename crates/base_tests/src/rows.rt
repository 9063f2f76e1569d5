//! Lists of lists: what was pushed comes back, also when the room is given back or the end is cut off.

use std::test::Fail;
use wl_base::OutOfMemory;
use wl_lists::Lists;

/// Whether the list at a place is this one.
fn holds(lists: &Lists<u8>, at: usize, list: &[u8]) -> bool {
    match lists.get(at) {
        Some(found) => found == list,
        None => false,
    }
}

/// Three lists, one of them empty.
fn push_each(lists: &mut Lists<u8>) -> Result<(), OutOfMemory> {
    lists.push(b"ab".as_slice())?;
    lists.push(b"".as_slice())?;
    lists.push(b"cde".as_slice())
}

fn hold_each(lists: &Lists<u8>) -> bool {
    lists.len() == 3
        && holds(lists, 0, b"ab".as_slice())
        && holds(lists, 1, b"".as_slice())
        && holds(lists, 2, b"cde".as_slice())
        && lists.get(3).is_none()
}

/// Whether the first list stays where all behind it are cut off, and another comes behind it.
fn are_cut(lists: &mut Lists<u8>) -> bool {
    lists.truncate(3);
    let is_kept = lists.len() == 3;
    lists.truncate(1);
    is_kept
        && lists.push(b"f".as_slice()).is_ok()
        && holds(lists, 0, b"ab".as_slice())
        && holds(lists, 1, b"f".as_slice())
        && lists.len() == 2
}

#[test]
fn lists_come_back_as_they_were_put(rt: HostRuntime) -> Result<(), Fail> {
    let mut lists = Lists::new(rt.alloc());
    push_each(&mut lists)?;
    let is_first = holds(&lists, 0, b"ab".as_slice());
    let mut lists = lists.shrunk();
    assert!(rt; is_first && hold_each(&lists) && are_cut(&mut lists));
    Ok(())
}

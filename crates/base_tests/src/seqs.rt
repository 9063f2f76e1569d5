//! Lists, texts, faults and numbered names.

use std::alloc::Global;
use std::test::Fail;
use wl_base::{Fault, NameFault, NameTable, OutOfMemory, Seq, Text};

/// Whether an empty list gets three items by both calls.
fn grows(list: &mut Seq<u8>, want: &Seq<u8>) -> bool {
    list.is_empty()
        && list.push(1).is_ok()
        && list.extend_from_slice(&[2, 3]).is_ok()
        && *list == *want
        && list.len() == 3
}

/// Whether the last of them is taken, and then all but the first are cut off.
fn is_cut(list: &mut Seq<u8>) -> bool {
    let is_taken = list.get(1).copied() == Some(2)
        && list.pop() == Some(3)
        && list.as_slice() == [1, 2].as_slice();
    list.truncate(5);
    let is_kept = list.len() == 2;
    list.truncate(1);
    is_taken && is_kept && list.as_slice() == [1].as_slice()
}

/// Whether the list keeps its two items as a vector.
fn is_vector(list: Seq<u8>) -> bool {
    Seq::from_vec(list.into_vec()).as_slice() == [1, 2].as_slice()
}

#[test]
fn lists_grow_and_are_compared(rt: HostRuntime) -> Result<(), Fail> {
    let want = Seq::from_slice(rt.alloc(), &[1, 2, 3])?;
    let mut list = Seq::new(rt.alloc());
    let holds = grows(&mut list, &want) && is_cut(&mut list) && list.push(2).is_ok();
    assert!(rt; holds && is_vector(list));
    Ok(())
}

/// Whether a text is what was copied, and what was given.
fn have_their_bytes(alloc: Global) -> Option<bool> {
    let copied = Text::new(alloc, "a.o").ok()?;
    let given = Text::from_string(String::from_str(alloc, "b.wasm").ok()?);
    Some(copied.as_str() == "a.o" && given.as_str() == "b.wasm")
}

#[test]
fn texts_have_their_bytes(rt: HostRuntime) {
    assert!(rt; have_their_bytes(rt.alloc()) == Some(true));
}

/// An unresolved `f` of the input 0.
fn unresolved(alloc: Global) -> Result<Fault, OutOfMemory> {
    let name = Seq::from_slice(alloc, b"f".as_slice())?;
    Ok(Fault::Unresolved { name, input: 0 })
}

/// Whether two such faults are equal, and another isn't.
fn are_compared(alloc: Global) -> Result<bool, OutOfMemory> {
    let fault = unresolved(alloc)?;
    let other = unresolved(alloc)?;
    Ok(fault == other && fault != Fault::TooManyNames)
}

#[test]
fn faults_are_compared_by_all_their_fields(rt: HostRuntime) -> Result<(), Fail> {
    assert!(rt; are_compared(rt.alloc())?);
    Ok(())
}

/// Whether a table that may hold two names numbers them in turn and refuses a third.
fn are_numbered(names: &mut NameTable) -> bool {
    let [f, g, h] = [b"f".as_slice(), b"".as_slice(), b"h".as_slice()];
    names.intern(f) == Ok(0)
        && names.intern(g) == Ok(1)
        && names.intern(f) == Ok(0)
        && names.intern(h) == Err(NameFault::TooMany)
        && names.intern(g) == Ok(1)
        && names.count() == 2
        && names.find(f) == Some(0)
        && names.find(h).is_none()
}

#[test]
fn names_have_numbers_in_the_order_in_which_they_came(rt: HostRuntime) {
    let mut names = NameTable::new(rt.alloc(), 2);
    let holds = are_numbered(&mut names);
    assert!(rt; holds);
}

//! Stacks.

use std::alloc::Global;
use std::test::Fail;
use wl_base::OutOfMemory;
use wl_stack::Stack;

/// The stack with these items, the last on top.
fn stack(alloc: Global, items: &[u8]) -> Result<Stack<u8>, OutOfMemory> {
    let mut made = Stack::new(alloc);
    for &item in items {
        made.push(item)?;
    }
    Ok(made)
}

/// Whether a stack has these items, the oldest first.
fn has(stack: Stack<u8>, items: &[u8]) -> bool {
    stack.into_seq().as_slice() == items
}

/// What is kept of four items by `sink`.
fn sunk(alloc: Global, arity: usize, height: usize, items: &[u8]) -> Result<bool, OutOfMemory> {
    let mut made = stack(alloc, &[1, 2, 3, 4])?;
    if arity <= 2 && height <= 2 && made.len() == 4 {
        made.sink(arity, height)?;
    }
    Ok(has(made, items))
}

/// Whether two are taken off four and put on again.
fn taken_and_put_on(alloc: Global) -> Result<bool, OutOfMemory> {
    let mut made = stack(alloc, &[1, 2, 3, 4])?;
    if made.len() < 2 {
        return Ok(false);
    }
    let top = made.take_top(2)?;
    let left = made.len() == 2
        && made.at(0) == Some(2)
        && made.at(1) == Some(1)
        && made.at(2).is_none();
    made.put_on(top)?;
    Ok(left && has(made, &[1, 2, 3, 4]))
}

/// Whether the newest is looked at, taken off, and dropped.
fn popped_and_dropped(alloc: Global) -> Result<bool, OutOfMemory> {
    let mut made = stack(alloc, &[1, 2, 3, 4])?;
    let seen = made.top() == Some(4) && made.get(1).copied() == Some(3) && made.get(4).is_none();
    let popped = made.pop() == Some(4);
    if made.len() < 2 {
        return Ok(false);
    }
    made.drop_top(2);
    Ok(seen && popped && has(made, &[1]))
}

#[test]
fn items_are_put_on_and_taken_off(rt: HostRuntime) -> Result<(), Fail> {
    assert!(rt; popped_and_dropped(rt.alloc())?);
    assert!(rt; taken_and_put_on(rt.alloc())?);
    Ok(())
}

#[test]
fn nothing_is_on_an_empty_stack(rt: HostRuntime) -> Result<(), Fail> {
    let mut empty: Stack<u8> = Stack::new(rt.alloc());
    assert_eq!(rt; empty.len(), 0);
    assert_eq!(rt; empty.top(), None);
    assert_eq!(rt; empty.pop(), None);
    Ok(())
}

#[test]
fn what_lies_between_is_dropped(rt: HostRuntime) -> Result<(), Fail> {
    assert!(rt; sunk(rt.alloc(), 0, 1, &[1])?);
    assert!(rt; sunk(rt.alloc(), 1, 2, &[1, 2, 4])?);
    assert!(rt; sunk(rt.alloc(), 2, 1, &[1, 3, 4])?);
    Ok(())
}

//! The body of the function that calls constructors, byte for byte.

use ctor_call::body;
use std::test::Fail;

#[test]
fn constructors_are_called_in_their_order(rt: HostRuntime) -> Result<(), Fail> {
    let none = body(rt.alloc(), &[])?;
    assert_eq!(rt; none.as_slice(), b"\x00\x0B".as_slice());
    let calls = body(rt.alloc(), &[3, 300, 3, u32::MAX])?;
    assert_eq!(rt;
        calls.as_slice(),
        b"\x00\x10\x83\x80\x80\x80\x00\x10\xAC\x82\x80\x80\x00\x10\x83\x80\x80\x80\x00\x10\xFF\xFF\xFF\xFF\x0F\x0B".as_slice()
    );
    Ok(())
}

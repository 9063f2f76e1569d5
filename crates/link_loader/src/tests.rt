//! Numbers modulo 2^32; all else is tested on links.

use crate::windows::offset;

#[test]
fn offsets_wrap_round(rt: HostRuntime) {
    assert!(rt; offset(10, -20) == Ok(0xFFFF_FFF6));
    assert!(rt; offset(0xFFFF_FFFF, 2) == Ok(1));
    assert!(rt; offset(16, 4) == Ok(20));
}

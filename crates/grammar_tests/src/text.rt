//! Bytes as text: whether they are UTF-8, and where the first 0 stands.

use byte_text::{first_zero, is_utf8};

fn text_is_told() -> bool {
    is_utf8(b"")
        && is_utf8(b"main")
        // The letter U+00E4, the last character below the surrogates, and the greatest one.
        && is_utf8(&[0xc3, 0xa4])
        && is_utf8(&[0xed, 0x9f, 0xbf])
        && is_utf8(&[0xf4, 0x8f, 0xbf, 0xbf])
}

fn other_bytes_are_told() -> bool {
    !is_utf8(&[0x61, 0xff])
        // A character that is cut, one that is too long, and a surrogate.
        && !is_utf8(&[0xc3])
        && !is_utf8(&[0xc0, 0x80])
        && !is_utf8(&[0xed, 0xa0, 0x80])
}

fn zeros_are_found() -> bool {
    let mut long = [1; 100];
    let none = first_zero(&long);
    long[70] = 0;
    long[90] = 0;
    none == None
        && first_zero(&long) == Some(70)
        && first_zero(b"") == None
        && first_zero(&[0]) == Some(0)
        && first_zero(&[7, 0, 0]) == Some(1)
}

#[test]
fn text_and_zeros_are_found(rt: HostRuntime) {
    assert!(rt; text_is_told());
    assert!(rt; other_bytes_are_told());
    assert!(rt; zeros_are_found());
}

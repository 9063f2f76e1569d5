//! Numbers in seven bits a byte, written and read: spellings that are shortest, wide and of five bytes, and those that are refused.

use leb_codec::{
    LebFault, put_s32_5, put_u32_5, read_s32, read_s33, read_s64, read_u32, write_s32, write_s64,
    write_u32,
};
use std::test::Fail;

// Whether these are the bytes that are written, and alone touched, and whether they are read again
// alone and whatever follows.
fn is_u32(n: u32, bytes: &[u8]) -> bool {
    let mut to = [0xee; 10];
    let len = write_u32(n, &mut to);
    let read = Ok((n, bytes.len()));
    &to[..len] == bytes && to[9] == 0xee && read_u32(&to) == read && read_u32(bytes) == read
}

fn is_s32(n: i32, bytes: &[u8]) -> bool {
    let mut to = [0xee; 10];
    let len = write_s32(n, &mut to);
    let read = Ok((n, bytes.len()));
    &to[..len] == bytes && to[9] == 0xee && read_s32(&to) == read && read_s32(bytes) == read
}

fn is_s64(n: i64, bytes: &[u8]) -> bool {
    let mut to = [0; 10];
    let len = write_s64(n, &mut to);
    &to[..len] == bytes && read_s64(&to) == Ok((n, bytes.len()))
}

fn is_padded_u32(n: u32, bytes: [u8; 5]) -> bool {
    put_u32_5(n) == bytes && read_u32(&bytes) == Ok((n, 5))
}

fn is_padded_s32(n: i32, bytes: [u8; 5]) -> bool {
    put_s32_5(n) == bytes && read_s32(&bytes) == Ok((n, 5))
}

// Whether the readers of five bytes at most refuse these bytes so.
fn is_refused(bytes: &[u8], fault: LebFault) -> bool {
    read_u32(bytes) == Err(fault) && read_s32(bytes) == Err(fault) && read_s33(bytes) == Err(fault)
}

#[test]
fn shortest_spellings(rt: HostRuntime) {
    assert!(rt; is_u32(127, &[0x7f]));
    assert!(rt; is_u32(128, &[0x80, 0x01]));
    assert!(rt; is_u32(65536, &[0x80, 0x80, 0x04]));
    assert!(rt; is_u32(u32::MAX, &[0xff, 0xff, 0xff, 0xff, 0x0f]));
    assert!(rt; is_s32(63, &[0x3f]));
    assert!(rt; is_s32(64, &[0xc0, 0x00]));
    assert!(rt; is_s32(-16, &[0x70]));
    assert!(rt; is_s32(-64, &[0x40]));
    assert!(rt; is_s32(-128, &[0x80, 0x7f]));
    assert!(rt; is_s32(1024, &[0x80, 0x08]));
    assert!(rt; is_s32(66576, &[0x90, 0x88, 0x04]));
    assert!(rt; is_s32(i32::MAX, &[0xff, 0xff, 0xff, 0xff, 0x07]));
    assert!(rt; is_s32(i32::MIN, &[0x80, 0x80, 0x80, 0x80, 0x78]));
}

#[test]
fn wide_spellings(rt: HostRuntime) {
    assert!(rt; is_s64(-128, &[0x80, 0x7f]));
    assert!(rt; is_s64(66576, &[0x90, 0x88, 0x04]));
    assert!(rt;
        is_s64(
            -(1 << 62),
            &[0x80, 0x80, 0x80, 0x80, 0x80, 0x80, 0x80, 0x80, 0x40]
        )
    );
    assert!(rt;
        is_s64(
            i64::MAX,
            &[0xff, 0xff, 0xff, 0xff, 0xff, 0xff, 0xff, 0xff, 0xff, 0x00]
        )
    );
    assert!(rt;
        is_s64(
            i64::MIN,
            &[0x80, 0x80, 0x80, 0x80, 0x80, 0x80, 0x80, 0x80, 0x80, 0x7f]
        )
    );
    assert_eq!(rt; read_s33(&[0x40]), Ok((-64, 1)));
    assert_eq!(rt;
        read_s33(&[0x80, 0x80, 0x80, 0x80, 0x70]),
        Ok((-(1 << 32), 5))
    );
    assert_eq!(rt;
        read_s33(&[0xff, 0xff, 0xff, 0xff, 0x0f]),
        Ok(((1 << 32) - 1, 5))
    );
}

#[test]
fn padded_spellings(rt: HostRuntime) {
    assert!(rt; is_padded_u32(1, [0x81, 0x80, 0x80, 0x80, 0x00]));
    assert!(rt; is_padded_u32(1 << 31, [0x80, 0x80, 0x80, 0x80, 0x08]));
    assert!(rt; is_padded_s32(-1, [0xff, 0xff, 0xff, 0xff, 0x7f]));
    assert!(rt; is_padded_s32(1028, [0x84, 0x88, 0x80, 0x80, 0x00]));
    assert!(rt; is_padded_s32(i32::MIN, [0x80, 0x80, 0x80, 0x80, 0x78]));
}

#[test]
fn short_and_long(rt: HostRuntime) {
    for len in 0..5 {
        assert!(rt; is_refused(&[0x80; 5][..len], LebFault::Short), "at {len}");
    }
    assert!(rt; is_refused(&[0x80; 5], LebFault::Long));
    assert!(rt; is_refused(&[0x80, 0x80, 0x80, 0x80, 0x80, 0x00], LebFault::Long));
    for len in 0..10 {
        assert_eq!(rt;
            read_s64(&[0x80; 10][..len]),
            Err(LebFault::Short),
            "at {len}"
        );
    }
    assert_eq!(rt; read_s64(&[0x80; 10]), Err(LebFault::Long));
    assert_eq!(rt; read_s64(&[0x80; 11]), Err(LebFault::Long));
}

#[test]
fn bad_tails(rt: HostRuntime) {
    for tail in 0..0x80 {
        let five = [0x80, 0x80, 0x80, 0x80, tail];
        let bad = tail > 0x0f;
        assert_eq!(rt; read_u32(&five) == Err(LebFault::BadTail), bad, "at {tail}");
        let bad = tail > 0x07 && tail < 0x78;
        assert_eq!(rt; read_s32(&five) == Err(LebFault::BadTail), bad, "at {tail}");
        let bad = tail > 0x0f && tail < 0x70;
        assert_eq!(rt; read_s33(&five) == Err(LebFault::BadTail), bad, "at {tail}");
    }
    for tail in 0..0x80 {
        let ten = [0x80, 0x80, 0x80, 0x80, 0x80, 0x80, 0x80, 0x80, 0x80, tail];
        let bad = tail != 0 && tail != 0x7f;
        assert_eq!(rt; read_s64(&ten) == Err(LebFault::BadTail), bad, "at {tail}");
    }
}

#[test]
fn faults_are_told(rt: HostRuntime) -> Result<(), Fail> {
    let fault = LebFault::BadTail;
    assert_eq!(rt;
        format!(in rt.alloc(); "{fault}")?.as_str(),
        "the number is too large"
    );
    Ok(())
}

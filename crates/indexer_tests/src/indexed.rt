//! A library of three members as LLVM's `ar` 14 makes it without an index (`rcS`), and as its `ranlib` completes it. The first member
//! defines `g`, and `l` for itself alone; the second is a text; the last one defines `f`.

use library_indexer::with_index;
use std::alloc::Global;
use std::test::*;
use wl_base::Seq;

/// Without an index.
const BARE: [u8; 286] =
    *b"!<arch>\ng.o/            0           0     0     644     48        `\n\0asm\x01\0\0\0\x01\x04\x01`\0\0\x03\x02\x01\0\n\x04\x01\x02\0\x0b\0\x16\x07linking\x02\x08\x0b\x02\0\0\0\x01g\0\x02\0\x01ln.txt/          0           0     0     644     5         `\ntext\n\nf.o/            0           0     0     644     43        `\n\0asm\x01\0\0\0\x01\x04\x01`\0\0\x03\x02\x01\0\n\x04\x01\x02\0\x0b\0\x11\x07linking\x02\x08\x06\x01\0\0\0\x01f\n";

/// With one.
const WHOLE: [u8; 362] =
    *b"!<arch>\n/               0           0     0     0       16        `\n\0\0\0\x02\0\0\0T\0\0\x01\x02g\0f\0g.o/            0           0     0     644     48        `\n\0asm\x01\0\0\0\x01\x04\x01`\0\0\x03\x02\x01\0\n\x04\x01\x02\0\x0b\0\x16\x07linking\x02\x08\x0b\x02\0\0\0\x01g\0\x02\0\x01ln.txt/          0           0     0     644     5         `\ntext\n\nf.o/            0           0     0     644     43        `\n\0asm\x01\0\0\0\x01\x04\x01`\0\0\x03\x02\x01\0\n\x04\x01\x02\0\x0b\0\x11\x07linking\x02\x08\x06\x01\0\0\0\x01f\n";

/// Its member begins as an object, and is none.
const BROKEN: [u8; 76] =
    *b"!<arch>\ng.o/            0           0     0     644     8         `\n\0asm\x02\0\0\0";

/// Whether these bytes are completed so.
fn becomes(alloc: Global, given: &[u8], wanted: &[u8]) -> Option<bool> {
    let bytes = Seq::from_slice(alloc, given).ok()?;
    let whole = with_index(alloc, bytes).ok()?;
    Some(whole.as_slice() == wanted)
}

/// Whether these bytes stay as they are.
fn stays(alloc: Global, bytes: &[u8]) -> bool {
    becomes(alloc, bytes, bytes) == Some(true)
}

/// It is given an index.
#[test]
fn an_index_is_given(rt: HostRuntime) {
    let given = becomes(rt.alloc(), BARE.as_slice(), WHOLE.as_slice());
    assert!(rt; given == Some(true));
}

/// One with an index, one of a broken member, one of no member, and a text stay as they are.
#[test]
fn others_stay(rt: HostRuntime) {
    let alloc = rt.alloc();
    assert!(rt; stays(alloc, WHOLE.as_slice()) && stays(alloc, BROKEN.as_slice()));
    assert!(rt; stays(alloc, &BARE[..8]) && stays(alloc, b"text".as_slice()));
}

//! Modules whose exports are wrapped, byte for byte. What was expected was made by a program of its own, and run under node beside
//! what wasm-ld 14 links of the same objects: the answers and the host's log were the same, and so were the bytes but for the
//! section `name`.

use export_wrappers::{Asked, WrapFault, wrap};
use std::alloc::Global;
use wl_base::OutOfMemory;

const NOTHING_ASKED: Asked = Asked {
    ctors: false,
    dtors: false,
};

/// Whether the bytes are wrapped to these.
fn wraps(alloc: Global, asked: Asked, text: &[u8], expected: &[u8]) -> Result<bool, OutOfMemory> {
    match wrap(alloc, asked, text) {
        Ok(out) => Ok(out.as_slice() == expected),
        Err(WrapFault::OutOfMemory) => Err(OutOfMemory),
        Err(_) => Ok(false),
    }
}

/// Whether the bytes are no module.
fn is_refused(alloc: Global, text: &[u8]) -> Result<bool, OutOfMemory> {
    match wrap(alloc, NOTHING_ASKED, text) {
        Err(WrapFault::OutOfMemory) => Err(OutOfMemory),
        Err(WrapFault::NotModule) => Ok(true),
        _ => Ok(false),
    }
}

#[test]
fn a_function_of_one_argument_is_wrapped(rt: HostRuntime) {
    let text =
        b"\0asm\x01\0\0\0\x01\x09\x02`\0\0`\x01\x7f\x01\x7f\x03\x03\x02\0\x01\x07\x19\x02\x11__wasm_call_ctors\0\0\x01f\0\x01\x0a\x09\x02\x02\0\x0b\x04\0 \0\x0b";
    let expected =
        b"\0asm\x01\0\0\0\x01\x09\x02`\0\0`\x01\x7f\x01\x7f\x03\x04\x03\0\x01\x01\x07\x05\x01\x01f\0\x02\x0a\x12\x03\x02\0\x0b\x04\0 \0\x0b\x08\0\x10\0 \0\x10\x01\x0b";
    assert_eq!(rt;
        wraps(
            rt.alloc(),
            NOTHING_ASKED,
            text.as_slice(),
            expected.as_slice()
        ),
        Ok(true)
    );
}

#[test]
fn all_else_is_copied(rt: HostRuntime) {
    // an imported function and a global are exported too, a function under two names; custom sections stand between all others
    let text =
        b"\0asm\x01\0\0\0\0\x03\x01a\xff\x01\x09\x02`\0\0`\x01\x7f\x01\x7f\x02\x07\x01\x01m\x01i\0\x01\0\x02\x01b\x03\x06\x83\x80\0\0\x01\0\0\x02\x01c\x05\x03\x01\0\x01\x06\x06\x01\x7f\0A\0\x0b\x07=\x07\x01g\x03\0\x11__wasm_call_dtors\0\x03\x01i\0\0\x11__wasm_call_ctors\0\x01\x01f\0\x02\x01h\0\x02\x01m\x02\0\0\x02\x01d\x0c\x01\x01\x0a\x0d\x83\0\x02\0\x0b\x04\0 \0\x0b\x02\0\x0b\0\x02\x01e\x0b\x07\x01\0A\0\x0b\x01x\0\x04\x01f\x01\x02";
    let expected =
        b"\0asm\x01\0\0\0\0\x03\x01a\xff\x01\x09\x02`\0\0`\x01\x7f\x01\x7f\x02\x07\x01\x01m\x01i\0\x01\0\x02\x01b\x03\x06\x05\0\x01\0\x01\x01\0\x02\x01c\x05\x03\x01\0\x01\x06\x06\x01\x7f\0A\0\x0b\x07\x15\x05\x01g\x03\0\x01i\0\0\x01f\0\x04\x01h\0\x05\x01m\x02\0\0\x02\x01d\x0c\x01\x01\x0a\x22\x05\x02\0\x0b\x04\0 \0\x0b\x02\0\x0b\x0a\0\x10\x01 \0\x10\x02\x10\x03\x0b\x0a\0\x10\x01 \0\x10\x02\x10\x03\x0b\0\x02\x01e\x0b\x07\x01\0A\0\x0b\x01x\0\x04\x01f\x01\x02";
    assert_eq!(rt;
        wraps(
            rt.alloc(),
            NOTHING_ASKED,
            text.as_slice(),
            expected.as_slice()
        ),
        Ok(true)
    );
}

#[test]
fn destructors_stay_exported_where_that_is_asked_for(rt: HostRuntime) {
    let text =
        b"\0asm\x01\0\0\0\0\x03\x01a\xff\x01\x09\x02`\0\0`\x01\x7f\x01\x7f\x02\x07\x01\x01m\x01i\0\x01\0\x02\x01b\x03\x06\x83\x80\0\0\x01\0\0\x02\x01c\x05\x03\x01\0\x01\x06\x06\x01\x7f\0A\0\x0b\x07=\x07\x01g\x03\0\x11__wasm_call_dtors\0\x03\x01i\0\0\x11__wasm_call_ctors\0\x01\x01f\0\x02\x01h\0\x02\x01m\x02\0\0\x02\x01d\x0c\x01\x01\x0a\x0d\x83\0\x02\0\x0b\x04\0 \0\x0b\x02\0\x0b\0\x02\x01e\x0b\x07\x01\0A\0\x0b\x01x\0\x04\x01f\x01\x02";
    let expected =
        b"\0asm\x01\0\0\0\0\x03\x01a\xff\x01\x09\x02`\0\0`\x01\x7f\x01\x7f\x02\x07\x01\x01m\x01i\0\x01\0\x02\x01b\x03\x06\x05\0\x01\0\x01\x01\0\x02\x01c\x05\x03\x01\0\x01\x06\x06\x01\x7f\0A\0\x0b\x07)\x06\x01g\x03\0\x11__wasm_call_dtors\0\x03\x01i\0\0\x01f\0\x04\x01h\0\x05\x01m\x02\0\0\x02\x01d\x0c\x01\x01\x0a\x22\x05\x02\0\x0b\x04\0 \0\x0b\x02\0\x0b\x0a\0\x10\x01 \0\x10\x02\x10\x03\x0b\x0a\0\x10\x01 \0\x10\x02\x10\x03\x0b\0\x02\x01e\x0b\x07\x01\0A\0\x0b\x01x\0\x04\x01f\x01\x02";
    let asked = Asked {
        ctors: false,
        dtors: true,
    };
    assert_eq!(rt;
        wraps(rt.alloc(), asked, text.as_slice(), expected.as_slice()),
        Ok(true)
    );
}

#[test]
fn a_reactor_of_c_is_wrapped(rt: HostRuntime) {
    // a constructor that the host hears, destructors, and functions of two i32, of an f64 and an i64, and of nothing
    let text =
        b"\0asm\x01\0\0\0\x01\x18\x05`\x01\x7f\0`\0\0`\x02\x7f\x7f\x01\x7f`\x02|~\x01|`\0\x01\x7f\x02\x0c\x01\x03env\x04log_\0\0\x03\x07\x06\x01\x01\x01\x02\x03\x04\x04\x05\x01p\x01\x01\x01\x05\x03\x01\0\x02\x07E\x06\x06memory\x02\0\x11__wasm_call_ctors\0\x01\x11__wasm_call_dtors\0\x03\x03add\0\x04\x04half\0\x05\x03get\0\x06\x0a\x83\x01\x06\x08\0\x10\x82\x80\x80\x80\0\x0b\x1f\0A\0A\0(\x02\x80\x88\x80\x80\0A(j6\x02\x80\x88\x80\x80\0A\x01\x10\x80\x80\x80\x80\0\x0b'\0A\0(\x02\x80\x88\x80\x80\0\x10\x80\x80\x80\x80\0A\0A\0(\x02\x80\x88\x80\x80\0A\xe8\x07j6\x02\x80\x88\x80\x80\0\x0b\x11\0 \x01 \0jA\0(\x02\x80\x88\x80\x80\0j\x0b\x12\0 \0D\0\0\0\0\0\0\xe0?\xa2 \x01\xb9\xa0\x0b\x0b\0A\0(\x02\x80\x88\x80\x80\0\x0b";
    let expected =
        b"\0asm\x01\0\0\0\x01\x18\x05`\x01\x7f\0`\0\0`\x02\x7f\x7f\x01\x7f`\x02|~\x01|`\0\x01\x7f\x02\x0c\x01\x03env\x04log_\0\0\x03\x0a\x09\x01\x01\x01\x02\x03\x04\x02\x03\x04\x04\x05\x01p\x01\x01\x01\x05\x03\x01\0\x02\x07\x1d\x04\x06memory\x02\0\x03add\0\x07\x04half\0\x08\x03get\0\x09\x0a\xa6\x01\x09\x08\0\x10\x82\x80\x80\x80\0\x0b\x1f\0A\0A\0(\x02\x80\x88\x80\x80\0A(j6\x02\x80\x88\x80\x80\0A\x01\x10\x80\x80\x80\x80\0\x0b'\0A\0(\x02\x80\x88\x80\x80\0\x10\x80\x80\x80\x80\0A\0A\0(\x02\x80\x88\x80\x80\0A\xe8\x07j6\x02\x80\x88\x80\x80\0\x0b\x11\0 \x01 \0jA\0(\x02\x80\x88\x80\x80\0j\x0b\x12\0 \0D\0\0\0\0\0\0\xe0?\xa2 \x01\xb9\xa0\x0b\x0b\0A\0(\x02\x80\x88\x80\x80\0\x0b\x0c\0\x10\x01 \0 \x01\x10\x04\x10\x03\x0b\x0c\0\x10\x01 \0 \x01\x10\x05\x10\x03\x0b\x08\0\x10\x01\x10\x06\x10\x03\x0b";
    assert_eq!(rt;
        wraps(
            rt.alloc(),
            NOTHING_ASKED,
            text.as_slice(),
            expected.as_slice()
        ),
        Ok(true)
    );
}

#[test]
fn a_module_without_constructors_stays(rt: HostRuntime) {
    let text =
        b"\0asm\x01\0\0\0\x01\x04\x01`\0\0\x03\x02\x01\0\x07\x05\x01\x01f\0\0\x0a\x04\x01\x02\0\x0b";
    assert_eq!(rt;
        wraps(rt.alloc(), NOTHING_ASKED, text.as_slice(), text.as_slice()),
        Ok(true)
    );
    let header = b"\0asm\x01\0\0\0";
    assert_eq!(rt;
        wraps(
            rt.alloc(),
            NOTHING_ASKED,
            header.as_slice(),
            header.as_slice()
        ),
        Ok(true)
    );
}

#[test]
fn bytes_that_are_no_module_are_refused(rt: HostRuntime) {
    assert_eq!(rt; is_refused(rt.alloc(), b"\0asm".as_slice()), Ok(true));
    assert_eq!(rt;
        is_refused(rt.alloc(), b"\0asm\x01\0\0\0\x03\x02\x02\0".as_slice()),
        Ok(true)
    );
}

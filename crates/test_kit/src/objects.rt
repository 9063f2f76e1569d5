//! The bytes of small objects, of a library, and of a module.

use wl_base::Part;

/// An object that refers to `a`.
pub fn needs_a() -> &'static [u8] {
    b"\0asm\x01\0\0\0\0\x10\x07linking\x02\x08\x05\x01\x01\x10\x01a".as_slice()
}

/// An object that defines `a` and refers to `b`.
pub fn defines_a() -> &'static [u8] {
    b"\0asm\x01\0\0\0\x01\x04\x01`\0\0\x03\x02\x01\0\n\x04\x01\x02\0\x0b\0\x15\x07linking\x02\x08\n\x02\0\0\0\x01a\x01\x10\x01b".as_slice()
}

/// An object that calls `a` as if it gave an integer, in a function `f`: a type, the import of `a`, the function and its body, the symbols,
/// and the relocation of the call.
pub fn calls_a_otherwise() -> &'static [u8] {
    b"\0asm\x01\0\0\0\x01\x05\x01`\0\x01\x7f\x02\x09\x01\x03env\x01a\0\0\x03\x02\x01\0\x0a\x0a\x01\x08\0\x10\x80\x80\x80\x80\0\x0b\0\x14\x07linking\x02\x08\x09\x02\0\x10\0\0\0\x01\x01f\0\x10\x0areloc.CODE\x03\x01\0\x04\0".as_slice()
}

/// An object with a function `f` and an init function `i`.
pub fn begun_object() -> &'static [u8] {
    b"\0asm\x01\0\0\0\x01\x04\x01`\0\0\x03\x03\x02\0\0\x0a\x07\x02\x02\0\x0b\x02\0\x0b\0\x1d\x07linking\x02\x08\x0b\x02\0\0\0\x01f\0\0\x01\x01i\x06\x05\x01\xff\xff\x03\x01".as_slice()
}

/// A library of two members: the first defines `a` and refers to `b`, the second the other way round.
pub fn library() -> &'static [u8] {
    b"!<arch>\n/                                               16        `\n\0\0\0\x02\0\0\0T\0\0\0\xc0a\0b\0m/                                              47        `\n\0asm\x01\0\0\0\x01\x04\x01`\0\0\x03\x02\x01\0\n\x04\x01\x02\0\x0b\0\x15\x07linking\x02\x08\n\x02\0\0\0\x01a\x01\x10\x01b\nm/                                              47        `\n\0asm\x01\0\0\0\x01\x04\x01`\0\0\x03\x02\x01\0\n\x04\x01\x02\0\x0b\0\x15\x07linking\x02\x08\n\x02\0\0\0\x01b\x01\x10\x01a\n".as_slice()
}

/// The object of two functions, of which `f` calls `g`, which gives 7: a type, the functions, their bodies, the symbols, and the
/// relocation of the call.
pub fn calling_object() -> &'static [u8] {
    b"\0asm\x01\0\0\0\x01\x05\x01`\0\x01\x7f\x03\x03\x02\0\0\x0a\x0f\x02\x08\0\x10\x81\x80\x80\x80\0\x0b\x04\0A\x07\x0b\0\x16\x07linking\x02\x08\x0b\x02\0\0\0\x01f\0\0\x01\x01g\0\x10\x0areloc.CODE\x02\x01\0\x04\x01".as_slice()
}

/// The part of that object that is broken where it is cut after so many bytes: at the ends of sections the rest is missing, and else the
/// frame is broken.
pub fn part_of_cut(len: usize) -> Part {
    match len {
        // between the sections before the linking section, and before the relocations
        8 | 15 | 20 | 37 => Part::Cross(1),
        61 => Part::Cross(12),
        _ => Part::Frame,
    }
}

/// The module that it is linked to, where `f` is exported.
pub fn calling_module() -> &'static [u8] {
    b"\0asm\x01\0\0\0\x01\x05\x01\x60\x00\x01\x7f\x03\x03\x02\x00\x00\x04\x05\x01\x70\x01\x01\x01\x05\x03\x01\x00\x02\x07\x0e\x02\x06memory\x02\x00\x01f\x00\x00\x0a\x0f\x02\x08\x00\x10\x81\x80\x80\x80\x00\x0b\x04\x00\x41\x07\x0b".as_slice()
}

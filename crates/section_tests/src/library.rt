//! Libraries: the members that an index offers, and the first fault of others.

use lib_index::{LibError, Library, has_magic, read_index};
use std::alloc::Global;
use wl_base::{LibFault, OutOfMemory, Seq, Span};

/// Appends a member: a name field of 16 bytes, fields that aren't read, a size field of 10 bytes, and
/// data with their padding.
fn put_member(
    to: &mut Seq<u8>,
    name: &[u8],
    size: &[u8],
    content: &[u8],
) -> Result<(), OutOfMemory> {
    to.extend_from_slice(name)?;
    to.extend_from_slice(b"0           0     0     644     ".as_slice())?;
    to.extend_from_slice(size)?;
    to.extend_from_slice(b"`\n".as_slice())?;
    to.extend_from_slice(content)
}

/// The magic, and an index with these data, which have an even size.
fn indexed(alloc: Global, size: &[u8], content: &[u8]) -> Result<Seq<u8>, OutOfMemory> {
    let mut bytes = Seq::from_slice(alloc, b"!<arch>\n".as_slice())?;
    put_member(&mut bytes, b"/               ", size, content)?;
    Ok(bytes)
}

/// Two members: the first has 3 bytes and defines `a`, the second has 1 byte and defines `b`.
fn two_members(alloc: Global) -> Result<Seq<u8>, OutOfMemory> {
    let content = b"\0\0\0\x02\0\0\0\x54\0\0\0\x94a\0b\0".as_slice();
    let mut bytes = indexed(alloc, b"16        ", content)?;
    put_member(&mut bytes, b"one.o/          ", b"3         ", b"abc\n")?;
    put_member(&mut bytes, b"two.o/          ", b"1         ", b"d\n")?;
    Ok(bytes)
}

fn read(alloc: Global, bytes: &[u8]) -> Result<Library, LibError> {
    if bytes.len() > 4096 {
        return Err(LibError::OutOfMemory);
    }
    read_index(alloc, bytes)
}

/// The cause for which the bytes are refused, and none where they are a library.
fn refused(alloc: Global, bytes: &[u8]) -> Result<Option<LibFault>, OutOfMemory> {
    match read(alloc, bytes) {
        Ok(_) => Ok(None),
        Err(LibError::Refused(fault)) => Ok(Some(fault)),
        Err(LibError::OutOfMemory) => Err(OutOfMemory),
    }
}

fn member(library: &Library, k: u32) -> Option<Span> {
    if k < library.count() {
        Some(library.member(k))
    } else {
        None
    }
}

fn span(start: u64, len: u64) -> Option<Span> {
    Some(Span { start, len })
}

/// How many members a library has, and where the first two lie.
fn members_of(alloc: Global, bytes: &[u8]) -> Result<(u32, [Option<Span>; 2]), LibError> {
    let library = read(alloc, bytes)?;
    let spans = [member(&library, 0), member(&library, 1)];
    Ok((library.count(), spans))
}

/// The members that a library offers for `a`, `b`, `c` and the empty name.
fn offers_of(alloc: Global, bytes: &[u8]) -> Result<[Option<u32>; 4], LibError> {
    let library = read(alloc, bytes)?;
    Ok([
        library.offers(b"a"),
        library.offers(b"b"),
        library.offers(b"c"),
        library.offers(b""),
    ])
}

/// A magic alone is a library of no members.
fn a_magic_has_no_members(alloc: Global) -> bool {
    members_of(alloc, b"!<arch>\n") == Ok((0, [None, None]))
        && offers_of(alloc, b"!<arch>\n") == Ok([None; 4])
}

/// Whether a library has two members here, and offers these.
fn has_members(
    alloc: Global,
    bytes: &[u8],
    spans: [Option<Span>; 2],
    offers: [Option<u32>; 4],
) -> bool {
    members_of(alloc, bytes) == Ok((2, spans)) && offers_of(alloc, bytes) == Ok(offers)
}

fn two_are_offered(alloc: Global) -> Result<bool, OutOfMemory> {
    let bytes = two_members(alloc)?;
    let spans = [span(144, 3), span(208, 1)];
    let offers = [Some(0), Some(1), None, None];
    Ok(has_members(alloc, bytes.as_slice(), spans, offers))
}

#[test]
fn a_library_offers_its_members(rt: HostRuntime) {
    assert!(rt; a_magic_has_no_members(rt.alloc()));
    assert!(rt; two_are_offered(rt.alloc()) == Ok(true));
}

/// Two members, the first of 4 bytes and the second of none, behind an index and empty long names. The
/// index gives `a` for the second, then for the first, then for the second; bytes follow the names.
fn defined_thrice(alloc: Global) -> Result<Seq<u8>, OutOfMemory> {
    let content = b"\0\0\0\x03\0\0\0\xd8\0\0\0\x98\0\0\0\xd8a\0a\0a\0\xff\xff".as_slice();
    let mut bytes = indexed(alloc, b"24        ", content)?;
    put_member(&mut bytes, b"//              ", b"0         ", b"")?;
    put_member(&mut bytes, b"one.o/          ", b"4         ", b"abcd")?;
    put_member(&mut bytes, b"two.o/          ", b"0         ", b"")?;
    Ok(bytes)
}

fn least_is_offered(alloc: Global) -> Result<bool, OutOfMemory> {
    let bytes = defined_thrice(alloc)?;
    let spans = [span(212, 4), span(276, 0)];
    let offers = [Some(0), None, None, None];
    Ok(has_members(alloc, bytes.as_slice(), spans, offers))
}

#[test]
fn the_least_member_is_offered(rt: HostRuntime) {
    assert!(rt; least_is_offered(rt.alloc()) == Ok(true));
}

/// What a prefix of two members is refused for.
fn fault_of_prefix(len: usize) -> Option<LibFault> {
    match len {
        0..8 => Some(LibFault::NotLibrary),
        8 | 209 => None,
        84 | 147 | 148 => Some(LibFault::BadIndex(2)),
        9..84 => Some(LibFault::BadHeader(8)),
        85..147 => Some(LibFault::BadHeader(84)),
        _ => Some(LibFault::BadHeader(148)),
    }
}

/// The length of the first prefix that isn't refused for what it should be.
fn wrong_prefix(alloc: Global, bytes: &[u8]) -> Option<usize> {
    for len in 0..bytes.len() {
        if refused(alloc, &bytes[..len]) != Ok(fault_of_prefix(len)) {
            return Some(len);
        }
    }
    None
}

/// The length of the two members' bytes, and of the first prefix that isn't refused as it should be.
fn wrong_of_two(alloc: Global) -> Result<(usize, Option<usize>), OutOfMemory> {
    let bytes = two_members(alloc)?;
    Ok((bytes.len(), wrong_prefix(alloc, bytes.as_slice())))
}

#[test]
fn prefixes_of_a_library_are_refused(rt: HostRuntime) {
    assert!(rt; wrong_of_two(rt.alloc()) == Ok((210, None)));
}

/// What a library of this index alone is refused for.
fn fault_of_index(
    alloc: Global,
    size: &[u8],
    content: &[u8],
) -> Result<Option<LibFault>, OutOfMemory> {
    let bytes = indexed(alloc, size, content)?;
    refused(alloc, bytes.as_slice())
}

/// What a library of one empty member, with this name field and no index, is refused for.
fn fault_of_member(
    alloc: Global,
    name: &[u8],
    size: &[u8],
) -> Result<Option<LibFault>, OutOfMemory> {
    let mut bytes = Seq::from_slice(alloc, b"!<arch>\n".as_slice())?;
    put_member(&mut bytes, name, size, b"")?;
    refused(alloc, bytes.as_slice())
}

fn magics_are_told(alloc: Global) -> bool {
    refused(alloc, b"!<thin>\n") == Ok(Some(LibFault::Thin))
        && refused(alloc, b"\0asm\x01\0\0\0") == Ok(Some(LibFault::NotLibrary))
        && has_magic(b"!<thin>\n")
        && has_magic(b"!<arch>\n")
        && !has_magic(b"\0asm")
        && !has_magic(b"!<arch>")
        && !has_magic(b"!<thin>x")
}

#[test]
fn the_magic_is_told(rt: HostRuntime) {
    assert!(rt; magics_are_told(rt.alloc()));
}

fn headers_are_broken(alloc: Global) -> bool {
    let here = Ok(Some(LibFault::BadHeader(8)));
    // A size past the end, none, one that begins later, and one with another byte.
    fault_of_index(alloc, b"9999999999", b"") == here
        && fault_of_index(alloc, b"          ", b"") == here
        && fault_of_index(alloc, b" 4        ", b"\0\0\0\0") == here
        && fault_of_index(alloc, b"4x        ", b"\0\0\0\0") == here
        // A broken header comes before a missing index.
        && fault_of_member(alloc, b"one.o/          ", b"1         ") == here
}

#[test]
fn broken_headers_are_told(rt: HostRuntime) {
    assert!(rt; headers_are_broken(rt.alloc()));
}

fn indexes_are_broken(alloc: Global) -> bool {
    let short = Ok(Some(LibFault::BadIndex(1)));
    // A count of 4,294,967,295 in 8 bytes, and no count.
    let wide = b"\xff\xff\xff\xff\0\0\0\0".as_slice();
    // The index's own header is no member's.
    let own = b"\0\0\0\x01\0\0\0\x08".as_slice();
    fault_of_index(alloc, b"8         ", wide) == short
        && fault_of_index(alloc, b"2         ", b"\0\0") == short
        && fault_of_index(alloc, b"8         ", own) == Ok(Some(LibFault::BadIndex(2)))
}

/// A member and no index; long names in its place.
fn indexes_are_missing(alloc: Global) -> bool {
    let none = Ok(Some(LibFault::NoIndex));
    fault_of_member(alloc, b"one.o/          ", b"0         ") == none
        && fault_of_member(alloc, b"//              ", b"0         ") == none
}

#[test]
fn a_broken_index_is_told(rt: HostRuntime) {
    assert!(rt; indexes_are_broken(rt.alloc()));
    assert!(rt; indexes_are_missing(rt.alloc()));
}

/// What a library of one member is refused for whose index has two numbers and one name.
fn fault_of_one_name(alloc: Global) -> Result<Option<LibFault>, OutOfMemory> {
    let content = b"\0\0\0\x02\0\0\0\x52\0\0\0\x52a\0".as_slice();
    let mut bytes = indexed(alloc, b"14        ", content)?;
    put_member(&mut bytes, b"one.o/          ", b"0         ", b"")?;
    refused(alloc, bytes.as_slice())
}

#[test]
fn too_few_names_are_told(rt: HostRuntime) {
    let fault = Some(LibFault::BadIndex(3));
    assert_eq!(rt; fault_of_one_name(rt.alloc()), Ok(fault));
}

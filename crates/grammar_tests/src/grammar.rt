//! Bytes, numbers, names, parts and vectors, each read with its place, and what is written.

use std::alloc::Global;
use wasm_grammar::{
    ReadFault, Stop, blob_at, byte_at, bytes_at, cut_back, front_at, many_at, name_at, none_at,
    part_at, place, put_byte, put_bytes, put_count, put_itself, put_s32, put_s64, put_u32,
    put_vector, read_front, s32_at, s33_at, s64_at, sized_at, tag_at, u32_at, vector_at, whole,
};
use wl_base::{Item, OutOfMemory, Seq};

const NINE: &[u8] = &[9];

const NOTHING: &[u8] = &[];

fn bytes_have_places() -> bool {
    byte_at(10, &[7, 9]) == Ok((7, NINE))
        && byte_at(10, &[]) == Err(Stop::Broken(10))
        && tag_at(0x60, 10, &[0x60, 9]) == Ok(NINE)
        && tag_at(0x60, 10, &[0x61, 9]) == Err(Stop::Broken(8))
        && tag_at(0x60, 10, &[]) == Err(Stop::Broken(10))
        && place(10, &[1, 2, 3]) == 7
}

fn unsigned_numbers_have_places() -> bool {
    u32_at(10, &[0x7f, 9]) == Ok((127, NINE))
        && u32_at(10, &[0x80, 0x01, 9]) == Ok((128, NINE))
        && u32_at(10, &[0x81, 0x80, 0x80, 0x80, 0x00]) == Ok((1, NOTHING))
        && u32_at(10, &[0x80, 0x80, 0x80, 0x80, 0x10]) == Err(Stop::Broken(5))
        && u32_at(10, &[0x80, 0x80]) == Err(Stop::Broken(8))
}

fn short_signed_numbers_have_places() -> bool {
    s32_at(10, &[0x3f]) == Ok((63, NOTHING))
        && s32_at(10, &[0xc0, 0x00, 9]) == Ok((64, NINE))
        && s32_at(10, &[0x70, 9]) == Ok((-16, NINE))
        && s32_at(10, &[0xff, 0xff, 0xff, 0xff, 0x0f]) == Err(Stop::Broken(5))
}

fn long_signed_numbers_have_places() -> bool {
    s33_at(10, &[0xff, 0xff, 0xff, 0xff, 0x0f]) == Ok((4_294_967_295, NOTHING))
        && s33_at(10, &[0x40, 9]) == Ok((-64, NINE))
        && s64_at(10, &[0x80, 0x7f]) == Ok((-128, NOTHING))
        && s64_at(10, &[0x80]) == Err(Stop::Broken(9))
}

#[test]
fn bytes_and_numbers_are_read_with_places(rt: HostRuntime) {
    assert!(rt; bytes_have_places());
    assert!(rt; unsigned_numbers_have_places());
    assert!(rt; short_signed_numbers_have_places());
    assert!(rt; long_signed_numbers_have_places());
}

fn parts_have_places() -> bool {
    let rest = [3].as_slice();
    front_at(2, 10, &[1, 2, 3]) == Ok(([1, 2].as_slice(), rest))
        && front_at(4, 10, &[1, 2, 3]) == Err(Stop::Broken(10))
        && bytes_at(10, &[1, 2, 3]) == Ok(([2].as_slice(), rest))
        && bytes_at(10, &[3, 2, 3]) == Err(Stop::Broken(10))
        && part_at(10, &[1, 2, 3]) == Ok(([2].as_slice(), rest))
        && part_at(10, &[3, 2, 3]) == Err(Stop::Broken(7))
        && none_at(10, &[]) == Ok(())
        && none_at(10, &[1, 2]) == Err(Stop::Broken(8))
}

fn broken(at: usize) -> ReadFault {
    ReadFault::Stopped(Stop::Broken(at))
}

/// Whether these bytes were read, and the 9 behind them was not.
fn is_text(read: Result<(Seq<u8>, &[u8]), ReadFault>, text: &[u8]) -> bool {
    match read {
        Ok((found, rest)) => found.as_slice() == text && rest == NINE,
        Err(_) => false,
    }
}

/// Whether these numbers were read, and these bytes behind them were not.
fn are_numbers(read: Result<(Seq<u32>, &[u8]), ReadFault>, numbers: &[u32], behind: &[u8]) -> bool {
    match read {
        Ok((found, rest)) => found.as_slice() == numbers && rest == behind,
        Err(_) => false,
    }
}

fn names_have_places(alloc: Global) -> bool {
    is_text(blob_at(alloc, 10, &[1, 0x66, 9]), b"f")
        && is_text(name_at(alloc, 10, &[2, 0xc3, 0xa9, 9]), "é".as_bytes())
        && name_at(alloc, 10, &[2, 0xc3, 0x29, 9]).err() == Some(broken(6))
}

fn vectors_have_places(alloc: Global) -> bool {
    let two = vector_at::<u32>(alloc, 10, &[2, 1, 0xac, 0x02, 9]);
    let none = many_at::<u32>(alloc, 0, 10, &[3]);
    are_numbers(two, &[1, 300], &[9])
        && are_numbers(none, &[], &[3])
        && vector_at::<u32>(alloc, 10, &[3, 1, 2]).err() == Some(broken(10))
}

fn whole_values_have_places(alloc: Global) -> bool {
    whole::<u32>(alloc, 10, &[3]) == Ok(3)
        && whole::<u32>(alloc, 10, &[3, 4]) == Err(broken(9))
        && sized_at::<u32>(alloc, 10, &[1, 3, 4]) == Ok((3, [4].as_slice()))
        && sized_at::<u32>(alloc, 10, &[2, 3, 4, 5]) == Err(broken(8))
        && sized_at::<u32>(alloc, 10, &[1, 0x83, 4]) == Err(broken(8))
        && sized_at::<u32>(alloc, 10, &[3, 4, 5]) == Err(broken(7))
        && read_front::<u32>(alloc, &[0x83, 4, 5]) == Ok((515, 2))
}

#[test]
fn parts_names_and_vectors_are_read_with_places(rt: HostRuntime) {
    assert!(rt; parts_have_places());
    assert!(rt; names_have_places(rt.alloc()));
    assert!(rt; vectors_have_places(rt.alloc()));
    assert!(rt; whole_values_have_places(rt.alloc()));
    assert_eq!(rt;
        ReadFault::from(Stop::Foreign(Item::TagImport)),
        ReadFault::Stopped(Stop::Foreign(Item::TagImport))
    );
}

const WRITTEN: [u8; 16] = [
    7, 0x80, 0x01, 0xc0, 0x00, 0x80, 0x7f, 3, 2, 0x61, 0x62, 0x63, 2, 1, 0xac, 0x02,
];

fn put_each(to: &mut Seq<u8>) -> Result<(), OutOfMemory> {
    put_byte(to, 7)?;
    put_u32(to, 128)?;
    put_s32(to, &64)?;
    put_s64(to, &-128)?;
    put_count(to, 3)?;
    put_bytes(to, b"ab")?;
    put_itself(to, b"c")?;
    put_vector(to, &[1u32, 300])
}

/// Whether what is written stays where its writer has not failed, and else is cut.
fn is_written(to: &mut Seq<u8>) -> bool {
    put_each(to) == Ok(())
        && to.as_slice() == WRITTEN.as_slice()
        && cut_back(to, 3, Ok(())) == Ok(())
        && to.as_slice() == WRITTEN.as_slice()
        && cut_back(to, 3, Err(OutOfMemory)) == Err(OutOfMemory)
        && to.as_slice() == [7, 0x80, 0x01].as_slice()
}

#[test]
fn what_is_written_is_as_short_as_can_be(rt: HostRuntime) {
    let mut to = Seq::new(rt.alloc());
    let holds = is_written(&mut to);
    assert!(rt; holds);
}

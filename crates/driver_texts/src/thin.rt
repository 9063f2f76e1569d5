//! Thin libraries, which name their members and don't hold them. Build systems make them, and they
//! stand for their members.
ghost use Rattle.std.specs.Prelude.{◌≡◌, ◌≤◌, ◌++◌, length, take, drop, IfOk, OnOk};
ghost use Rattle.driver_table.specs.Numbers.{too_much};
ghost use Rattle.driver_texts.specs.Thin.{until as until_of, name_in as name_in_of, size_in as size_in_of, is_long_names as is_long_names_of, is_filled as is_filled_of, taken as taken_of, longs_after as longs_after_of, unslashed as unslashed_of, member_name as member_name_of, names_here, members_of};

use driver_table::amount;
use std::alloc::Global;
use wl_base::{OutOfMemory, Seq};

/// What a thin library begins with.
pub const THIN: &str = "!<thin>\n";

/// The bytes of a header.
const HEADER: usize = 60;

// The bytes in front of the first of this value.
fn until(stop: u8, bytes: &[u8]) -> &[u8]
    ensures { result.now ≡ until_of stop bytes.now }
{
    for at in 0..bytes.len() {
        if bytes[at] == stop {
            return &bytes[..at];
        }
    }
    bytes
}

// The name in the header that bytes begin with.
fn name_in(left: &[u8]) -> &[u8]
    requires { 60 ≤ length left.now }
    ensures { result.now ≡ name_in_of left.now }
{
    until(b' ', &left[..16])
}

// How many bytes follow the header that bytes begin with.
fn size_in(left: &[u8]) -> u64
    requires { 60 ≤ length left.now }
    ensures value { result ≡ size_in_of left.now }
    ensures most { result ≤ too_much }
{
    amount(until(b' ', &left[48..58]))
}

fn is_long_names(name: &[u8]) -> bool
    ensures { result ≡ is_long_names_of name.now }
{
    name == b"//".as_slice()
}

// Whether bytes follow a header of this name.
fn is_filled(name: &[u8]) -> bool
    ensures { result ≡ is_filled_of name.now }
{
    is_long_names(name) || name == b"/".as_slice() || name == b"/SYM64/".as_slice()
}

// Bytes from a place on.
fn from(bytes: &[u8], at: u64) -> &[u8]
    ensures { result.now ≡ drop at bytes.now }
{
    if at > bytes.len() as u64 {
        return &bytes[bytes.len()..];
    }
    &bytes[at as usize..]
}

// Bytes up to a place.
fn up_to(bytes: &[u8], end: u64) -> &[u8]
    ensures { result.now ≡ take end bytes.now }
{
    if end > bytes.len() as u64 {
        return bytes;
    }
    &bytes[..end as usize]
}

// What stands behind the header that bytes begin with, and what follows it.
fn after(left: &[u8]) -> &[u8]
    requires { 60 ≤ length left.now }
    ensures { result.now ≡ drop (taken_of left.now) left.now }
{
    if !is_filled(name_in(left)) {
        return &left[HEADER..];
    }
    let size = size_in(left);
    from(left, HEADER as u64 + size + size % 2)
}

// The long names, behind the header that bytes begin with.
fn longs_after<'a>(longs: &'a [u8], left: &'a [u8]) -> &'a [u8]
    requires { 60 ≤ length left.now }
    ensures { result.now ≡ longs_after_of longs.now left.now }
{
    if !is_long_names(name_in(left)) {
        return longs;
    }
    up_to(from(left, HEADER as u64), size_in(left))
}

fn unslashed(name: &[u8]) -> &[u8]
    ensures { result.now ≡ unslashed_of name.now }
{
    if name.ends_with(b"/".as_slice()) {
        return &name[..name.len() - 1];
    }
    name
}

// A member's name.
fn member_name<'a>(longs: &'a [u8], name: &'a [u8]) -> &'a [u8]
    ensures { result.now ≡ member_name_of longs.now name.now }
{
    if name.starts_with(b"/".as_slice()) {
        return unslashed(until(b'\n', from(longs, amount(&name[1..]))));
    }
    unslashed(name)
}

// Puts the name that a header has behind the others, where it is a member's.
fn add_name(
    alloc: Global,
    longs: &[u8],
    name: &[u8],
    names: &mut Seq<Seq<u8>>,
) -> Result<(), OutOfMemory>
    ensures { OnOk result (names.new ≡ names.old ++ names_here longs.now name.now) }
{
    if !is_filled(name) {
        names.push(Seq::from_slice(alloc, member_name(longs, name))?)?;
    }
    Ok(())
}

/// The names of a thin library's members.
///
/// # Errors
/// Want of memory.
pub fn members(alloc: Global, text: &[u8]) -> Result<Seq<Seq<u8>>, OutOfMemory>
    ensures { IfOk result (λ names. names ≡ members_of text.now) }
{
    let mut names = Seq::new(alloc);
    let mut longs = &text[text.len()..];
    let mut left = from(text, 8);
    for _ in 0..text.len() {
        if left.len() < HEADER {
            return Ok(names);
        }
        add_name(alloc, longs, name_in(left), &mut names)?;
        longs = longs_after(longs, left);
        left = after(left);
    }
    Ok(names)
}

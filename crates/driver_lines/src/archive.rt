//! The names of a library's members, which GNU's and LLVM's `ar` write in headers of 60 bytes, and
//! where they are long, all together into the member `//`.
ghost use Rattle.std.specs.Prelude.{◌≡◌, ◌≤◌, ◌==◌, take, drop};
ghost use Rattle.std.specs.List.{list_any};
ghost use Rattle.driver_table.specs.Numbers.{too_much};
ghost use Rattle.driver_lines.specs.Members.{until as until_of, size_in as size_in_of, behind_index as behind_index_of, has_long_names as has_long_names_of, longs_at as longs_at_of, long_names as long_names_of, name_field as name_field_of, unslashed as unslashed_of, short_name as short_name_of, long_name as long_name_of, member_name as member_name_of};

use driver_table::amount;
use wl_base::Span;

/// The bytes in front of the first header.
const MAGIC: u64 = 8;

/// The bytes of a header.
const HEADER: u64 = 60;

/// The bytes of a header's name.
const NAME: u64 = 16;

// Bytes from a place on.
fn from(bytes: &[u8], at: u64) -> &[u8]
    ensures { result.now ≡ drop at bytes.now }
{
    if at > bytes.len() as u64 {
        return &bytes[bytes.len()..];
    }
    &bytes[at as usize..]
}

// Bytes up to a place.
fn up_to(bytes: &[u8], end: u64) -> &[u8]
    ensures { result.now ≡ take end bytes.now }
{
    if end > bytes.len() as u64 {
        return bytes;
    }
    &bytes[..end as usize]
}

// The bytes in front of the first of this value; all of them where there is none.
fn until(stop: u8, bytes: &[u8]) -> &[u8]
    ensures { result.now ≡ until_of stop bytes.now }
{
    for at in 0..bytes.len() {
        if bytes[at] == stop {
            return &bytes[..at];
        }
    }
    bytes
}

// How many bytes follow the header that bytes begin with.
fn size_in(left: &[u8]) -> u64
    ensures value { result ≡ size_in_of left.now }
    ensures most { result ≤ too_much }
{
    amount(until(b' ', up_to(from(left, 48), 10)))
}

// What stands behind the first member, at an even place.
fn behind_index(bytes: &[u8]) -> &[u8]
    ensures { result.now ≡ behind_index_of bytes.now }
{
    let members = from(bytes, MAGIC);
    let size = size_in(members);
    from(members, HEADER + size + size % 2)
}

fn has_long_names(left: &[u8]) -> bool
    ensures { result ≡ has_long_names_of left.now }
{
    up_to(left, NAME) == b"//              ".as_slice()
}

// The long names, where they stand behind the header that bytes begin with.
fn longs_at(left: &[u8]) -> &[u8]
    ensures { result.now ≡ longs_at_of left.now }
{
    if has_long_names(left) {
        up_to(from(left, HEADER), size_in(left))
    } else {
        &left[left.len()..]
    }
}

/// The long names of a library, one after another.
pub fn long_names(bytes: &[u8]) -> &[u8]
    ensures { result.now ≡ long_names_of bytes.now }
{
    longs_at(behind_index(bytes))
}

/// The name in the header of the member whose data lie here.
pub fn name_field(bytes: &[u8], span: Span) -> &[u8]
    ensures { result.now ≡ name_field_of bytes.now span }
{
    up_to(from(bytes, span.start.saturating_sub(HEADER)), NAME)
}

fn has_slash(name: &[u8]) -> bool
    ensures { result ≡ list_any (λ b. b == 0x2f) name.now }
{
    name.iter().any(|b| *b == b'/')
}

// A name in a header: up to its slash, or, as BSD's `ar` writes it, up to its first space.
fn short_name(name: &[u8]) -> &[u8]
    ensures { result.now ≡ short_name_of name.now }
{
    if has_slash(name) {
        until(b'/', name)
    } else {
        until(b' ', name)
    }
}

fn unslashed(name: &[u8]) -> &[u8]
    ensures { result.now ≡ unslashed_of name.now }
{
    if name.ends_with(b"/".as_slice()) {
        return &name[..name.len() - 1];
    }
    name
}

// The long name at a place: up to the end of its line, in front of which a slash stands.
fn long_name(longs: &[u8], at: u64) -> &[u8]
    ensures { result.now ≡ long_name_of longs.now at }
{
    unslashed(until(b'\n', from(longs, at)))
}

/// The name of a member, of which the header has a short name or the place of a long one.
pub fn member_name<'a>(longs: &'a [u8], field: &'a [u8]) -> &'a [u8]
    ensures { result.now ≡ member_name_of longs.now field.now }
{
    if field.starts_with(b"/".as_slice()) {
        return long_name(longs, amount(until(b' ', &field[1..])));
    }
    short_name(field)
}

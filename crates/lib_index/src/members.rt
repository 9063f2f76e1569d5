//! The members of an archive.
ghost use Rattle.std.specs.Prelude.{◌≡◌, ◌≤◌, length, take, drop, IfOk, option_map};
ghost use Rattle.lib_index.specs.Archive.{role_of};
ghost use Rattle.lib_index.specs.Library.{headers, spans};
ghost use Rattle.lib_index.specs.Reading.{Answers, unpadded, cut_member, sized_member, member_at, members_at};

use crate::fault::LibError;
use crate::header::{has_header, number_in};
use std::alloc::Global;
use wl_base::{LibFault, OutOfMemory, Seq, Span};

/// What a member is, by the name field of its header.
#[derive(Clone, Copy, Debug, PartialEq, Eq)]
pub enum Role {
    /// `/`: which member defines a name.
    Index,
    /// `//`: the names of files that are too long for a header.
    LongNames,
    /// A file.
    Object,
}

/// A member of an archive.
#[derive(Clone, Copy, Debug, PartialEq, Eq)]
pub struct Member {
    pub role: Role,
    /// The place of its header, from the file's first byte.
    pub place: u64,
    /// Its data, from the file's first byte.
    pub span: Span,
}

/// The member that a name field of 16 bytes names.
fn role_of(name: &[u8]) -> Role
    ensures { result ≡ role_of name.now }
{
    if name == b"/               ".as_slice() {
        Role::Index
    } else if name == b"//              ".as_slice() {
        Role::LongNames
    } else {
        Role::Object
    }
}

/// The bytes behind a header, which has 60 bytes.
fn behind_header(bytes: &[u8]) -> &[u8]
    requires { 60 ≤ length bytes.now }
    ensures value { result.now ≡ drop 60 bytes.now }
    ensures shorter { length result.now ≤ length bytes.now }
{
    &bytes[60..]
}

/// The size field of a header.
fn size_field(bytes: &[u8]) -> &[u8]
    requires { 60 ≤ length bytes.now }
    ensures value { result.now ≡ take 10 (drop 48 bytes.now) }
    ensures short { length result.now ≤ 10 }
{
    &bytes[48..][..10]
}

/// The bytes behind data of this size, without the byte of padding, if there is one.
fn after_padding(size: usize, body: &[u8]) -> &[u8]
    requires { size ≤ length body.now }
    ensures { result.now ≡ unpadded size (drop size body.now) }
{
    let after = &body[size..];
    &after[(size % 2).min(after.len())..]
}

/// The member at the front whose data have this size, and the bytes after it; none where it runs past
/// the end.
fn cut_member(end: usize, bytes: &[u8], size: u64) -> Option<(Member, &[u8])>
    requires long { 60 ≤ length bytes.now }
    requires within { length bytes.now ≤ end }
    ensures { option_map (λ x. (x.0, x.1.now)) result ≡ cut_member end bytes.now size }
{
    let body = behind_header(bytes);
    if (body.len() as u64) < size {
        return None;
    }
    let span = Span {
        start: (end - body.len()) as u64,
        len: size,
    };
    let member = Member {
        role: role_of(&bytes[..16]),
        place: (end - bytes.len()) as u64,
        span,
    };
    Some((member, after_padding(size as usize, body)))
}

/// The same, where there is a size.
fn sized_member(end: usize, bytes: &[u8], size: Option<u64>) -> Option<(Member, &[u8])>
    requires long { 60 ≤ length bytes.now }
    requires within { length bytes.now ≤ end }
    ensures { option_map (λ x. (x.0, x.1.now)) result ≡ sized_member end bytes.now size }
{
    match size {
        None => None,
        Some(size) => cut_member(end, bytes, size),
    }
}

/// The member at the front of bytes that reach to this end, and the bytes after it; none where its
/// header is broken or it runs past the end.
#[tactic(auto, unfolding(crate::specs::Reading::member_at))]
fn member_at(end: usize, bytes: &[u8]) -> Option<(Member, &[u8])>
    requires { length bytes.now ≤ end }
    ensures { option_map (λ x. (x.0, x.1.now)) result ≡ member_at end bytes.now }
{
    if has_header(bytes) {
        sized_member(end, bytes, number_in(size_field(bytes)))
    } else {
        None
    }
}

/// The members that the bytes are, which reach to this end.
pub fn members_at(alloc: Global, end: usize, bytes: &[u8]) -> Result<Seq<Member>, LibError>
    requires { length bytes.now ≤ end }
    ensures { Answers (λ x. x) result (members_at (length bytes.now) end bytes.now) }
{
    let mut members = Seq::new(alloc);
    let mut rest = bytes;
    while rest.len() > 0 {
        let Some((member, after)) = member_at(end, rest) else {
            let place = (end - rest.len()) as u64;
            return Err(LibError::Refused(LibFault::BadHeader(place)));
        };
        members.push(member)?;
        rest = after;
    }
    Ok(members)
}

/// The places of the headers of the members that are offered.
pub fn headers(alloc: Global, members: &[Member]) -> Result<Seq<u64>, OutOfMemory>
    ensures { IfOk result (λ places. places ≡ headers members.now) }
{
    let mut places = Seq::new(alloc);
    for member in members {
        if let Role::Object = member.role {
            places.push(member.place)?;
        }
    }
    Ok(places)
}

/// Where the data of the members that are offered lie.
pub fn spans(alloc: Global, members: &[Member]) -> Result<Seq<Span>, OutOfMemory>
    ensures { IfOk result (λ spans_of. spans_of ≡ spans members.now) }
{
    let mut found = Seq::new(alloc);
    for member in members {
        if let Role::Object = member.role {
            found.push(member.span)?;
        }
    }
    Ok(found)
}

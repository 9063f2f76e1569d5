//! What the index gives: names, and for each the place of its member's header.
ghost use Rattle.std.specs.Prelude.{◌≡◌, ◌≤◌, ◌+◌, ◌∷◌, ◌==◌, [], All, Ok, length, drop, OnOk, IfOk, option_copied};
ghost use Rattle.std.specs.List.{list_any};
ghost use Rattle.lib_index.specs.Library.{bytes_of};
ghost use Rattle.round_rules.specs.Rounds.{defined_names};
ghost use Rattle.library_indexer.specs.Indexed.{can_be_told as can_be_told_of, begins_as_object as begins_as_object_of, has_name_in_data as has_name_in_data_of, entries_of as entries_of_members};
ghost use Rattle.library_indexer.specs.Steps.{defined_at as defined_at_of, listed, with_names, with_member};

use crate::index::HEADER_LEN;
use object_file::{Object, ObjectError, read_object};
use std::alloc::Global;
use wl_base::{OutOfMemory, Seq, Span};

/// What an index gives.
#[derive(Drop)]
pub struct Entries {
    /// The names, each ended by a byte 0.
    pub text: Seq<u8>,
    /// For each name the place of its member's header.
    pub places: Seq<u64>,
    /// Whether an index can give all that the members define.
    pub told: bool,
}

/// Whether there is a byte 0.
fn has_zero(name: &[u8]) -> bool
    ensures { result ≡ list_any (λ b. b == 0) name.now }
{
    name.iter().any(|b| *b == 0)
}

/// Whether a name has no byte 0, which ends a name in an index.
fn can_be_told(name: &[u8]) -> bool
    ensures { result ≡ can_be_told_of name.now }
{
    !has_zero(name)
}

/// Whether a file begins as an object, of WebAssembly or in LLVM's bitcode.
fn begins_as_object(bytes: &[u8]) -> bool
    ensures { result ≡ begins_as_object_of bytes.now }
{
    match bytes {
        [0x00, 0x61, 0x73, 0x6d, ..] => true,
        [0x42, 0x43, 0xc0, 0xde, ..] => true,
        [0xde, 0xc0, 0x17, 0x0b, ..] => true,
        _ => false,
    }
}

/// Whether a header tells that the member's name stands in front of its data.
fn has_name_in_data(header: &[u8]) -> bool
    ensures { result ≡ has_name_in_data_of header.now }
{
    match header {
        [b'#', b'1', b'/', ..] => true,
        _ => false,
    }
}

/// The bytes of a member.
fn member_bytes(bytes: &[u8], member: Span) -> &[u8]
    requires { member.start + member.len ≤ length bytes.now }
    ensures { result.now ≡ bytes_of bytes.now member }
{
    &bytes[member.start as usize..][..member.len as usize]
}

/// The bytes from a place on.
fn bytes_from(bytes: &[u8], place: u64) -> &[u8]
    requires { place ≤ length bytes.now }
    ensures { result.now ≡ drop place bytes.now }
{
    &bytes[place as usize..]
}

/// The name that the symbol at a place defines for other objects, if it does.
fn defined_at(object: &Object, at: usize) -> Option<&[u8]>
    ensures { option_copied result ≡ defined_at_of object.now.symbols at }
{
    match object.symbols.get(at) {
        Some(symbol) if symbol.is_definition() => symbol.name,
        _ => None,
    }
}

impl Entries {
    /// Gives a name for the member whose header stands at this place.
    fn give(&mut self, name: &[u8], place: u64) -> Result<(), OutOfMemory>
        ensures { OnOk result (self.new ≡ with_names self.old place (name.now ∷ [])) }
    {
        self.text.extend_from_slice(name)?;
        self.text.push(0)?;
        self.places.push(place)?;
        self.told = self.told && can_be_told(name);
        Ok(())
    }
}

/// Gives the name that the symbol at a place defines for other objects, if it does.
fn give_at(entries: &mut Entries, object: &Object, at: usize, place: u64) -> Result<(), OutOfMemory>
    ensures { OnOk result (entries.new ≡ with_names entries.old place (listed (defined_at_of object.now.symbols at))) }
{
    match defined_at(object, at) {
        Some(name) => entries.give(name, place),
        None => Ok(()),
    }
}

/// Gives the names that an object defines for others.
#[tactic(auto, using(crate::proofs::Names::begins, crate::proofs::Names::gives_on, crate::proofs::Names::ends))]
fn give_names(entries: &mut Entries, object: &Object, place: u64) -> Result<(), OutOfMemory>
    ensures { OnOk result (entries.new ≡ with_names entries.old place (defined_names object.now)) }
{
    for at in 0..object.symbols.len() {
        give_at(entries, object, at, place)?;
    }
    Ok(())
}

/// Gives the names that a member defines for others. One that is no object gives none.
#[tactic(auto, using(crate::proofs::Gains::gives_all, crate::proofs::Gains::gives_nothing))]
fn give_member(
    alloc: Global,
    entries: &mut Entries,
    bytes: &[u8],
    member: Span,
) -> Result<(), OutOfMemory>
    requires { member.start + member.len ≤ length bytes.now }
    ensures { OnOk result (entries.new ≡ with_member bytes.now entries.old member) }
{
    let place = member.start.saturating_sub(HEADER_LEN);
    let data = member_bytes(bytes, member);
    match read_object(alloc, 0, data) {
        Ok(object) => give_names(entries, &object, place),
        Err(ObjectError::Refused(_)) => {
            let lacking = begins_as_object(data) || has_name_in_data(bytes_from(bytes, place));
            entries.told = entries.told && !lacking;
            Ok(())
        }
        Err(ObjectError::OutOfMemory) => Err(OutOfMemory),
    }
}

/// What the members of a library define for others.
#[tactic(auto, using(crate::proofs::Gains::gains))]
pub fn entries_of(alloc: Global, bytes: &[u8], members: &[Span]) -> Result<Entries, OutOfMemory>
    requires { All (λ m. m.start + m.len ≤ length bytes.now) members.now }
    ensures { IfOk result (λ e. e ≡ entries_of_members bytes.now members.now) }
{
    let mut entries = Entries {
        text: Seq::new(alloc),
        places: Seq::new(alloc),
        told: true,
    };
    for member in members {
        give_member(alloc, &mut entries, bytes, *member)?;
    }
    Ok(entries)
}
